ghost use Rattle.std.specs.Prelude.{◌≡◌, IfOk, IfErr};
ghost use Rattle.std.specs.Option.{option_copied};
ghost use Rattle.form_outline.specs.declared.reading.OutlineFault.TheVariants.{NoMemory};
ghost use Rattle.form_outline.specs.Outlines.{Gives, Outlines, Refuses, has_body_first, first_element, outline_of};
ghost use Rattle.form_outline.specs.Outlines.{is_body, is_head_or_body};
ghost use Rattle.rosa_nodes.specs.Nodes.{child_named};
ghost use Rattle.form_outline.specs.Names.{IsNamed};

use crate::Outline;
use crate::controls::controls_of;
use crate::model::model_of;
use crate::primary::primary_of;
use rosa_doc::{DocRefused, Element, Node};
use rosa_nodes::{attribute_or_empty, child_named, element_in};
use std::alloc::Global;

/// Why bytes say nothing of a form.
#[derive(Clone, Copy, Debug, PartialEq, Eq)]
pub enum OutlineFault {
    /// They are no document.
    Doc(DocRefused),
    /// The head, its model, the model's first instance, an element in it, or the body is missing.
    NoPrimary,
    NoMemory,
}

impl From<field_text::NoMemory> for OutlineFault {
    ghost from_gives = { λ _ fault. fault ≡ NoMemory };

    fn from(_: field_text::NoMemory) -> OutlineFault {
        OutlineFault::NoMemory
    }
}

fn needed<'a>(nodes: &'a [Node], name: &str) -> Result<&'a Element, OutlineFault>
    ensures { Gives (λ e. e.now) result (child_named name.now nodes.now) }
{
    match child_named(nodes, name) {
        Some(element) => Ok(element),
        None => Err(OutlineFault::NoPrimary),
    }
}

fn first_element(nodes: &[Node]) -> Result<&Element, OutlineFault>
    ensures { Gives (λ e. e.now) result (first_element nodes.now) }
{
    let mut rest = nodes;
    while let Some((node, others)) = rest.split_first() {
        if let Some(element) = element_in(node) {
            return Ok(element);
        }
        rest = others;
    }
    Err(OutlineFault::NoPrimary)
}

fn is_body(element: &Element) -> bool
    ensures { result ≡ is_body element.now }
{
    element.name.as_str() == "body"
}

fn is_head_or_body(element: &Element) -> bool
    ensures { result ≡ is_head_or_body element.now }
{
    element.name.as_str() == "head" || is_body(element)
}

fn has_body_first(nodes: &[Node]) -> bool
    ensures { result ≡ has_body_first nodes.now }
{
    let mut rest = nodes;
    while let Some((node, others)) = rest.split_first() {
        if let Some(element) = element_in(node) {
            if is_head_or_body(element) {
                return is_body(element);
            }
        }
        rest = others;
    }
    false
}

/// What a document says of a form.
#[tactic(auto, unfolding(crate::specs::Outlines::outline_of))]
fn outline_of(alloc: Global, document: &Element) -> Result<Outline, OutlineFault>
    ensures { Gives (λ o. o) result (outline_of document.now) }
{
    let head = needed(document.children.as_slice(), "head")?;
    let model = needed(head.children.as_slice(), "model")?;
    let instance = needed(model.children.as_slice(), "instance")?;
    let root = first_element(instance.children.as_slice())?;
    let body = needed(document.children.as_slice(), "body")?;
    Ok(Outline {
        root: root.name.copy(alloc)?,
        id: attribute_or_empty(alloc, root.attributes.as_slice(), "id")?,
        version: attribute_or_empty(alloc, root.attributes.as_slice(), "version")?,
        primary: primary_of(alloc, root)?,
        model: model_of(alloc, model.children.as_slice())?,
        controls: controls_of(alloc, body.children.as_slice())?,
        body_first: has_body_first(document.children.as_slice()),
    })
}

/// What a document says of a form.
pub fn read_outline(alloc: Global, bytes: &[u8]) -> Result<Outline, OutlineFault>
    ensures found { IfOk result (λ outline. Outlines bytes.now outline) }
    ensures refused { IfErr result (λ fault. Refuses bytes.now fault) }
    ensures named { IfOk result (λ outline. IsNamed outline) }
{
    match rosa_doc::read(alloc, bytes) {
        Ok(doc) => outline_of(alloc, &doc.root),
        Err(DocRefused::NoMemory) => Err(OutlineFault::NoMemory),
        Err(refusal) => Err(OutlineFault::Doc(refusal)),
    }
}
