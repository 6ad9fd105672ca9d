ghost use Rattle.std.specs.Prelude.{◌≡◌, ◌++◌, [], ◌∷◌, IfOk, OnOk, codes};
ghost use Rattle.std.specs.List.{flat_map};
ghost use Rattle.form_outline.specs.Controls.{is_label, item_value, itemset_value, itemset_of, part_of, part_in};
ghost use Rattle.form_outline.specs.Controls.{control_of, controls_in, controls_of};

use crate::{Control, ControlPart, ItemsetPart};
use field_text::{Items, NoMemory, Text};
use rosa_doc::{Element, Node};
use rosa_nodes::{attribute, attribute_or_empty, child_named, element_in, words_of};
use std::alloc::Global;

fn is_label(element: &Element) -> bool
    ensures { result ≡ is_label element.now }
{
    element.name.as_str() == "label" || element.name.as_str() == "hint"
}

fn item_value(alloc: Global, element: &Element) -> Result<Option<Text>, NoMemory>
    ensures { IfOk result (λ value. value ≡ item_value element.now) }
{
    match child_named(element.children.as_slice(), "value") {
        Some(value) => Ok(Some(words_of(alloc, value.children.as_slice())?)),
        None => Ok(None),
    }
}

fn itemset_value(alloc: Global, element: &Element) -> Result<Option<Text>, NoMemory>
    ensures { IfOk result (λ value. value ≡ itemset_value element.now) }
{
    match child_named(element.children.as_slice(), "value") {
        Some(value) => attribute(alloc, value.attributes.as_slice(), "ref"),
        None => Ok(None),
    }
}

fn itemset_of(alloc: Global, element: &Element) -> Result<ItemsetPart, NoMemory>
    ensures { IfOk result (λ itemset. itemset ≡ itemset_of element.now) }
{
    Ok(ItemsetPart {
        nodeset: attribute_or_empty(alloc, element.attributes.as_slice(), "nodeset")?,
        value: itemset_value(alloc, element)?,
    })
}

fn part_of(alloc: Global, element: &Element) -> Result<ControlPart, NoMemory>
    ensures { IfOk result (λ part. part ≡ part_of element.now) }
{
    if element.name.as_str() == "item" {
        return Ok(ControlPart::Item(item_value(alloc, element)?));
    }
    if element.name.as_str() == "itemset" {
        return Ok(ControlPart::Itemset(itemset_of(alloc, element)?));
    }
    Ok(ControlPart::Other(element.name.copy(alloc)?))
}

/// Appends the part that a node is, if it is an element other than a label and a hint.
fn push_part(alloc: Global, node: &Node, parts: &mut Items<ControlPart>) -> Result<(), NoMemory>
    ensures { OnOk result (parts.new ≡ parts.old ++ part_in node.now) }
{
    let Some(element) = element_in(node) else {
        return Ok(());
    };
    if is_label(element) {
        return Ok(());
    }
    Ok(parts.push(part_of(alloc, element)?)?)
}

fn parts_of(alloc: Global, nodes: &[Node]) -> Result<Items<ControlPart>, NoMemory>
    ensures { IfOk result (λ parts. parts ≡ flat_map part_in nodes.now) }
{
    let mut parts = Items::new(alloc);
    for node in nodes {
        push_part(alloc, node, &mut parts)?;
    }
    Ok(parts)
}

fn control_of(alloc: Global, element: &Element) -> Result<Control, NoMemory>
    ensures { IfOk result (λ control. control ≡ control_of element.now) }
{
    Ok(Control {
        name: element.name.copy(alloc)?,
        target: attribute_or_empty(alloc, element.attributes.as_slice(), "ref")?,
        parts: parts_of(alloc, element.children.as_slice())?,
    })
}

/// Appends the control that a node is, or those of the group that it is.
#[cycle(controls)]
fn push_controls_in(
    alloc: Global,
    node: &Node,
    controls: &mut Items<Control>,
) -> Result<(), NoMemory>
    ensures { OnOk result (controls.new ≡ controls.old ++ controls_in node.now) }
{
    match node {
        Node::Child(element) => {
            if element.name.as_str() == "group" {
                return push_controls(alloc, element.children.as_slice(), controls);
            }
            if is_label(element) {
                return Ok(());
            }
            Ok(controls.push(control_of(alloc, element)?)?)
        }
        Node::Words(_) => Ok(()),
    }
}

#[cycle(controls)]
fn push_controls(
    alloc: Global,
    nodes: &[Node],
    controls: &mut Items<Control>,
) -> Result<(), NoMemory>
    ensures { OnOk result (controls.new ≡ controls.old ++ controls_of nodes.now) }
{
    for node in nodes {
        push_controls_in(alloc, node, controls)?;
    }
    Ok(())
}

/// The controls of a body, those of its groups too.
pub fn controls_of(alloc: Global, nodes: &[Node]) -> Result<Items<Control>, NoMemory>
    ensures { IfOk result (λ controls. controls ≡ controls_of nodes.now) }
{
    let mut controls = Items::new(alloc);
    push_controls(alloc, nodes, &mut controls)?;
    Ok(controls)
}
