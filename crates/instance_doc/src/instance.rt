ghost use Rattle.std.specs.Prelude.{◌≡◌, IfErr, IfOk};
ghost use Rattle.rosa_doc.specs.Refusals.{Refuses};
ghost use Rattle.instance_doc.specs.Instances.{ReadsAs, read_of, text_in_meta};

use field_text::{NoMemory, Text};
use rosa_doc::{DocRefused, Element};
use rosa_nodes::{attribute_or_empty, child_named, words_of};
use std::alloc::Global;

/// What the document of an instance says of it. A part that the document lacks is empty.
#[derive(Debug, Drop)]
pub struct Read {
    pub form_id: Text,
    pub version: Text,
    pub instance_id: Text,
    /// The id of the instance that this one is an edit of.
    pub deprecated: Option<Text>,
}

fn text_in_meta(alloc: Global, root: &Element, name: &str) -> Result<Option<Text>, NoMemory>
    ensures { IfOk result (λ text. text ≡ text_in_meta name.now root.now) }
{
    let Some(meta) = child_named(root.children.as_slice(), "meta") else {
        return Ok(None);
    };
    match child_named(meta.children.as_slice(), name) {
        Some(element) => Ok(Some(words_of(alloc, element.children.as_slice())?)),
        None => Ok(None),
    }
}

fn instance_of(alloc: Global, root: &Element) -> Result<Read, NoMemory>
    ensures { IfOk result (λ read. read ≡ read_of root.now) }
{
    let instance_id = match text_in_meta(alloc, root, "instanceID")? {
        Some(id) => id,
        None => Text::from_string(String::new(alloc)),
    };
    let attributes = root.attributes.as_slice();
    Ok(Read {
        form_id: attribute_or_empty(alloc, attributes, "id")?,
        version: attribute_or_empty(alloc, attributes, "version")?,
        instance_id,
        deprecated: text_in_meta(alloc, root, "deprecatedID")?,
    })
}

/// What the document of an instance says of it, by local names: the root's attributes `id` and `version`, and
/// `instanceID` and `deprecatedID` in its first child `meta`.
pub fn read_instance(alloc: Global, bytes: &[u8]) -> Result<Read, DocRefused>
    ensures read { IfOk result (λ read. ReadsAs bytes.now read) }
    ensures refused { IfErr result (λ refusal. Refuses bytes.now refusal) }
{
    let doc = rosa_doc::read(alloc, bytes)?;
    Ok(instance_of(alloc, &doc.root)?)
}
