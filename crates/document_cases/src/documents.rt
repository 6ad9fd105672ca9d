ghost use Rattle.std.specs.Prelude.{◌≡◌, ◌++◌, IfOk, OnOk, codes, string_bytes};
ghost use Rattle.std.specs.List.{flat_map};
ghost use Rattle.document_cases.specs.Documents.{attribute_printed, node_printed, root_printed};

use crate::Printer;
use case_lines::{Prints, bytes_of, print_all, push_all, text_of};
use field_text::{NoMemory, Text};
use rosa_doc::{Attribute, Doc, DocRefused, Element, Node, read, write_attr, write_text};
use std::alloc::{AllocError, Global};

impl Prints<Attribute> for Printer {
    ghost printed = { attribute_printed };

    fn print(out: &mut String, value: &Attribute) -> Result<(), AllocError> {
        push_all(out, &[" ", value.name.as_str(), "=", value.value.as_str()])
    }
}

impl Prints<Node> for Printer {
    ghost printed = { node_printed };

    fn print(out: &mut String, value: &Node) -> Result<(), AllocError> {
        match value {
            Node::Words(text) => push_all(out, &["[", text.as_str(), "]"]),
            Node::Child(element) => push_all(out, &["<", element.name.as_str(), ">"]),
        }
    }
}

fn print_root(out: &mut String, root: &Element) -> Result<(), AllocError>
    ensures { OnOk result (string_bytes out.new ≡ string_bytes out.old ++ root_printed root.now) }
{
    out.push_str(root.name.as_str())?;
    print_all::<_, Printer>(out, root.attributes.as_slice())?;
    print_all::<_, Printer>(out, root.children.as_slice())
}

fn doc_of(alloc: Global, bytes: &[u8]) -> Result<Doc, DocRefused> {
    read(alloc, bytes)
}

/// What a document is read as: its root's name, its attributes and its children, or why it is refused.
pub fn answer(alloc: Global, line: &str) -> Result<String, NoMemory> {
    let bytes = bytes_of(alloc, line)?;
    let mut out = String::new(alloc);
    match doc_of(alloc, bytes.as_slice()) {
        Ok(doc) => print_root(&mut out, &doc.root)?,
        Err(refusal) => write!(out, "{refusal:?}")?,
    }
    Ok(out)
}

/// A text as it is written in an element, and as it is written in a value.
pub fn answer_written(alloc: Global, line: &str) -> Result<String, NoMemory> {
    let text = Text::from_string(text_of(alloc, line)?);
    let mut bytes = Vec::new(alloc);
    write_text(&text, &mut bytes)?;
    bytes.extend_from_slice(b" | ")?;
    write_attr(&text, &mut bytes)?;
    match std::str::from_utf8(bytes.as_slice()) {
        Ok(written) => Ok(String::from_str(alloc, written)?),
        Err(_) => Ok(String::new(alloc)),
    }
}
