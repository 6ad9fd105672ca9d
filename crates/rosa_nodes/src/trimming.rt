ghost use Rattle.std.specs.Prelude.{◌≡◌, IfOk};
ghost use Rattle.std.specs.Str.{IsUtf8};
ghost use Rattle.field_text.specs.Xml.{is_xml_space};
ghost use Rattle.rosa_nodes.specs.Trimming.{text_of_child, trimmed as both_trimmed, trimmed_back, trimmed_front};

use crate::nodes::{child_named, words_of};
use field_text::{NoMemory, Text, TextRefused};
use rosa_doc::Node;
use std::alloc::Global;

fn is_space(byte: u8) -> bool
    ensures { result ≡ is_xml_space byte }
{
    matches!(byte, b' ' | b'\t' | b'\n' | b'\r')
}

fn trimmed_front(bytes: &[u8]) -> &[u8]
    ensures { result.now ≡ trimmed_front bytes.now }
{
    let mut rest = bytes;
    while let [first, others @ ..] = rest {
        if !is_space(*first) {
            break;
        }
        rest = others;
    }
    rest
}

fn trimmed_back(bytes: &[u8]) -> &[u8]
    ensures { result.now ≡ trimmed_back bytes.now }
{
    let mut rest = bytes;
    while let Some((last, others)) = rest.split_last() {
        if !is_space(*last) {
            return rest;
        }
        rest = others;
    }
    rest
}

fn text_from(alloc: Global, bytes: &[u8]) -> Result<Text, NoMemory>
    requires { IsUtf8 bytes.now }
    ensures { IfOk result (λ text. text ≡ bytes.now) }
{
    match Text::from_bytes(alloc, bytes) {
        Ok(text) => Ok(text),
        Err(TextRefused::NotUtf8 { .. }) => unreachable!(),
        Err(TextRefused::NoMemory) => Err(NoMemory),
    }
}

fn trimmed(alloc: Global, text: &Text) -> Result<Text, NoMemory>
    ensures { IfOk result (λ trimmed. trimmed ≡ both_trimmed text.now) }
{
    text_from(alloc, trimmed_back(trimmed_front(text.bytes())))
}

/// The text of the first child element of this name, without white space at its ends; empty where there is none.
pub fn text_of_child(alloc: Global, nodes: &[Node], name: &str) -> Result<Text, NoMemory>
    ensures { IfOk result (λ text. text ≡ text_of_child name.now nodes.now) }
{
    match child_named(nodes, name) {
        Some(element) => trimmed(alloc, &words_of(alloc, element.children.as_slice())?),
        None => Ok(Text::from_string(String::new(alloc))),
    }
}
