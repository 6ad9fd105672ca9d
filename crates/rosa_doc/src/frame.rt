ghost use Rattle.std.specs.Prelude.{◌≡◌, ◌++◌, IfOk, OnOk, string_bytes, encode_utf8_all};
ghost use Rattle.rosa_pieces.specs.Pieces.{same_name, read_char};
ghost use Rattle.rosa_doc.specs.Documents.{declares_namespace as declares, kept as kept_of};
ghost use Rattle.rosa_doc.specs.Documents.{element_of as element_with, with_words as words_behind};
ghost use Rattle.rosa_doc.specs.Frames.{level_of};
ghost use Rattle.rosa_doc.specs.Machine.{opened, closed, with_child, with_char};

use crate::tree::{Attribute, Element, Node};
use field_text::{Items, NoMemory, Text};
use rosa_pieces::{CharData, Name, Tag};
use std::alloc::Global;

/// An element whose end tag is still to come: its tag, its children, and the text behind them.
#[derive(Debug, Drop)]
pub struct Frame {
    tag: Tag,
    children: Items<Node>,
    words: String,
}

impl Frame {
    pub fn open(alloc: Global, tag: Tag) -> Frame
        ensures { level_of result ≡ opened tag }
    {
        Frame {
            tag,
            children: Items::new(alloc),
            words: String::new(alloc),
        }
    }

    /// Whether an end tag of this name ends the element.
    pub fn is_named(&self, name: &Name) -> bool
        ensures { result ≡ same_name name.now (level_of self.now).tag.name }
    {
        name.same(&self.tag.name)
    }

    pub fn close(self, alloc: Global) -> Result<Element, NoMemory>
        ensures { IfOk result (λ element. element ≡ closed (level_of self)) }
    {
        let Frame {
            tag,
            children,
            words,
        } = self;
        let children = with_words(children, words)?;
        element_of(alloc, &tag, children)
    }

    /// The frame with one more child.
    pub fn with_child(self, alloc: Global, element: Element) -> Result<Frame, NoMemory>
        ensures { IfOk result (λ frame. level_of frame ≡ with_child (level_of self) element) }
    {
        let Frame {
            tag,
            children,
            words,
        } = self;
        let mut children = with_words(children, words)?;
        children.push(Node::Child(element))?;
        let words = String::new(alloc);
        Ok(Frame {
            tag,
            children,
            words,
        })
    }

    /// The frame with what one more character adds to its text.
    pub fn with_char(self, after_return: bool, char_data: CharData) -> Result<Frame, NoMemory>
        ensures { IfOk result (λ frame. level_of frame ≡ with_char (level_of self) after_return char_data) }
    {
        let Frame {
            tag,
            children,
            mut words,
        } = self;
        push_char(&mut words, after_return, char_data)?;
        Ok(Frame {
            tag,
            children,
            words,
        })
    }
}

/// Appends what a character adds to a text: a line feed for a carriage return that is no reference, and nothing for a
/// line feed behind one.
fn push_char(words: &mut String, after_return: bool, char_data: CharData) -> Result<(), NoMemory>
    ensures { OnOk result (string_bytes words.new ≡ string_bytes words.old
        ++ encode_utf8_all (read_char after_return char_data)) }
{
    match char_data {
        CharData::Literal('\r') => words.push('\n')?,
        CharData::Literal('\n') if after_return => {}
        CharData::Literal(c) | CharData::Reference(c) => words.push(c)?,
    }
    Ok(())
}

fn with_words(children: Items<Node>, words: String) -> Result<Items<Node>, NoMemory>
    ensures { IfOk result (λ all. all ≡ words_behind children (string_bytes words)) }
{
    let mut children = children;
    if !words.is_empty() {
        children.push(Node::Words(Text::from_string(words)))?;
    }
    Ok(children)
}

/// The element of a tag, with these children.
pub fn element_of(alloc: Global, tag: &Tag, children: Items<Node>) -> Result<Element, NoMemory>
    ensures { IfOk result (λ element. element ≡ element_with tag.now children) }
{
    let name = tag.name.local.copy(alloc)?;
    let attributes = kept(alloc, tag.attributes.as_slice())?;
    Ok(Element {
        name,
        attributes,
        children,
    })
}

/// Whether an attribute of this name declares a namespace.
fn declares_namespace(name: &Name) -> bool
    ensures { result ≡ declares name.now.prefix name.now.local }
{
    match &name.prefix {
        Some(prefix) => prefix.bytes() == b"xmlns".as_slice(),
        None => name.local.bytes() == b"xmlns".as_slice(),
    }
}

/// The attributes that declare no namespace, by their local names.
fn kept(alloc: Global, attributes: &[rosa_pieces::Attribute]) -> Result<Items<Attribute>, NoMemory>
    ensures { IfOk result (λ all. all ≡ kept_of attributes.now) }
{
    let mut all = Items::new(alloc);
    let mut rest = attributes;
    while let [first, others @ ..] = rest {
        if !declares_namespace(&first.name) {
            let name = first.name.local.copy(alloc)?;
            let value = first.value.copy(alloc)?;
            all.push(Attribute { name, value })?;
        }
        rest = others;
    }
    Ok(all)
}
