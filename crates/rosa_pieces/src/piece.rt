ghost use Rattle.std.specs.Prelude.{◌≡◌};
ghost use Rattle.rosa_pieces.specs.Pieces.{is_return as return_of, same_name, same_prefix as alike};

use field_text::{Items, Text};

/// A name as it is written: the prefix before its colon, where it has one, and the local name (Namespaces in XML 1.0).
#[derive(Debug, Drop)]
pub struct Name {
    pub prefix: Option<Text>,
    pub local: Text,
}

impl Name {
    /// Whether the two are written alike.
    pub fn same(&self, other: &Name) -> bool
        ensures { result ≡ same_name self.now other.now }
    {
        same_prefix(&self.prefix, &other.prefix) && self.local.bytes() == other.local.bytes()
    }
}

fn same_prefix(a: &Option<Text>, b: &Option<Text>) -> bool
    ensures { result ≡ alike a.now b.now }
{
    match (a, b) {
        (None, None) => true,
        (Some(a), Some(b)) => a.bytes() == b.bytes(),
        _ => false,
    }
}

/// An attribute as it is written; its value has its references replaced and its white space made spaces.
#[derive(Debug, Drop)]
pub struct Attribute {
    pub name: Name,
    pub value: Text,
}

/// A start tag or an empty-element tag.
#[derive(Debug, Drop)]
pub struct Tag {
    pub name: Name,
    pub attributes: Items<Attribute>,
}

/// A character of a text: one that stands for itself, or one that a reference stands for.
#[derive(Clone, Copy, Debug, PartialEq, Eq)]
pub enum CharData {
    Literal(char),
    Reference(char),
}

impl CharData {
    /// Whether it is a carriage return that stands for itself.
    pub fn is_return(self) -> bool
        ensures { result ≡ return_of self }
    {
        matches!(self, CharData::Literal('\r'))
    }
}

/// A piece of a document.
#[derive(Debug, Drop)]
pub enum Piece {
    Start(Tag),
    Empty(Tag),
    End(Name),
    Comment,
    Instruction,
    Data(CharData),
}
