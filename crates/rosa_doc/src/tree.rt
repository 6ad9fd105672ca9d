use field_text::{Items, Text};

/// An attribute, by its local name.
#[derive(Debug, Drop)]
pub struct Attribute {
    pub name: Text,
    pub value: Text,
}

/// An element, by its local name; two attributes of one local name may stand.
#[cycle(tree)]
#[derive(Debug, Drop)]
pub struct Element {
    pub name: Text,
    pub attributes: Items<Attribute>,
    pub children: Items<Node>,
}

/// A part of an element's content.
#[cycle(tree)]
#[derive(Debug, Drop)]
pub enum Node {
    Child(Element),
    /// The text between two elements, which isn't empty.
    Words(Text),
}

/// A document.
#[derive(Debug, Drop)]
pub struct Doc {
    pub root: Element,
}
