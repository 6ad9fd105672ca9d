use crate::expr::Expr;
use field_text::{Items, Text};

/// What a field asks for.
#[derive(Clone, Copy, Debug, PartialEq, Eq)]
pub enum Kind {
    /// A text, by an `input`.
    Words,
    /// A whole number, by an `input`.
    Whole,
    /// One choice, by a `select1`.
    One,
    /// Any number of choices, by a `select`.
    Many,
    /// Fields below it.
    Group,
    /// Nothing: it has no control.
    Plain,
}

/// The values that a select offers.
#[derive(Debug, Drop)]
pub enum Choices {
    Nothing,
    Fixed(Items<Text>),
    /// The column `value` of the rows of a table for which the filter, if there is one, holds.
    Rows {
        table: Text,
        filter: Option<Expr>,
        value: Text,
    },
}

/// A field of a form (ODK XForms): its place in the document, and what its bind and its control say.
#[derive(Debug, Drop)]
pub struct Field {
    /// The names from the root on, each behind a slash; an attribute's name has `@` before it.
    pub path: Text,
    pub kind: Kind,
    pub initial: Text,
    pub relevant: Option<Expr>,
    pub constraint: Option<Expr>,
    pub required: Option<Expr>,
    pub readonly: Option<Expr>,
    pub calculate: Option<Expr>,
    /// The property of the form's entity that the field is saved to.
    pub saveto: Option<Text>,
    pub choices: Choices,
}

/// A cell of a table in a form.
#[derive(Debug, Drop)]
pub struct Cell {
    pub column: Text,
    pub value: Text,
}

/// A table in a form.
#[derive(Debug, Drop)]
pub struct InnerTable {
    pub name: Text,
    pub rows: Items<Items<Cell>>,
}

/// A name for an entity list of the device.
#[derive(Debug, Drop)]
pub struct OuterTable {
    pub name: Text,
    pub list: Text,
}

/// The entity that an instance of the form makes or changes (ODK Entities).
#[derive(Debug, Drop)]
pub struct EntityDef {
    pub dataset: Text,
    /// Whether an id is drawn when an instance begins.
    pub draws_id: bool,
}
