use crate::Scope;
use field_text::{Items, Text};
use form_def::{Choices, Expr, InnerTable, Kind, OuterTable};
use form_outline::PrimaryPart;

/// What the bind of a field says.
#[derive(Debug, Drop)]
pub struct Bound {
    pub relevant: Option<Expr>,
    pub constraint: Option<Expr>,
    pub required: Option<Expr>,
    pub readonly: Option<Expr>,
    pub calculate: Option<Expr>,
    pub saveto: Option<Text>,
}

/// What the control of a field says.
#[derive(Debug, Drop)]
pub struct Asked {
    pub kind: Kind,
    pub choices: Choices,
}

/// What a select offers, as far as its parts were read.
#[derive(Debug, Drop)]
pub struct Offer {
    pub values: Items<Text>,
    /// The rows of its itemset.
    pub rows: Option<Choices>,
}

/// A form as far as its parts were read.
#[derive(Debug, Drop)]
pub struct Draft {
    /// What the bind of each field says, by its number.
    pub bounds: Items<Option<Bound>>,
    /// What the control of each field says, by its number.
    pub asked: Items<Option<Asked>>,
    pub inner: Items<InnerTable>,
    pub outer: Items<OuterTable>,
    pub draws_id: bool,
}

/// A form whose parts were read, in all that its document says.
#[derive(Debug, Drop)]
pub struct Drafted {
    pub id: Text,
    pub version: Text,
    pub primary: Items<PrimaryPart>,
    pub scope: Scope,
    pub draft: Draft,
}
