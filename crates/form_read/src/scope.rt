use field_text::{Items, Text};
use form_outline::{ModelPart, PrimaryField};

/// What the parts of a form may name.
#[derive(Debug, Drop)]
pub struct Scope {
    /// The local name of the primary instance's root.
    pub root: Text,
    /// The fields by number.
    pub slots: Items<PrimaryField>,
    pub model: Items<ModelPart>,
}
