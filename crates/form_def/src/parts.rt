ghost use Rattle.std.specs.Prelude.{◌≡◌};

use crate::field::{EntityDef, Field, InnerTable, OuterTable};
use field_text::{Items, Text};

/// What a form is made of, before it is tested.
#[derive(Debug, Drop)]
pub struct FormParts {
    pub id: Text,
    pub version: Text,
    pub root: Text,
    pub fields: Items<Field>,
    pub inner: Items<InnerTable>,
    pub outer: Items<OuterTable>,
    pub entity: Option<EntityDef>,
    pub auto_send: Option<bool>,
    /// The numbers of all fields, each once, each behind those that its field depends on.
    pub order: Items<u64>,
}

/// Why parts are no form.
#[derive(Clone, Copy, Debug, PartialEq, Eq)]
pub enum FormFault {
    /// The root's name is no local name.
    BadRoot,
    /// A path isn't the root's name and further names.
    BadPath,
    /// Two fields have one path.
    SamePath,
    /// An expression reads a field that the form lacks.
    OutOfRange,
    /// The order lacks a field, has one twice, or one before a field that it depends on.
    BadOrder,
    NoMemory,
}

impl From<field_text::NoMemory> for FormFault {
    ghost use Rattle.form_def.specs.declared.parts.FormFault.TheVariants.{NoMemory};

    ghost from_gives = { λ _ fault. fault ≡ NoMemory };

    fn from(_: field_text::NoMemory) -> FormFault {
        FormFault::NoMemory
    }
}
