ghost use Rattle.std.specs.Prelude.{◌≡◌};
ghost use Rattle.form_read.specs.declared.refusal.FormRefused.TheVariants.{NoMemory};

use field_text::Text;
use rosa_doc::DocRefused;
use std::alloc::{AllocError, AllocFailed};

/// Why bytes describe no form. Names and paths are as they are written; places are in bytes, from 0.
#[derive(Debug, Drop)]
pub enum FormRefused {
    /// They are no document.
    Doc(DocRefused),
    /// The head, its model, the model's first instance, an element in it, or the body is missing.
    NoPrimary,
    /// The primary instance's root has no `id`, or an empty one.
    NoId,
    /// An attribute of the field's bind, or the nodeset of its itemset, stops being an expression.
    BadExpr { path: Text, at: u64 },
    /// No field has the path, it isn't one that may stand there, or two fields have it.
    UnknownPath { path: Text },
    /// An element that isn't known there, or a second control of a field.
    UnknownControl { name: Text },
    /// The field's control can't ask for its type.
    UnknownType { path: Text },
    /// Of the fields that depend on themselves, the one that the document has first.
    Cycle { path: Text },
    /// A table that isn't declared, or one with another source than an entity list.
    UnknownList { name: Text },
    TooManyFields { count: u64 },
    /// A second entity, or one without a dataset.
    BadEntity { path: Text },
    NoMemory,
}

impl From<field_text::NoMemory> for FormRefused {
    ghost from_gives = { λ _ refusal. refusal ≡ NoMemory };

    fn from(_: field_text::NoMemory) -> FormRefused {
        FormRefused::NoMemory
    }
}

impl From<AllocError> for FormRefused {
    ghost from_gives = { λ _ refusal. refusal ≡ NoMemory };

    fn from(_: AllocError) -> FormRefused {
        FormRefused::NoMemory
    }
}

impl<T: Drop> From<AllocFailed<T>> for FormRefused {
    ghost from_gives = { λ _ refusal. refusal ≡ NoMemory };

    fn from(_: AllocFailed<T>) -> FormRefused {
        FormRefused::NoMemory
    }
}
