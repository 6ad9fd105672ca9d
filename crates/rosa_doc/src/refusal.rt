ghost use Rattle.std.specs.Prelude.{◌≡◌};
ghost use Rattle.rosa_doc.specs.declared.refusal.DocRefused.TheVariants.{NoMemory};

use std::alloc::{AllocError, AllocFailed};

/// Why bytes are no document. Places are in bytes, from 0.
#[derive(Clone, Copy, Debug, PartialEq, Eq)]
pub enum DocRefused {
    /// `at` is how many bytes at the front are well-formed UTF-8, as many as there can be.
    NotUtf8 { at: u64 },
    /// What stands here can't.
    BadMarkup { at: u64 },
    /// The input ends before the document does.
    Unclosed { at: u64 },
    /// An element at level 17 begins here.
    TooDeep { at: u64 },
    /// The input is longer than a document may be.
    TooLong { length: u64 },
    /// A document type declaration begins here.
    HasDoctype { at: u64 },
    NoMemory,
}

impl From<AllocError> for DocRefused {
    ghost from_gives = { λ _ e. e ≡ NoMemory };

    fn from(_: AllocError) -> DocRefused {
        DocRefused::NoMemory
    }
}

impl<T: Drop> From<AllocFailed<T>> for DocRefused {
    ghost from_gives = { λ _ e. e ≡ NoMemory };

    fn from(_: AllocFailed<T>) -> DocRefused {
        DocRefused::NoMemory
    }
}

impl From<field_text::NoMemory> for DocRefused {
    ghost from_gives = { λ _ e. e ≡ NoMemory };

    fn from(_: field_text::NoMemory) -> DocRefused {
        DocRefused::NoMemory
    }
}
