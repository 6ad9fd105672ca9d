use std::alloc::{AllocError, AllocFailed};

/// Why an instance has no document.
#[derive(Clone, Copy, Debug, PartialEq, Eq)]
pub enum DocFault {
    /// Its document has so many bytes, more than it may have.
    TooLong { length: u64 },
    NoMemory,
}

impl From<field_text::NoMemory> for DocFault {
    ghost use Rattle.std.specs.Prelude.{◌≡◌};
    ghost use Rattle.instance_doc.specs.declared.fault.DocFault.TheVariants.{NoMemory};

    ghost from_gives = { λ _ fault. fault ≡ NoMemory };

    fn from(_: field_text::NoMemory) -> DocFault {
        DocFault::NoMemory
    }
}

impl From<AllocError> for DocFault {
    ghost use Rattle.std.specs.Prelude.{◌≡◌};
    ghost use Rattle.instance_doc.specs.declared.fault.DocFault.TheVariants.{NoMemory};

    ghost from_gives = { λ _ fault. fault ≡ NoMemory };

    fn from(_: AllocError) -> DocFault {
        DocFault::NoMemory
    }
}

impl<T: Drop> From<AllocFailed<T>> for DocFault {
    ghost use Rattle.std.specs.Prelude.{◌≡◌};
    ghost use Rattle.instance_doc.specs.declared.fault.DocFault.TheVariants.{NoMemory};

    ghost from_gives = { λ _ fault. fault ≡ NoMemory };

    fn from(_: AllocFailed<T>) -> DocFault {
        DocFault::NoMemory
    }
}
