ghost use Rattle.std.specs.Prelude.{◌≡◌};
ghost use Rattle.device_journal.specs.declared.fault.OpenFault.TheVariants.{DiskFault as Failing, NoMemory as Starved};

use field_io::Failed;
use std::alloc::{AllocError, AllocFailed};
use thiserror::Error;

/// Why a device's journal wasn't opened.
#[derive(Clone, Copy, Debug, PartialEq, Eq, Error)]
pub enum OpenFault {
    /// A call of the disk failed.
    #[error("the disk failed")]
    DiskFault,
    /// The image is off the journal's grammar at this place.
    #[error("the journal is off at {at}")]
    BadJournal { at: u64 },
    /// The entry at this position is off its spelling.
    #[error("entry {position} is off its spelling")]
    BadEntry { position: u64 },
    /// The rules refuse the entry at this position.
    #[error("entry {position} is refused")]
    IllegalEntry { position: u64 },
    /// The opening's own entry doesn't fit behind this many bytes.
    #[error("the journal is full at {length}")]
    Full { length: u64 },
    #[error("no memory")]
    NoMemory,
}

impl From<Failed> for OpenFault {
    ghost from_gives = { λ _ e. e ≡ Failing };

    fn from(_: Failed) -> OpenFault {
        OpenFault::DiskFault
    }
}

impl From<field_text::NoMemory> for OpenFault {
    ghost from_gives = { λ _ e. e ≡ Starved };

    fn from(_: field_text::NoMemory) -> OpenFault {
        OpenFault::NoMemory
    }
}

impl From<AllocError> for OpenFault {
    ghost from_gives = { λ _ e. e ≡ Starved };

    fn from(_: AllocError) -> OpenFault {
        OpenFault::NoMemory
    }
}

impl<T: Drop> From<AllocFailed<T>> for OpenFault {
    ghost from_gives = { λ _ e. e ≡ Starved };

    fn from(_: AllocFailed<T>) -> OpenFault {
        OpenFault::NoMemory
    }
}

/// Why a payload wasn't appended.
#[derive(Clone, Copy, Debug, PartialEq, Eq, Error)]
pub enum AppendFault {
    /// An earlier append met a fault of the disk; the disk's count of faults then.
    #[error("the journal failed earlier")]
    Failed { faults: u64 },
    /// The frame doesn't fit behind this many bytes.
    #[error("the journal is full at {length}")]
    Full { length: u64 },
    /// A call of the disk failed.
    #[error("the disk failed")]
    DiskFault,
}
