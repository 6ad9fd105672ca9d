ghost use Rattle.std.specs.Prelude.{◌≡◌};
ghost use Rattle.entry_codec.specs.declared.fault.ReadFault.TheVariants.{NoMemory as Starved};

use field_text::NoMemory;

/// Why bytes begin with no entry.
#[derive(Clone, Copy, Debug, PartialEq, Eq)]
pub enum EntryRefused {
    /// No front of the bytes is a spelling; `at` is the place of the first part that none has there, or that the end
    /// cuts.
    BadSpelling { at: usize },
    NoMemory,
}

/// Why a part could not be read.
#[derive(Clone, Copy, Debug, PartialEq, Eq)]
pub enum ReadFault {
    /// It isn't one; so many bytes are left from its first one on.
    Stopped { left: usize },
    NoMemory,
}

impl From<NoMemory> for ReadFault {
    ghost from_gives = { λ _ e. e ≡ Starved };

    fn from(_: NoMemory) -> ReadFault {
        ReadFault::NoMemory
    }
}
