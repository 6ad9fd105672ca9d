use rosa_doc::DocRefused;
use std::alloc::{AllocError, AllocFailed};

/// A child element that an entry needs.
#[derive(Clone, Copy, Debug, PartialEq, Eq)]
pub enum Child {
    FormId,
    Hash,
    DownloadUrl,
    Filename,
}

/// Why bytes are no form list, or no manifest. Entries are counted from 1.
#[derive(Clone, Copy, Debug, PartialEq, Eq)]
pub enum ListRefused {
    /// They are no document.
    Doc(DocRefused),
    /// The root element has another name.
    WrongRoot,
    /// The entry lacks this child, or it is empty.
    Missing { entry: u64, child: Child },
    /// The entry's hash isn't `md5:` and 32 hexadecimal digits.
    BadHash { entry: u64 },
    /// There are so many entries, more than are read.
    TooMany { count: u64 },
    NoMemory,
}

impl From<field_text::NoMemory> for ListRefused {
    ghost use Rattle.std.specs.Prelude.{◌≡◌};
    ghost use Rattle.form_list.specs.declared.refusal.ListRefused.TheVariants.{NoMemory};

    ghost from_gives = { λ _ e. e ≡ NoMemory };

    fn from(_: field_text::NoMemory) -> ListRefused {
        ListRefused::NoMemory
    }
}

impl From<AllocError> for ListRefused {
    ghost use Rattle.std.specs.Prelude.{◌≡◌};
    ghost use Rattle.form_list.specs.declared.refusal.ListRefused.TheVariants.{NoMemory};

    ghost from_gives = { λ _ e. e ≡ NoMemory };

    fn from(_: AllocError) -> ListRefused {
        ListRefused::NoMemory
    }
}

impl<T: Drop> From<AllocFailed<T>> for ListRefused {
    ghost use Rattle.std.specs.Prelude.{◌≡◌};
    ghost use Rattle.form_list.specs.declared.refusal.ListRefused.TheVariants.{NoMemory};

    ghost from_gives = { λ _ e. e ≡ NoMemory };

    fn from(_: AllocFailed<T>) -> ListRefused {
        ListRefused::NoMemory
    }
}
