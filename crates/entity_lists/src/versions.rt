ghost use Rattle.std.specs.Prelude.{◌≡◌, ◌+◌, false};
ghost use Rattle.entity_lists.specs.Versions.{IsVersion, is_last, version_of};

use std::marker::Model;

/// The greatest version of an entity.
/// The last version of an entity.
pub const VERSION_LIMIT: u64 = 1_000_000_000_000_000;

/// A version of an entity, from 1 to a greatest one, which contracts see as its number.
#[derive(Clone, Copy, Debug, PartialEq, Eq)]
pub struct Version {
    number: u64,
}

impl Model for Version {
    ghost use Rattle.std.specs.Prelude.{ℕ};
    ghost use Rattle.entity_lists.specs.Versions.{IsVersion};

    ghost Value = { ℕ };

    ghost view = { λ v. v.number };

    ghost invariant = { λ v. IsVersion v.number };

    ghost inverse = { λ n. record { number = n } };
}

impl Version {
    /// The version of an entity that was just made.
    pub fn first() -> Version
        ensures { result ≡ 1 }
    {
        Version { number: 1 }
    }

    /// The version of this number, if it is one.
    pub fn from_number(number: u64) -> Option<Version>
        ensures { result ≡ version_of number }
    {
        if 1 <= number && number <= VERSION_LIMIT {
            Some(Version { number })
        } else {
            None
        }
    }

    pub fn number(self) -> u64
        ensures number { result ≡ self }
        ensures within { IsVersion self }
    {
        self.number
    }

    /// Whether no version follows.
    pub fn is_last(self) -> bool
        ensures { result ≡ is_last self }
    {
        VERSION_LIMIT <= self.number
    }

    /// The version that follows.
    pub fn next(self) -> Version
        requires { is_last self ≡ false }
        ensures { result ≡ self + 1 }
    {
        Version {
            number: self.number + 1,
        }
    }
}
