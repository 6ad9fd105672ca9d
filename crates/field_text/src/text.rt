ghost use Rattle.std.specs.Prelude.{◌≡◌, ◌↔◌, ℕ, IfOk, IsTrue, IsErrOf, string_bytes};
ghost use Rattle.std.specs.Str.{IsUtf8, IsValidUpTo};

use std::alloc::{AllocError, AllocFailed, Global};
use std::marker::Model;

/// Memory ran out, and nothing else happened.
#[derive(Clone, Copy, Debug, PartialEq, Eq)]
pub struct NoMemory;

impl From<AllocError> for NoMemory {
    fn from(_: AllocError) -> NoMemory {
        NoMemory
    }
}

impl<T: Drop> From<AllocFailed<T>> for NoMemory {
    fn from(_: AllocFailed<T>) -> NoMemory {
        NoMemory
    }
}

/// Why bytes are no text.
#[derive(Clone, Copy, Debug, PartialEq, Eq)]
pub enum TextRefused {
    /// The bytes aren't UTF-8; `at` is the length of their longest prefix that is.
    NotUtf8 { at: usize },
    NoMemory,
}

/// A text: bytes that are UTF-8 (RFC 3629), which contracts see as the list of these bytes.
#[derive(Debug, Drop)]
pub struct Text {
    inner: String,
}

impl Model for Text {
    ghost use Rattle.std.specs.Prelude.{List, ℕ, string_bytes};

    ghost Value = { List ℕ };

    ghost view = { λ t. string_bytes t.inner };
}

impl Text {
    /// The text of these bytes.
    pub fn from_bytes(alloc: Global, bytes: &[u8]) -> Result<Text, TextRefused>
        ensures text { IfOk result (λ text. text ≡ bytes.now) }
        ensures utf8 { IfOk result (λ _. IsUtf8 bytes.now) }
        ensures not_utf8 { (at : ℕ) → IsErrOf result (TextRefused.NotUtf8 at) → IsValidUpTo bytes.now at }
    {
        match std::str::from_utf8(bytes) {
            Ok(text) => match String::from_str(alloc, text) {
                Ok(inner) => Ok(Text { inner }),
                Err(_) => Err(TextRefused::NoMemory),
            },
            Err(error) => Err(TextRefused::NotUtf8 {
                at: error.valid_up_to(),
            }),
        }
    }

    /// The text of a `String`, which it keeps.
    pub fn from_string(inner: String) -> Text
        ensures { result ≡ string_bytes inner }
    {
        Text { inner }
    }

    pub fn bytes(&self) -> &[u8]
        ensures value { result.now ≡ self.now }
        ensures utf8 { IsUtf8 self.now }
    {
        self.inner.as_str().as_bytes()
    }

    pub fn as_str(&self) -> &str
        ensures { result.now ≡ self.now }
    {
        self.inner.as_str()
    }

    /// Whether the two texts have the same bytes.
    pub fn same(&self, other: &Text) -> bool
        ensures { IsTrue result ↔ (self.now ≡ other.now) }
    {
        self.inner.as_bytes() == other.inner.as_bytes()
    }

    pub fn copy(&self, alloc: Global) -> Result<Text, NoMemory>
        ensures { IfOk result (λ text. text ≡ self.now) }
    {
        Ok(Text {
            inner: String::from_str(alloc, self.inner.as_str())?,
        })
    }
}
