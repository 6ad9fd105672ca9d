ghost use Rattle.std.specs.Prelude.{◌≡◌};
ghost use Rattle.savepoints.specs.Keys.{same_base, same_key};

use field_text::Text;

/// What an entry begins with.
#[derive(Clone, Copy, Debug, PartialEq, Eq)]
pub enum KeyBase {
    /// The form's own first values.
    Blank,
    /// The draft with this number.
    Draft(u64),
    /// The finalized instance with this number.
    Edit(u64),
}

/// What an entry is known by.
#[derive(Debug, Drop)]
pub struct Key {
    pub form: Text,
    pub version: Text,
    pub base: KeyBase,
}

fn same_base(base: KeyBase, other: KeyBase) -> bool
    ensures { result ≡ same_base base other }
{
    match (base, other) {
        (KeyBase::Blank, KeyBase::Blank) => true,
        (KeyBase::Draft(number), KeyBase::Draft(other)) => number == other,
        (KeyBase::Edit(number), KeyBase::Edit(other)) => number == other,
        _ => false,
    }
}

pub(crate) fn same_key(key: &Key, other: &Key) -> bool
    ensures { result ≡ same_key key.now other.now }
{
    key.form.bytes() == other.form.bytes()
        && key.version.bytes() == other.version.bytes()
        && same_base(key.base, other.base)
}
