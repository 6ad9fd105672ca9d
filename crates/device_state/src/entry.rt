// The questionnaire that is being filled in.
ghost use Rattle.std.specs.Prelude.{◌≡◌, IfOk};
ghost use Rattle.device_state.specs.Entries.{key_of};

use field_text::NoMemory;
use kept_forms::KeptForm;
use question_rules::Sheet;
use savepoints::{Key, KeyBase};
use std::alloc::Global;

/// A questionnaire that is being filled in.
#[derive(Debug, Drop)]
pub struct OpenEntry {
    /// What it began with.
    pub base: KeyBase,
    pub form: KeptForm,
    pub sheet: Sheet,
}

impl OpenEntry {
    /// Gives up a questionnaire that isn't filled in.
    pub fn discard(self) {}

    /// The key of the entry's savepoint.
    pub fn key(&self, alloc: Global) -> Result<Key, NoMemory>
        ensures { IfOk result (λ key. key ≡ key_of self.now) }
    {
        Ok(Key {
            form: self.form.id().copy(alloc)?,
            version: self.form.version().copy(alloc)?,
            base: self.base,
        })
    }
}
