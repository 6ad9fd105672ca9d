ghost use Rattle.std.specs.Prelude.{◌≡◌, ◌<◌, ◌^◌, OnOk};
ghost use Rattle.field_text.specs.Steps.{Gives};
ghost use Rattle.device_state.specs.State.{plain};
ghost use Rattle.device_rules.specs.Limits.{most_entries};
ghost use Rattle.device_rules.specs.Prepared.{entry_of};
ghost use Rattle.device_rules.specs.Refused.{rule_of};
ghost use Rattle.device_rules.specs.Tests.{not_full};

use crate::answer::Answer;
use crate::refused::{Refused, Which};
use device_state::{Changes, State};
use entry_form::Entry;

pub(crate) const MOST_ENTRIES: u64 = 1 << 62;

// The refusal of every entry where the device has all that it can hold.
pub(crate) const FULL: Refused = Refused::Limit {
    which: Which::Counters,
    number: MOST_ENTRIES,
};

// Refuses where the device has all the entries that it can hold.
pub(crate) fn not_full(state: &State) -> Result<(), Refused>
    ensures full { Gives rule_of (λ u. u) result (not_full (plain state.now)) }
    ensures room { OnOk result (state.now.counters.position < 2 ^ 62) }
{
    if state.counters.position >= MOST_ENTRIES {
        return Err(FULL);
    }
    Ok(())
}

/// What a step changes in the state, and its answer.
#[derive(Debug, Drop)]
pub(crate) struct Parts {
    pub changes: Changes,
    pub answer: Answer,
}

/// A step that the rules allow from the state for which it was prepared, with all the memory that it takes.
#[derive(Debug, Drop)]
pub struct Prepared {
    entry: Entry,
    parts: Parts,
}

impl Prepared {
    pub(crate) fn new(entry: Entry, parts: Parts) -> Prepared
        ensures { result ≡ record { entry = entry; parts = parts } }
    {
        Prepared { entry, parts }
    }

    pub fn entry(&self) -> &Entry
        ensures { result.now ≡ entry_of self.now }
    {
        &self.entry
    }

    /// The entry of a step that isn't made.
    pub fn into_entry(self) -> Entry
        ensures { result ≡ entry_of self }
    {
        let Prepared { entry, parts: _ } = self;
        entry
    }

    /// Gives up a step that isn't made.
    pub fn discard(self) {}

    pub(crate) fn into_parts(self) -> (Entry, Parts)
        ensures entry { result.0 ≡ self.entry }
        ensures parts { result.1 ≡ self.parts }
    {
        let Prepared { entry, parts } = self;
        (entry, parts)
    }
}
