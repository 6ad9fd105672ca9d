// The open questionnaire is closed without being kept, and its savepoint is gone.
ghost use Rattle.device_state.specs.State.{plain};
ghost use Rattle.device_rules.specs.Leave.{leave};
ghost use Rattle.device_rules.specs.Prepared.{Makes};

use crate::answer::Answer;
use crate::prepared::{Parts, not_full};
use crate::refused::Refused;
use device_state::{Changes, EntryChange, SavepointChange, State};
use std::alloc::Global;

pub(crate) fn leave(alloc: Global, state: &State) -> Result<Parts, Refused>
    ensures { Makes (plain state.now) result (leave (plain state.now)) }
{
    let Some(entry) = &state.entry else {
        return Err(Refused::NoEntry);
    };
    not_full(state)?;
    let key = entry.key(alloc)?;
    Ok(Parts {
        changes: Changes {
            savepoints: SavepointChange::Remove(key),
            entry: EntryChange::Close,
            ..Changes::counted(state.counters.one_further())
        },
        answer: Answer::Done,
    })
}
