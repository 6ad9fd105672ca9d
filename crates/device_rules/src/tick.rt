// What waits to be sent or updated may be tried again.
ghost use Rattle.device_state.specs.State.{plain};
ghost use Rattle.device_rules.specs.Prepared.{Makes};
ghost use Rattle.device_rules.specs.Tick.{tick};

use crate::answer::Answer;
use crate::prepared::{Parts, not_full};
use crate::refused::Refused;
use device_state::{Changes, State};

pub(crate) fn tick(state: &State) -> Result<Parts, Refused>
    ensures { Makes (plain state.now) result (tick (plain state.now)) }
{
    not_full(state)?;
    Ok(Parts {
        changes: Changes::counted(state.counters.ticked()),
        answer: Answer::Done,
    })
}
