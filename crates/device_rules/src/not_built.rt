// A command that this device doesn't know yet. It is always refused.
ghost use Rattle.device_state.specs.State.{plain};
ghost use Rattle.device_rules.specs.NotBuilt.{not_built};
ghost use Rattle.device_rules.specs.Prepared.{Makes};

use crate::prepared::{Parts, not_full};
use crate::refused::Refused;
use device_state::State;

pub(crate) fn not_built(state: &State) -> Result<Parts, Refused>
    ensures { Makes (plain state.now) result (not_built (plain state.now)) }
{
    not_full(state)?;
    Err(Refused::NotBuilt)
}
