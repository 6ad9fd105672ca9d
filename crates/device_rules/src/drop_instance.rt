// An instance is thrown away, and the savepoints that stand on it. No other hand may hold the instances, and no send of
// it may be in flight.
ghost use Rattle.std.specs.Prelude.{◌≡◌};
ghost use Rattle.device_state.specs.State.{plain};
ghost use Rattle.device_rules.specs.DropInstance.{drop_instance, stands_on};
ghost use Rattle.device_rules.specs.Prepared.{Makes};

use crate::answer::Answer;
use crate::holders::free_for;
use crate::prepared::{Parts, not_full};
use crate::refused::Refused;
use crate::start::instance_of;
use device_state::{Changes, InstanceChange, OpenEntry, SavepointChange, State, has_flight};
use entry_form::{Hand, Lock};
use savepoints::KeyBase;

// Whether the open questionnaire stands on the instance with this number.
pub(crate) fn stands_on(entry: &Option<OpenEntry>, number: u64) -> bool
    ensures { result ≡ stands_on number entry.now }
{
    let Some(entry) = entry else {
        return false;
    };
    match entry.base {
        KeyBase::Blank => false,
        KeyBase::Draft(base) | KeyBase::Edit(base) => base == number,
    }
}

pub(crate) fn drop_instance(state: &State, hand: Hand, number: u64) -> Result<Parts, Refused>
    ensures { Makes (plain state.now) result (drop_instance (plain state.now) hand number) }
{
    free_for(state.locks.holder(Lock::Instances), hand)?;
    if instance_of(state, number).is_none() {
        return Err(Refused::NoInstance);
    }
    if stands_on(&state.entry, number) {
        return Err(Refused::InUse { number });
    }
    not_full(state)?;
    if has_flight(state.flights.as_slice(), number) {
        return Err(Refused::InFlight { number });
    }
    Ok(Parts {
        changes: Changes {
            instances: InstanceChange::Remove(number),
            savepoints: SavepointChange::RemoveOn(number),
            ..Changes::counted(state.counters.one_further())
        },
        answer: Answer::Done,
    })
}
