// A hand begins to send an instance that is due for it.
ghost use Rattle.std.specs.Prelude.{◌≡◌, false};
ghost use Rattle.std.specs.Option.{option_map_or};
ghost use Rattle.device_state.specs.State.{plain};
ghost use Rattle.device_rules.specs.Prepared.{Makes};
ghost use Rattle.device_rules.specs.SendBegun.{is_early, send_begun};
ghost use Rattle.device_rules.specs.Start.{instance_of};

use crate::answer::Answer;
use crate::dues::{is_due, is_queued};
use crate::holders::held_by;
use crate::prepared::{Parts, not_full};
use crate::refused::Refused;
use crate::start::instance_of;
use device_state::{Changes, Flight, FlightChange, InstanceChange, State};
use entry_form::{Hand, Lock};

// Whether the instance with this number waits to be sent, and isn't due for this hand.
fn is_early(state: &State, hand: Hand, number: u64) -> bool
    ensures { result ≡ option_map_or (is_early (plain state.now) hand) (instance_of (plain state.now) number) false }
{
    match instance_of(state, number) {
        Some(instance) => is_queued(instance) && !is_due(state, hand, instance),
        None => false,
    }
}

pub(crate) fn send_begun(state: &State, hand: Hand, number: u64) -> Result<Parts, Refused>
    ensures { Makes (plain state.now) result (send_begun (plain state.now) hand number) }
{
    held_by(state.locks.holder(Lock::Instances), hand)?;
    if is_early(state, hand, number) {
        return Err(Refused::NothingDue);
    }
    let Some(instance) = instance_of(state, number) else {
        return Err(Refused::NoInstance);
    };
    if !is_queued(instance) {
        return Err(Refused::WrongStatus {
            status: instance.status,
        });
    }
    not_full(state)?;
    Ok(Parts {
        changes: Changes {
            instances: InstanceChange::SetTried {
                number,
                position: state.counters.position + 1,
            },
            flights: FlightChange::Begin(Flight { hand, number }),
            ..Changes::counted(state.counters.one_further())
        },
        answer: Answer::Done,
    })
}
