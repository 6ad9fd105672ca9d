// A hand takes the lock of the instances for a round of sending.
ghost use Rattle.std.specs.Prelude.{◌≡◌, ◌<◌, ◌^◌};
ghost use Rattle.device_state.specs.State.{plain};
ghost use Rattle.device_rules.specs.Prepared.{Makes};
ghost use Rattle.device_rules.specs.TakeLock.{held_next, take_instances, take_lock};

use crate::answer::Answer;
use crate::holders::free;
use crate::not_built::not_built;
use crate::prepared::{Parts, not_full};
use crate::refused::Refused;
use change_locks::Held;
use device_state::{Changes, LockChange, State};
use entry_form::{Hand, Lock, Round};

// Held by the hand since the next entry.
fn held_next(state: &State, hand: Hand) -> Held
    requires { state.now.counters.position < 2 ^ 62 }
    ensures { result ≡ held_next (plain state.now) hand }
{
    Held {
        hand,
        since: state.counters.position + 1,
    }
}

fn take_instances(state: &State, hand: Hand) -> Result<Parts, Refused>
    ensures { Makes (plain state.now) result (take_instances (plain state.now) hand) }
{
    free(state.locks.holder(Lock::Instances))?;
    not_full(state)?;
    Ok(Parts {
        changes: Changes {
            locks: LockChange::Take {
                lock: Lock::Instances,
                held: held_next(state, hand),
            },
            ..Changes::counted(state.counters.one_further())
        },
        answer: Answer::Done,
    })
}

pub(crate) fn take_lock(state: &State, hand: Hand, round: Round) -> Result<Parts, Refused>
    ensures { Makes (plain state.now) result (take_lock (plain state.now) hand round) }
{
    match round {
        Round::Forms | Round::Lists => not_built(state),
        Round::Send => take_instances(state, hand),
    }
}
