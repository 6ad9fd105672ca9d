// A hand gives back a lock that it holds; that of the instances only once none of its sends is in flight.
ghost use Rattle.std.specs.Prelude.{◌≡◌};
ghost use Rattle.field_text.specs.Steps.{Gives};
ghost use Rattle.device_state.specs.State.{plain};
ghost use Rattle.device_rules.specs.Prepared.{Makes};
ghost use Rattle.device_rules.specs.Refused.{rule_of};
ghost use Rattle.device_rules.specs.Release.{none_in_flight, least_by, lesser, release};

use crate::answer::Answer;
use crate::holders::held_by;
use crate::prepared::{Parts, not_full};
use crate::refused::Refused;
use device_state::{Changes, Flight, LockChange, State};
use entry_form::{Hand, Lock};

fn lesser(least: Option<u64>, flight: &Flight) -> Option<u64>
    ensures { result ≡ lesser least flight.now }
{
    match least {
        Some(number) => Some(number.min(flight.number)),
        None => Some(flight.number),
    }
}

// The least number of the sends that this hand has in flight.
fn least_by(flights: &[Flight], hand: Hand) -> Option<u64>
    ensures { result ≡ least_by hand flights.now }
{
    let mut least = None;
    for flight in flights {
        if flight.is_by(hand) {
            least = lesser(least, flight);
        }
    }
    least
}

fn none_in_flight(state: &State, hand: Hand, lock: Lock) -> Result<(), Refused>
    ensures { Gives rule_of (λ u. u) result (none_in_flight (plain state.now) hand lock) }
{
    match lock {
        Lock::Forms => Ok(()),
        Lock::Instances => match least_by(state.flights.as_slice(), hand) {
            Some(number) => Err(Refused::InFlight { number }),
            None => Ok(()),
        },
    }
}

pub(crate) fn release(state: &State, hand: Hand, lock: Lock) -> Result<Parts, Refused>
    ensures { Makes (plain state.now) result (release (plain state.now) hand lock) }
{
    held_by(state.locks.holder(lock), hand)?;
    not_full(state)?;
    none_in_flight(state, hand, lock)?;
    Ok(Parts {
        changes: Changes {
            locks: LockChange::Release { lock, hand },
            ..Changes::counted(state.counters.one_further())
        },
        answer: Answer::Done,
    })
}
