// A hand has ended a send that it began.
ghost use Rattle.std.specs.Prelude.{◌≡◌};
ghost use Rattle.std.specs.List.{list_any};
ghost use Rattle.device_state.specs.Flights.{is_flight};
ghost use Rattle.device_state.specs.State.{plain};
ghost use Rattle.device_rules.specs.Prepared.{Makes};
ghost use Rattle.device_rules.specs.SendEnded.{is_taken, send_ended, status_after};

use crate::answer::Answer;
use crate::prepared::{Parts, not_full};
use crate::refused::Refused;
use device_state::{Changes, Flight, FlightChange, InstanceChange, State};
use entry_form::{Hand, Outcome};
use instance_store::Status;
use wire_laws::accepts;

// Whether a reply came that accepts what was sent.
fn is_taken(outcome: &Outcome) -> bool
    ensures { result ≡ is_taken outcome.now }
{
    match outcome {
        Outcome::Reply(bytes) => accepts(bytes.bytes()),
        Outcome::Fault(_) => false,
    }
}

fn status_after(taken: bool) -> Status
    ensures { result ≡ status_after taken }
{
    if taken {
        Status::Sent
    } else {
        Status::SendFailed
    }
}

fn is_flown(flights: &[Flight], hand: Hand, number: u64) -> bool
    ensures { result ≡ list_any (is_flight hand number) flights.now }
{
    flights.iter().any(|flight| flight.is_flight(hand, number))
}

pub(crate) fn send_ended(
    state: &State,
    hand: Hand,
    number: u64,
    outcome: &Outcome,
) -> Result<Parts, Refused>
    ensures { Makes (plain state.now) result (send_ended (plain state.now) hand number outcome.now) }
{
    not_full(state)?;
    if !is_flown(state.flights.as_slice(), hand, number) {
        return Err(Refused::NotInFlight);
    }
    let taken = is_taken(outcome);
    Ok(Parts {
        changes: Changes {
            instances: InstanceChange::SetStatus {
                number,
                status: status_after(taken),
            },
            flights: FlightChange::End(Flight { hand, number }),
            ..Changes::counted(state.counters.one_further())
        },
        answer: Answer::Number(taken as u64),
    })
}
