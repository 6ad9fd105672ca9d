// The device is opened: it gets a number and a server, no questionnaire is open, no lock is held and no send in flight,
// and this counts as a tick.
ghost use Rattle.std.specs.Prelude.{◌≡◌, ◌<◌, ◌^◌, IfOk};
ghost use Rattle.device_state.specs.State.{plain};
ghost use Rattle.device_rules.specs.Opened.{is_opening, is_server, opened, opened_as};
ghost use Rattle.device_rules.specs.Prepared.{Makes};

use crate::answer::Answer;
use crate::limits::is_short;
use crate::prepared::{Parts, not_full};
use crate::refused::Refused;
use device_state::{Changes, Counters, EntryChange, FlightChange, LockChange, State};
use entry_form::Opening;
use field_ids::Draws;
use field_rows::Rows;
use field_text::{NoMemory, Text};
use std::alloc::Global;
use wire_laws::server_base;

const MOST_DEVICES: u64 = 1 << 48;

fn is_server(alloc: Global, server: &Text) -> Result<bool, NoMemory>
    ensures { IfOk result (λ is. is ≡ is_server server.now) }
{
    if !is_short(server) {
        return Ok(false);
    }
    match server_base(alloc, server)? {
        Some(_) => Ok(true),
        None => Ok(false),
    }
}

/// Whether a device can be opened so: its number is below 2^48, and the server is a text of at most 4,096 bytes that
/// `read_base` reads.
pub fn is_opening(alloc: Global, opening: &Opening) -> Result<bool, NoMemory>
    ensures { IfOk result (λ is. is ≡ is_opening opening.now) }
{
    if opening.device >= MOST_DEVICES {
        return Ok(false);
    }
    is_server(alloc, &opening.server)
}

// A tick of the device with this number.
fn opened_as(device: u64, counters: Counters) -> Counters
    requires device { device < 2 ^ 48 }
    requires position { counters.position < 2 ^ 62 }
    ensures { result ≡ opened_as device counters }
{
    Counters {
        draws: Draws {
            device,
            next: counters.draws.next,
        },
        ..counters.ticked()
    }
}

pub(crate) fn opened(alloc: Global, state: &State, opening: &Opening) -> Result<Parts, Refused>
    ensures { Makes (plain state.now) result (opened (plain state.now) opening.now) }
{
    if !is_opening(alloc, opening)? {
        return Err(Refused::BadValue);
    }
    not_full(state)?;
    let server = opening.server.copy(alloc)?;
    Ok(Parts {
        changes: Changes {
            server: Some(server),
            entry: EntryChange::Close,
            locks: LockChange::FreeAll,
            flights: FlightChange::All(Rows::make(alloc)),
            ..Changes::counted(opened_as(opening.device, state.counters))
        },
        answer: Answer::Done,
    })
}
