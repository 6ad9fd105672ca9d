ghost use Rattle.std.specs.Prelude.{◌≡◌, Ok, IfOk, IfErr};
ghost use Rattle.device_state.specs.State.{HasRoom, plain};
ghost use Rattle.device_rules.specs.Prepared.{Makes, Prepares, entry_of};
ghost use Rattle.device_rules.specs.Step.{IsRefused, commanded, obeyed, step};

use crate::answer::Answer;
use crate::auto_send::auto_send;
use crate::drop_form::drop_form;
use crate::drop_instance::drop_instance;
use crate::fill::fill;
use crate::finalize::finalize;
use crate::finalize_all::finalize_all;
use crate::leave::leave;
use crate::limits::is_within_limits;
use crate::load::load;
use crate::not_built::not_built;
use crate::opened::opened;
use crate::prepared::{Parts, Prepared};
use crate::refused::Refused;
use crate::release::release;
use crate::save_draft::save_draft;
use crate::send_begun::send_begun;
use crate::send_ended::send_ended;
use crate::start::start;
use crate::take_lock::take_lock;
use crate::tick::tick;
use crate::update_mode::update_mode;
use device_state::State;
use entry_form::{Command, Entry, Hand, Opening};
use std::alloc::Global;

/// The step that opens the device, or the first refusal that applies. With `State::reserve`, which takes the room that
/// the lists of the state may need, it takes all memory of the step.
pub fn begin(alloc: Global, state: &State, opening: Opening) -> Result<Prepared, Refused>
    ensures prepared { IfOk result (Prepares (plain state.now) (Entry.Opened opening)) }
    ensures refused { IfErr result (IsRefused (plain state.now) (Entry.Opened opening)) }
{
    let parts = opened(alloc, state, &opening)?;
    Ok(Prepared::new(Entry::Opened(opening), parts))
}

// What a hand's command whose values are within their limits changes.
fn obeyed(alloc: Global, state: &State, hand: Hand, command: &Command) -> Result<Parts, Refused>
    ensures { Makes (plain state.now) result (obeyed (plain state.now) hand command.now) }
{
    match command {
        Command::AutoSend(on) => auto_send(state, *on),
        Command::UpdateMode(mode) => update_mode(state, *mode),
        Command::TakeLock(round) => take_lock(state, hand, *round),
        Command::Release(lock) => release(state, hand, *lock),
        Command::Load(bytes) => load(alloc, state, hand, bytes),
        Command::DropForm(id) => drop_form(alloc, state, hand, id),
        Command::Start { base, how } => start(alloc, state, base, *how),
        Command::Fill { path, value } => fill(alloc, state, path, value),
        Command::SaveDraft => save_draft(alloc, state),
        Command::Finalize => finalize(alloc, state),
        Command::FinalizeAll => finalize_all(alloc, state, hand),
        Command::Leave => leave(alloc, state),
        Command::DropInstance(number) => drop_instance(state, hand, *number),
        Command::SendBegun { number, .. } => send_begun(state, hand, *number),
        Command::SendEnded { number, outcome } => send_ended(state, hand, *number, outcome),
        Command::Tick => tick(state),
        Command::Ask(_) | Command::Fetched { .. } | Command::RoundDone => not_built(state),
    }
}

fn commanded(alloc: Global, state: &State, hand: Hand, command: &Command) -> Result<Parts, Refused>
    ensures { Makes (plain state.now) result (commanded (plain state.now) hand command.now) }
{
    if !is_within_limits(command) {
        return Err(Refused::BadValue);
    }
    obeyed(alloc, state, hand, command)
}

/// The step of a hand's command, or the first refusal that applies. With `State::reserve`, which takes the room that
/// the lists of the state may need, it takes all memory of the step.
pub fn decide(
    alloc: Global,
    state: &State,
    hand: Hand,
    command: Command,
) -> Result<Prepared, Refused>
    ensures prepared { IfOk result (Prepares (plain state.now) (Entry.Done hand command)) }
    ensures refused { IfErr result (IsRefused (plain state.now) (Entry.Done hand command)) }
{
    let parts = commanded(alloc, state, hand, &command)?;
    Ok(Prepared::new(Entry::Done { hand, command }, parts))
}

/// Makes a step that was prepared for this state. It takes no memory and can't be refused.
pub fn apply(state: &mut State, prepared: Prepared) -> (Entry, Answer)
    requires room { HasRoom state.old }
    requires prepared { Prepares (plain state.old) (entry_of prepared) prepared }
    ensures entry { result.0 ≡ entry_of prepared }
    ensures stepped { step (plain state.old) (entry_of prepared) ≡ Ok (plain state.new, result.1) }
{
    let (entry, parts) = prepared.into_parts();
    let Parts { changes, answer } = parts;
    state.change(changes);
    (entry, answer)
}
