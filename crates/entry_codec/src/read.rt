ghost use Rattle.std.specs.Prelude.{◌≡◌, ◌≢◌, ◌↔◌, ◌≤◌, ◌++◌, ℕ, List, length, take, Err, IfOk, IsErr};
ghost use Rattle.entry_form.specs.declared.entry.Entry.{Entry};
ghost use Rattle.entry_codec.specs.Spelling.{Fits, IsShort, spelling, IsUnspelled, IsFirstFault};
ghost use Rattle.entry_codec.specs.Reading.{Gives, number_at, blob_at, text_at, option_at, outcome_at, base_at};
ghost use Rattle.entry_codec.specs.Reading.{fetched_at, start_at, fill_at, send_begun_at, send_ended_at, command_at};
ghost use Rattle.entry_codec.specs.Reading.{opening_at, entry_at};

use crate::choice::choice_of;
use crate::fault::{EntryRefused, ReadFault};
use crate::kind::{BaseKind, CommandKind, Kind, Opener};
use entry_form::{Base, Command, Entry, Hand, Opening, Outcome};
use field_text::{Blob, Text, TextRefused};
use std::alloc::Global;

fn number_of(bytes: &[u8]) -> Result<(u64, &[u8]), ReadFault>
    ensures { Gives (λ x. (x.0, x.1.now)) result (number_at bytes.now) }
{
    if bytes.len() < 8 {
        return Err(ReadFault::Stopped { left: bytes.len() });
    }
    let (front, rest) = bytes.split_at(8);
    let number = u64::from_le_bytes([
        front[0], front[1], front[2], front[3], front[4], front[5], front[6], front[7],
    ]);
    Ok((number, rest))
}

// The bytes behind their length.
#[tactic(auto, unfolding(crate::specs::Reading::blob_at))]
fn slice_of(bytes: &[u8]) -> Result<(&[u8], &[u8]), ReadFault>
    ensures { Gives (λ x. (x.0.now, x.1.now)) result (blob_at bytes.now) }
{
    if bytes.len() < 4 {
        return Err(ReadFault::Stopped { left: bytes.len() });
    }
    let (front, rest) = bytes.split_at(4);
    let length = u32::from_le_bytes([front[0], front[1], front[2], front[3]]) as usize;
    if rest.len() < length {
        return Err(ReadFault::Stopped { left: bytes.len() });
    }
    Ok(rest.split_at(length))
}

#[tactic(auto, unfolding(crate::specs::Reading::blob_at))]
fn blob_of(alloc: Global, bytes: &[u8]) -> Result<(Blob, &[u8]), ReadFault>
    ensures { Gives (λ x. (x.0, x.1.now)) result (blob_at bytes.now) }
{
    let (blob, rest) = slice_of(bytes)?;
    Ok((Blob::from_bytes(alloc, blob)?, rest))
}

#[tactic(auto, unfolding(crate::specs::Reading::text_at))]
fn text_of(alloc: Global, bytes: &[u8]) -> Result<(Text, &[u8]), ReadFault>
    ensures { Gives (λ x. (x.0, x.1.now)) result (text_at bytes.now) }
{
    let (text, rest) = slice_of(bytes)?;
    match Text::from_bytes(alloc, text) {
        Ok(text) => Ok((text, rest)),
        Err(TextRefused::NotUtf8 { .. }) => Err(ReadFault::Stopped { left: bytes.len() }),
        Err(TextRefused::NoMemory) => Err(ReadFault::NoMemory),
    }
}

#[tactic(auto, unfolding(crate::specs::Reading::option_at, crate::specs::Reading::option_behind))]
fn option_of(alloc: Global, bytes: &[u8]) -> Result<(Option<Text>, &[u8]), ReadFault>
    ensures { Gives (λ x. (x.0, x.1.now)) result (option_at bytes.now) }
{
    let (is_there, rest) = choice_of::<bool>(bytes)?;
    if !is_there {
        return Ok((None, rest));
    }
    let (text, rest) = text_of(alloc, rest)?;
    Ok((Some(text), rest))
}

#[tactic(auto, unfolding(crate::specs::Reading::outcome_at, crate::specs::Reading::outcome_behind))]
fn outcome_of(alloc: Global, bytes: &[u8]) -> Result<(Outcome, &[u8]), ReadFault>
    ensures { Gives (λ x. (x.0, x.1.now)) result (outcome_at bytes.now) }
{
    let (failed, rest) = choice_of::<bool>(bytes)?;
    if failed {
        let (stage, rest) = choice_of(rest)?;
        return Ok((Outcome::Fault(stage), rest));
    }
    let (reply, rest) = blob_of(alloc, rest)?;
    Ok((Outcome::Reply(reply), rest))
}

#[tactic(auto, unfolding(crate::specs::Reading::base_at, crate::specs::Reading::base_behind))]
fn base_of(alloc: Global, bytes: &[u8]) -> Result<(Base, &[u8]), ReadFault>
    ensures { Gives (λ x. (x.0, x.1.now)) result (base_at bytes.now) }
{
    let (kind, rest) = choice_of(bytes)?;
    match kind {
        BaseKind::Blank => {
            let (form, rest) = text_of(alloc, rest)?;
            let (version, rest) = option_of(alloc, rest)?;
            Ok((Base::Blank { form, version }, rest))
        }
        BaseKind::Draft => {
            let (number, rest) = number_of(rest)?;
            Ok((Base::Draft(number), rest))
        }
        BaseKind::Edit => {
            let (number, rest) = number_of(rest)?;
            Ok((Base::Edit(number), rest))
        }
    }
}

#[tactic(auto, unfolding(crate::specs::Reading::fetched_at))]
fn fetched_of(alloc: Global, bytes: &[u8]) -> Result<(Command, &[u8]), ReadFault>
    ensures { Gives (λ x. (x.0, x.1.now)) result (fetched_at bytes.now) }
{
    let (job, rest) = number_of(bytes)?;
    let (at, rest) = number_of(rest)?;
    let (outcome, rest) = outcome_of(alloc, rest)?;
    Ok((Command::Fetched { job, at, outcome }, rest))
}

#[tactic(auto, unfolding(crate::specs::Reading::start_at))]
fn start_of(alloc: Global, bytes: &[u8]) -> Result<(Command, &[u8]), ReadFault>
    ensures { Gives (λ x. (x.0, x.1.now)) result (start_at bytes.now) }
{
    let (base, rest) = base_of(alloc, bytes)?;
    let (how, rest) = choice_of(rest)?;
    Ok((Command::Start { base, how }, rest))
}

#[tactic(auto, unfolding(crate::specs::Reading::fill_at))]
fn fill_of(alloc: Global, bytes: &[u8]) -> Result<(Command, &[u8]), ReadFault>
    ensures { Gives (λ x. (x.0, x.1.now)) result (fill_at bytes.now) }
{
    let (path, rest) = text_of(alloc, bytes)?;
    let (value, rest) = text_of(alloc, rest)?;
    Ok((Command::Fill { path, value }, rest))
}

#[tactic(auto, unfolding(crate::specs::Reading::send_begun_at))]
fn send_begun_of(bytes: &[u8]) -> Result<(Command, &[u8]), ReadFault>
    ensures { Gives (λ x. (x.0, x.1.now)) result (send_begun_at bytes.now) }
{
    let (number, rest) = number_of(bytes)?;
    let (at, rest) = number_of(rest)?;
    Ok((Command::SendBegun { number, at }, rest))
}

#[tactic(auto, unfolding(crate::specs::Reading::send_ended_at))]
fn send_ended_of(alloc: Global, bytes: &[u8]) -> Result<(Command, &[u8]), ReadFault>
    ensures { Gives (λ x. (x.0, x.1.now)) result (send_ended_at bytes.now) }
{
    let (number, rest) = number_of(bytes)?;
    let (outcome, rest) = outcome_of(alloc, rest)?;
    Ok((Command::SendEnded { number, outcome }, rest))
}

#[tactic(auto, unfolding(crate::specs::Reading::command_at))]
fn command_of(alloc: Global, kind: CommandKind, bytes: &[u8]) -> Result<(Command, &[u8]), ReadFault>
    ensures { Gives (λ x. (x.0, x.1.now)) result (command_at kind bytes.now) }
{
    match kind {
        CommandKind::AutoSend => {
            let (on, rest) = choice_of(bytes)?;
            Ok((Command::AutoSend(on), rest))
        }
        CommandKind::UpdateMode => {
            let (mode, rest) = choice_of(bytes)?;
            Ok((Command::UpdateMode(mode), rest))
        }
        CommandKind::TakeLock => {
            let (round, rest) = choice_of(bytes)?;
            Ok((Command::TakeLock(round), rest))
        }
        CommandKind::Release => {
            let (lock, rest) = choice_of(bytes)?;
            Ok((Command::Release(lock), rest))
        }
        CommandKind::Load => {
            let (form, rest) = blob_of(alloc, bytes)?;
            Ok((Command::Load(form), rest))
        }
        CommandKind::Ask => {
            let (id, rest) = text_of(alloc, bytes)?;
            Ok((Command::Ask(id), rest))
        }
        CommandKind::Fetched => fetched_of(alloc, bytes),
        CommandKind::RoundDone => Ok((Command::RoundDone, bytes)),
        CommandKind::DropForm => {
            let (id, rest) = text_of(alloc, bytes)?;
            Ok((Command::DropForm(id), rest))
        }
        CommandKind::Start => start_of(alloc, bytes),
        CommandKind::Fill => fill_of(alloc, bytes),
        CommandKind::SaveDraft => Ok((Command::SaveDraft, bytes)),
        CommandKind::Leave => Ok((Command::Leave, bytes)),
        CommandKind::Finalize => Ok((Command::Finalize, bytes)),
        CommandKind::FinalizeAll => Ok((Command::FinalizeAll, bytes)),
        CommandKind::DropInstance => {
            let (number, rest) = number_of(bytes)?;
            Ok((Command::DropInstance(number), rest))
        }
        CommandKind::SendBegun => send_begun_of(bytes),
        CommandKind::SendEnded => send_ended_of(alloc, bytes),
        CommandKind::Tick => Ok((Command::Tick, bytes)),
    }
}

#[tactic(auto, unfolding(crate::specs::Reading::opening_at))]
fn opening_of(alloc: Global, bytes: &[u8]) -> Result<(Opening, &[u8]), ReadFault>
    ensures { Gives (λ x. (x.0, x.1.now)) result (opening_at bytes.now) }
{
    let (device, rest) = number_of(bytes)?;
    let (server, rest) = text_of(alloc, rest)?;
    Ok((Opening { device, server }, rest))
}

#[tactic(auto, unfolding(crate::specs::Reading::entry_at, crate::specs::Reading::entry_behind))]
fn entry_of(alloc: Global, bytes: &[u8]) -> Result<(Entry, &[u8]), ReadFault>
    ensures { Gives (λ x. (x.0, x.1.now)) result (entry_at bytes.now) }
{
    let (kind, rest) = choice_of(bytes)?;
    match kind {
        Kind::Opened => {
            let (_, rest) = choice_of::<Opener>(rest)?;
            let (opening, rest) = opening_of(alloc, rest)?;
            Ok((Entry::Opened(opening), rest))
        }
        Kind::Done(kind) => {
            let (hand, rest) = choice_of::<Hand>(rest)?;
            let (command, rest) = command_of(alloc, kind, rest)?;
            Ok((Entry::Done { hand, command }, rest))
        }
    }
}

/// The entry whose spelling the bytes begin with, and the length of this spelling.
pub fn read_entry(alloc: Global, bytes: &[u8]) -> Result<(Entry, usize), EntryRefused>
    // What is read stands there, and could be spelled.
    ensures found { IfOk result (λ x. (x.1 ≤ length bytes.now) × (take x.1 bytes.now ≡ spelling x.0)) }
    ensures fits { IfOk result (λ x. Fits x.0) }
    ensures short { IfOk result (λ x. IsShort x.0) }

    // What was spelled is read again, whatever follows it, unless memory runs out.
    ensures again { (entry : Entry) (rest : List ℕ) → Fits entry → bytes.now ≡ spelling entry ++ rest
        → result ≢ Err EntryRefused.NoMemory → result ≡ Ok (entry, length (spelling entry)) }

    // Bytes are refused exactly where none of their fronts is a spelling, and at the first part that is at fault.
    ensures refused { result ≢ Err EntryRefused.NoMemory → (IsErr result ↔ IsUnspelled bytes.now) }
    ensures place { (at : ℕ) → result ≡ Err (EntryRefused.BadSpelling at) → IsFirstFault bytes.now at }
{
    match entry_of(alloc, bytes) {
        Ok((entry, rest)) => Ok((entry, bytes.len() - rest.len())),
        Err(ReadFault::Stopped { left }) => Err(EntryRefused::BadSpelling {
            at: bytes.len() - left,
        }),
        Err(ReadFault::NoMemory) => Err(EntryRefused::NoMemory),
    }
}
