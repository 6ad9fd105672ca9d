ghost use Rattle.std.specs.Prelude.{◌≡◌, ℕ, ◌<◌, ◌^◌, ◌++◌, length, slice_index, OnOk, OnErr};
ghost use Rattle.std.specs.List.{AllByRecursion};
ghost use Rattle.std.specs.Str.{IsUtf8};
ghost use Rattle.entry_codec.specs.Spelling.{part_bytes, number, text as a_text, blob as a_blob, PartFits};
ghost use Rattle.entry_codec.specs.Spelling.{IsShortPart, option_parts, outcome_parts, base_parts, command_parts};
ghost use Rattle.entry_codec.specs.Spelling.{parts, bytes_of, spelling, IsShort, Fits};

use crate::choice::Choice;
use crate::kind::{BaseKind, CommandKind, Kind, Opener};
use entry_form::{Base, Command, Entry, Outcome};
use field_text::{Blob, NoMemory, Text};
use std::alloc::Global;

#[tactic(auto, unfolding(crate::specs::Spelling::number_bytes))]
fn put_number(out: &mut Vec<u8>, value: u64) -> Result<(), NoMemory>
    ensures { OnOk result (out.new.items ≡ out.old.items ++ part_bytes (number value)) }
{
    out.extend_from_slice(&value.to_le_bytes())?;
    Ok(())
}

#[tactic(auto, unfolding(crate::specs::Spelling::with_length))]
fn put_with_length(out: &mut Vec<u8>, bytes: &[u8]) -> Result<(), NoMemory>
    requires { length bytes.now < 2 ^ 32 }
    ensures ok { OnOk result (out.new.items ≡ out.old.items ++ part_bytes (a_blob bytes.now)) }
    ensures bytes { (i : ℕ) → slice_index bytes.now i < 256 }
{
    out.extend_from_slice(&(bytes.len() as u32).to_le_bytes())?;
    out.extend_from_slice(bytes)?;
    Ok(())
}

fn put_text(out: &mut Vec<u8>, text: &Text) -> Result<(), NoMemory>
    requires { length text.now < 2 ^ 32 }
    ensures ok { OnOk result (out.new.items ≡ out.old.items ++ part_bytes (a_text text.now)) }
    ensures utf8 { IsUtf8 text.now }
{
    put_with_length(out, text.bytes())
}

fn put_blob(out: &mut Vec<u8>, blob: &Blob) -> Result<(), NoMemory>
    requires { length blob.now < 2 ^ 32 }
    ensures ok { OnOk result (out.new.items ≡ out.old.items ++ part_bytes (a_blob blob.now)) }
    ensures bytes { (i : ℕ) → slice_index blob.now i < 256 }
{
    put_with_length(out, blob.bytes())
}

fn put_option(out: &mut Vec<u8>, text: &Option<Text>) -> Result<(), NoMemory>
    requires { AllByRecursion IsShortPart (option_parts text.now) }
    ensures ok { OnOk result (out.new.items ≡ out.old.items ++ bytes_of (option_parts text.now)) }
    ensures fits { OnOk result (AllByRecursion PartFits (option_parts text.now)) }
{
    match text {
        None => out.push(false.byte())?,
        Some(text) => {
            out.push(true.byte())?;
            put_text(out, text)?;
        }
    }
    Ok(())
}

fn put_outcome(out: &mut Vec<u8>, outcome: &Outcome) -> Result<(), NoMemory>
    requires { AllByRecursion IsShortPart (outcome_parts outcome.now) }
    ensures ok { OnOk result (out.new.items ≡ out.old.items ++ bytes_of (outcome_parts outcome.now)) }
    ensures fits { OnOk result (AllByRecursion PartFits (outcome_parts outcome.now)) }
{
    match outcome {
        Outcome::Reply(bytes) => {
            out.push(false.byte())?;
            put_blob(out, bytes)?;
        }
        Outcome::Fault(stage) => {
            out.push(true.byte())?;
            out.push(stage.byte())?;
        }
    }
    Ok(())
}

fn put_base(out: &mut Vec<u8>, base: &Base) -> Result<(), NoMemory>
    requires { AllByRecursion IsShortPart (base_parts base.now) }
    ensures ok { OnOk result (out.new.items ≡ out.old.items ++ bytes_of (base_parts base.now)) }
    ensures fits { OnOk result (AllByRecursion PartFits (base_parts base.now)) }
{
    match base {
        Base::Blank { form, version } => {
            out.push(BaseKind::Blank.byte())?;
            put_text(out, form)?;
            put_option(out, version)?;
        }
        Base::Draft(number) => {
            out.push(BaseKind::Draft.byte())?;
            put_number(out, *number)?;
        }
        Base::Edit(number) => {
            out.push(BaseKind::Edit.byte())?;
            put_number(out, *number)?;
        }
    }
    Ok(())
}

fn put_command(out: &mut Vec<u8>, command: &Command) -> Result<(), NoMemory>
    requires { AllByRecursion IsShortPart (command_parts command.now) }
    ensures ok { OnOk result (out.new.items ≡ out.old.items ++ bytes_of (command_parts command.now)) }
    ensures fits { OnOk result (AllByRecursion PartFits (command_parts command.now)) }
{
    match command {
        Command::AutoSend(on) => out.push(on.byte())?,
        Command::UpdateMode(mode) => out.push(mode.byte())?,
        Command::TakeLock(round) => out.push(round.byte())?,
        Command::Release(lock) => out.push(lock.byte())?,
        Command::Load(form) => put_blob(out, form)?,
        Command::Ask(id) | Command::DropForm(id) => put_text(out, id)?,
        Command::Fetched { job, at, outcome } => {
            put_number(out, *job)?;
            put_number(out, *at)?;
            put_outcome(out, outcome)?;
        }
        Command::Start { base, how } => {
            put_base(out, base)?;
            out.push(how.byte())?;
        }
        Command::Fill { path, value } => {
            put_text(out, path)?;
            put_text(out, value)?;
        }
        Command::DropInstance(number) => put_number(out, *number)?,
        Command::SendBegun { number, at } => {
            put_number(out, *number)?;
            put_number(out, *at)?;
        }
        Command::SendEnded { number, outcome } => {
            put_number(out, *number)?;
            put_outcome(out, outcome)?;
        }
        Command::RoundDone
        | Command::SaveDraft
        | Command::Leave
        | Command::Finalize
        | Command::FinalizeAll
        | Command::Tick => {}
    }
    Ok(())
}

fn put_entry(out: &mut Vec<u8>, entry: &Entry) -> Result<(), NoMemory>
    requires { IsShort entry.now }
    ensures ok { OnOk result (out.new.items ≡ out.old.items ++ spelling entry.now) }
    ensures fits { OnOk result (Fits entry.now) }
{
    match entry {
        Entry::Opened(opening) => {
            out.push(Kind::Opened.byte())?;
            out.push(Opener::Script.byte())?;
            put_number(out, opening.device)?;
            put_text(out, &opening.server)?;
        }
        Entry::Done { hand, command } => {
            out.push(CommandKind::of(command).byte())?;
            out.push(hand.byte())?;
            put_command(out, command)?;
        }
    }
    Ok(())
}

/// Appends the spelling of an entry.
pub fn spell(alloc: Global, entry: &Entry, out: &mut Vec<u8>) -> Result<(), NoMemory>
    requires { IsShort entry.now }
    ensures appended { OnOk result (out.new.items ≡ out.old.items ++ spelling entry.now) }
    ensures fits { OnOk result (Fits entry.now) }
    ensures unchanged { OnErr result (out.new.items ≡ out.old.items) }
{
    let mut bytes = Vec::new(alloc);
    put_entry(&mut bytes, entry)?;
    out.extend_from_slice(&bytes)?;
    Ok(())
}
