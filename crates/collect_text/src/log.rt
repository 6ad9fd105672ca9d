// The lines of a log.
ghost use Rattle.std.specs.Prelude.{◌≡◌, ◌++◌, string_bytes, IfOk, OnOk, OnErr};
ghost use Rattle.collect_text.specs.Log.{printed_entry, entry_text, command_word, hand_word};

use entry_form::{Command, Entry, Hand};
use field_text::NoMemory;
use std::alloc::{AllocError, Global};

pub(crate) fn hand_word(hand: Hand) -> &'static str
    ensures { result.now ≡ hand_word hand }
{
    match hand {
        Hand::Script => "script",
        Hand::Sender => "sender",
        Hand::Updater => "updater",
        Hand::Lister => "lister",
    }
}

fn command_word(command: &Command) -> &'static str
    ensures { result.now ≡ command_word command.now }
{
    match command {
        Command::AutoSend(_) => "autosend",
        Command::UpdateMode(_) => "updatemode",
        Command::TakeLock(_) => "takelock",
        Command::Release(_) => "release",
        Command::Load(_) => "load",
        Command::Ask(_) => "ask",
        Command::Fetched { .. } => "fetched",
        Command::RoundDone => "rounddone",
        Command::DropForm(_) => "dropform",
        Command::Start { .. } => "start",
        Command::Fill { .. } => "fill",
        Command::SaveDraft => "savedraft",
        Command::Leave => "leave",
        Command::Finalize => "finalize",
        Command::FinalizeAll => "finalizeall",
        Command::DropInstance(_) => "dropinstance",
        Command::SendBegun { .. } => "sendbegun",
        Command::SendEnded { .. } => "sendended",
        Command::Tick => "tick",
    }
}

// The words of an entry: its hand and its kind.
fn entry_words(alloc: Global, entry: &Entry) -> Result<String, AllocError>
    ensures { IfOk result (λ text. string_bytes text ≡ entry_text entry.now) }
{
    match entry {
        Entry::Opened(_) => String::from_str(alloc, "script opened"),
        Entry::Done { hand, command } => {
            let mut text = String::from_str(alloc, hand_word(*hand))?;
            text.push_str(" ")?;
            text.push_str(command_word(command))?;
            Ok(text)
        }
    }
}

/// Appends the line of an entry in a log, which names its hand and its kind.
pub fn print_entry(
    alloc: Global,
    position: u64,
    entry: &Entry,
    out: &mut Vec<u8>,
) -> Result<(), NoMemory>
    ensures ok { OnOk result (out.new.items ≡ out.old.items ++ printed_entry position entry.now) }
    ensures err { OnErr result (out.new.items ≡ out.old.items) }
{
    let words = entry_words(alloc, entry)?;
    let line = format!(in alloc; "{position} {words}\n")?;
    Ok(out.extend_from_slice(line.as_bytes())?)
}
