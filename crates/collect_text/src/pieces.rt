// The pieces of printed lines.
ghost use Rattle.std.specs.Prelude.{◌≡◌, ◌++◌, IfOk, OnOk};
ghost use Rattle.collect_text.specs.Lines.{line_at};
ghost use Rattle.collect_text.specs.Pieces.{spaced_number, spaced_text, spaced_word, status_word};

use crate::print_text;
use crate::printed::print_bytes;
use field_text::{NoMemory, Text, decimal_text};
use instance_store::Status;
use std::alloc::Global;

pub(crate) fn push_word(word: &str, out: &mut Vec<u8>) -> Result<(), NoMemory>
    ensures { OnOk result (out.new.items ≡ out.old.items ++ word.now) }
{
    Ok(out.extend_from_slice(word.as_bytes())?)
}

pub(crate) fn push_spaced_word(word: &str, out: &mut Vec<u8>) -> Result<(), NoMemory>
    ensures { OnOk result (out.new.items ≡ out.old.items ++ spaced_word word.now) }
{
    out.push(b' ')?;
    Ok(out.extend_from_slice(word.as_bytes())?)
}

pub(crate) fn push_spaced_number(
    alloc: Global,
    number: u64,
    out: &mut Vec<u8>,
) -> Result<(), NoMemory>
    ensures { OnOk result (out.new.items ≡ out.old.items ++ spaced_number number) }
{
    let digits = decimal_text(alloc, number)?;
    out.push(b' ')?;
    Ok(out.extend_from_slice(digits.bytes())?)
}

pub(crate) fn push_spaced_text(text: &Text, out: &mut Vec<u8>) -> Result<(), NoMemory>
    ensures { OnOk result (out.new.items ≡ out.old.items ++ spaced_text text.now) }
{
    out.push(b' ')?;
    print_text(text, out)
}

pub(crate) fn push_spaced_bytes(text: &[u8], out: &mut Vec<u8>) -> Result<(), NoMemory>
    ensures { OnOk result (out.new.items ≡ out.old.items ++ spaced_text text.now) }
{
    out.push(b' ')?;
    print_bytes(text, out)
}

// A word, and a number behind it.
pub(crate) fn push_numbered(
    alloc: Global,
    word: &str,
    number: u64,
    out: &mut Vec<u8>,
) -> Result<(), NoMemory>
    ensures { OnOk result (out.new.items ≡ out.old.items ++ (word.now ++ spaced_number number)) }
{
    push_word(word, out)?;
    push_spaced_number(alloc, number, out)
}

// The line of a text at a position.
pub(crate) fn line_at(alloc: Global, position: u64, text: &[u8]) -> Result<Vec<u8>, NoMemory>
    ensures { IfOk result (λ line. line.items ≡ line_at position text.now) }
{
    let digits = decimal_text(alloc, position)?;
    let mut line = Vec::from_slice(alloc, digits.bytes())?;
    line.push(b' ')?;
    line.extend_from_slice(text)?;
    line.push(b'\n')?;
    Ok(line)
}

pub(crate) fn status_word(status: Status) -> &'static str
    ensures { result.now ≡ status_word status }
{
    match status {
        Status::Draft => "draft",
        Status::Invalid => "invalid",
        Status::Finalized => "finalized",
        Status::SendFailed => "failed",
        Status::Sent => "sent",
    }
}
