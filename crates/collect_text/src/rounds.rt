// The line of a round that came to its end.
ghost use Rattle.std.specs.Prelude.{◌≡◌, ◌++◌, IfOk, OnOk, OnErr};
ghost use Rattle.collect_text.specs.Rounds.{printed_round, sent_text};

use crate::pieces::{line_at, push_numbered, push_spaced_number, push_spaced_word};
use field_text::NoMemory;
use std::alloc::Global;

#[tactic(auto, unfolding(crate::specs::Rounds::sent_text))]
fn sent_text(alloc: Global, sent: u64, failed: u64) -> Result<Vec<u8>, NoMemory>
    ensures { IfOk result (λ text. text.items ≡ sent_text sent failed) }
{
    let mut text = Vec::new(alloc);
    push_numbered(alloc, "sent", sent, &mut text)?;
    push_spaced_word("failed", &mut text)?;
    push_spaced_number(alloc, failed, &mut text)?;
    Ok(text)
}

fn round_line(alloc: Global, position: u64, sent: u64, failed: u64) -> Result<Vec<u8>, NoMemory>
    ensures { IfOk result (λ line. line.items ≡ printed_round position sent failed) }
{
    let text = sent_text(alloc, sent, failed)?;
    line_at(alloc, position, text.as_slice())
}

/// Appends the line of a round of sending that ended with the entry at a position: how many instances the server has
/// taken in it, and how many it hasn't.
pub fn print_round(
    alloc: Global,
    position: u64,
    sent: u64,
    failed: u64,
    out: &mut Vec<u8>,
) -> Result<(), NoMemory>
    ensures ok { OnOk result (out.new.items ≡ out.old.items ++ printed_round position sent failed) }
    ensures err { OnErr result (out.new.items ≡ out.old.items) }
{
    let line = round_line(alloc, position, sent, failed)?;
    Ok(out.extend_from_slice(line.as_slice())?)
}
