// The line of a refusal.
ghost use Rattle.std.specs.Prelude.{◌≡◌, ◌≢◌, ◌++◌, IfOk, OnOk, OnErr};
ghost use Rattle.collect_text.specs.Pieces.{spaced_number, spaced_text, spaced_word};
ghost use Rattle.collect_text.specs.Refusals.{answer_word, form_refused_number, limit_word, not_final_words, printed_refused};
ghost use Rattle.collect_text.specs.Refusals.{numbered, refusal_start, refusal_words, refused_text};

use crate::log::hand_word;
use crate::pieces::{
    line_at, push_numbered, push_spaced_number, push_spaced_text, push_spaced_word, push_word,
    status_word,
};
use device_rules::{Refused, Which};
use entry_form::Hand;
use field_text::{NoMemory, Text};
use finalizer::NotFinal;
use form_read::FormRefused;
use question_rules::AnswerRefused;
use std::alloc::Global;

fn limit_word(which: Which) -> &'static str
    ensures { result.now ≡ limit_word which }
{
    match which {
        Which::Forms => "forms",
        Which::Instances => "instances",
        Which::Lists => "lists",
        Which::Rows => "rows",
        Which::Versions => "versions",
        Which::Counters => "counters",
    }
}

fn answer_word(why: AnswerRefused) -> &'static str
    ensures { result.now ≡ answer_word why }
{
    match why {
        AnswerRefused::NoQuestion => "no-question",
        AnswerRefused::NotRelevant => "not-relevant",
        AnswerRefused::ReadOnly => "read-only",
        AnswerRefused::NotWhole => "not-whole",
        AnswerRefused::NotAChoice => "not-a-choice",
        AnswerRefused::TooLong => "too-long",
        AnswerRefused::BadChar { .. } => "bad-char",
        AnswerRefused::NoMemory => "memory",
    }
}

fn form_refused_number(why: &FormRefused) -> u64
    ensures { result ≡ form_refused_number why.now }
{
    match why {
        FormRefused::Doc(_) => 1,
        FormRefused::NoPrimary => 2,
        FormRefused::NoId => 3,
        FormRefused::BadExpr { .. } => 4,
        FormRefused::UnknownPath { .. } => 5,
        FormRefused::UnknownControl { .. } => 6,
        FormRefused::UnknownType { .. } => 7,
        FormRefused::Cycle { .. } => 8,
        FormRefused::UnknownList { .. } => 9,
        FormRefused::TooManyFields { .. } => 10,
        FormRefused::BadEntity { .. } => 11,
        FormRefused::NoMemory => 12,
    }
}

fn push_two_words(word: &str, next: &str, out: &mut Vec<u8>) -> Result<(), NoMemory>
    ensures { OnOk result (out.new.items ≡ out.old.items ++ (word.now ++ spaced_word next.now)) }
{
    push_word(word, out)?;
    push_spaced_word(next, out)
}

fn push_pathed(word: &str, path: &Text, out: &mut Vec<u8>) -> Result<(), NoMemory>
    ensures { OnOk result (out.new.items ≡ out.old.items ++ (word.now ++ spaced_text path.now)) }
{
    push_word(word, out)?;
    push_spaced_text(path, out)
}

fn push_not_final_words(why: &NotFinal, out: &mut Vec<u8>) -> Result<(), NoMemory>
    ensures { OnOk result (out.new.items ≡ out.old.items ++ not_final_words why.now) }
{
    match why {
        NotFinal::Required { path } => push_pathed("required", path, out),
        NotFinal::Constraint { path } => push_pathed("constraint", path, out),
        NotFinal::TooLong { .. } => push_word("too-long", out),
        NotFinal::NoMemory => push_word("memory", out),
    }
}

fn push_other(kept: &Text, new: &Text, out: &mut Vec<u8>) -> Result<(), NoMemory>
    ensures { OnOk result (out.new.items ≡ out.old.items ++ refusal_words (Refused.OtherBytes kept.now new.now)) }
{
    push_word("other", out)?;
    push_spaced_text(kept, out)?;
    push_spaced_text(new, out)
}

fn push_limit(alloc: Global, which: Which, number: u64, out: &mut Vec<u8>) -> Result<(), NoMemory>
    ensures { OnOk result (out.new.items ≡ out.old.items ++ refusal_words (Refused.Limit which number)) }
{
    push_two_words("limit", limit_word(which), out)?;
    push_spaced_number(alloc, number, out)
}

fn push_busy(alloc: Global, hand: Hand, since: u64, out: &mut Vec<u8>) -> Result<(), NoMemory>
    ensures { OnOk result (out.new.items ≡ out.old.items ++ refusal_words (Refused.Busy hand since)) }
{
    push_two_words("busy", hand_word(hand), out)?;
    push_spaced_word("since", out)?;
    push_spaced_number(alloc, since, out)
}

fn push_refusal_words(alloc: Global, why: &Refused, out: &mut Vec<u8>) -> Result<(), NoMemory>
    ensures { OnOk result (out.new.items ≡ out.old.items ++ refusal_words why.now) }
{
    match why {
        Refused::BadValue => push_word("value", out),
        Refused::Busy { hand, since } => push_busy(alloc, *hand, *since, out),
        Refused::NotHolder { .. } => push_word("holder", out),
        Refused::NothingDue => push_word("due", out),
        Refused::NoForm => push_word("form", out),
        Refused::NoVersion => push_word("version", out),
        Refused::NoInstance => push_word("instance", out),
        Refused::NoEntry => push_word("entry", out),
        Refused::EntryThere => push_word("entry-there", out),
        Refused::SavepointThere => push_word("savepoint", out),
        Refused::NoSavepoint => push_word("no-savepoint", out),
        Refused::WrongStatus { status } => push_two_words("status", status_word(*status), out),
        Refused::HasEdit { number } => push_numbered(alloc, "edit", *number, out),
        Refused::InUse { number } => push_numbered(alloc, "used", *number, out),
        Refused::Answer(why) => push_two_words("answer", answer_word(*why), out),
        Refused::NotFinal(why) => push_not_final_words(why, out),
        Refused::FormRefused(why) => push_numbered(
            alloc,
            "form-refused",
            form_refused_number(why),
            out,
        ),
        Refused::OtherBytes { kept, new } => push_other(kept, new, out),
        Refused::Limit { which, number } => push_limit(alloc, *which, *number, out),
        Refused::NotInFlight => push_word("not-in-flight", out),
        Refused::InFlight { number } => push_numbered(alloc, "in-flight", *number, out),
        Refused::NoMemory => push_word("memory", out),
        Refused::NotBuilt => push_word("not-built", out),
    }
}

fn push_numbered_start(alloc: Global, why: &Refused, out: &mut Vec<u8>) -> Result<(), NoMemory>
    ensures { OnOk result (out.new.items ≡ out.old.items ++ numbered why.now) }
{
    push_numbered(alloc, "refused", why.number(), out)?;
    Ok(out.push(b' ')?)
}

// What stands before the words of a refusal: its number, but where a lock is held.
fn push_refusal_start(alloc: Global, why: &Refused, out: &mut Vec<u8>) -> Result<(), NoMemory>
    ensures { OnOk result (out.new.items ≡ out.old.items ++ refusal_start why.now) }
{
    match why {
        Refused::Busy { .. } => Ok(()),
        why => push_numbered_start(alloc, why, out),
    }
}

fn refused_line(alloc: Global, position: u64, why: &Refused) -> Result<Vec<u8>, NoMemory>
    ensures { IfOk result (λ line. line.items ≡ printed_refused position why.now) }
{
    let mut text = Vec::new(alloc);
    push_refusal_start(alloc, why, &mut text)?;
    push_refusal_words(alloc, why, &mut text)?;
    line_at(alloc, position, text.as_slice())
}

/// Appends the line of a refusal at a position. Want of memory has no line of its own.
pub fn print_refused(
    alloc: Global,
    position: u64,
    why: &Refused,
    out: &mut Vec<u8>,
) -> Result<(), NoMemory>
    requires { why.now ≢ Refused.NoMemory }
    ensures ok { OnOk result (out.new.items ≡ out.old.items ++ printed_refused position why.now) }
    ensures err { OnErr result (out.new.items ≡ out.old.items) }
{
    let line = refused_line(alloc, position, why)?;
    Ok(out.extend_from_slice(line.as_slice())?)
}
