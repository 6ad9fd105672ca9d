// The lines that answer the lines of a script.
ghost use Rattle.std.specs.Prelude.{◌≡◌, ◌++◌, codes, IfOk, OnOk, OnErr};
ghost use Rattle.collect_text.specs.Answers.{answer_text, bulk_text, counts_text, entry_head, kept_counts, list_head};
ghost use Rattle.collect_text.specs.Answers.{number_text, printed_answer, printed_word, queue_counts};
ghost use Rattle.collect_text.specs.Pieces.{spaced_text};
ghost use Rattle.collect_text.specs.Answers.{IsWord};

use crate::answer_rows::push_answer_rows;
use crate::pieces::{
    line_at, push_numbered, push_spaced_bytes, push_spaced_number, push_spaced_text,
    push_spaced_word, push_word,
};
use crate::settings::settings_text;
use crate::{Line, Shape};
use device_rules::{Answer, Counts, EntryView, Finalized};
use field_text::{Blob, NoMemory};
use std::alloc::Global;

fn push_number_text(
    alloc: Global,
    shape: &Shape,
    number: u64,
    out: &mut Vec<u8>,
) -> Result<(), NoMemory>
    ensures { OnOk result (out.new.items ≡ out.old.items ++ number_text shape.now number) }
{
    match shape {
        Shape::Saved => push_numbered(alloc, "saved", number, out),
        Shape::Finalized => push_numbered(alloc, "finalized", number, out),
        Shape::Plain | Shape::List(_) => push_word("ok", out),
    }
}

fn push_entry_head(
    alloc: Global,
    entry: &Option<EntryView>,
    out: &mut Vec<u8>,
) -> Result<(), NoMemory>
    ensures { OnOk result (out.new.items ≡ out.old.items ++ entry_head entry.now) }
{
    let Some(entry) = entry else {
        return push_word("entry -", out);
    };
    push_word("entry", out)?;
    push_spaced_text(&entry.id, out)?;
    push_spaced_text(&entry.version, out)?;
    push_spaced_number(alloc, entry.fields.len() as u64, out)
}

#[tactic(auto, unfolding(crate::specs::Answers::bulk_text))]
fn push_bulk_text(alloc: Global, counts: &Finalized, out: &mut Vec<u8>) -> Result<(), NoMemory>
    ensures { OnOk result (out.new.items ≡ out.old.items ++ bulk_text counts.now) }
{
    push_numbered(alloc, "finalized", counts.finalized, out)?;
    push_spaced_word("invalid", out)?;
    push_spaced_number(alloc, counts.invalid, out)?;
    push_spaced_word("skipped", out)?;
    push_spaced_number(alloc, counts.skipped, out)
}

fn push_list_head(
    alloc: Global,
    shape: &Shape,
    count: u64,
    out: &mut Vec<u8>,
) -> Result<(), NoMemory>
    ensures { OnOk result (out.new.items ≡ out.old.items ++ list_head shape.now count) }
{
    push_word("list", out)?;
    if let Shape::List(name) = shape {
        push_spaced_text(name, out)?;
    }
    push_spaced_number(alloc, count, out)
}

#[tactic(auto, unfolding(crate::specs::Answers::kept_counts))]
fn push_kept_counts(alloc: Global, counts: &Counts, out: &mut Vec<u8>) -> Result<(), NoMemory>
    ensures { OnOk result (out.new.items ≡ out.old.items ++ kept_counts counts.now) }
{
    push_numbered(alloc, "counts forms", counts.forms, out)?;
    push_spaced_word("instances", out)?;
    push_spaced_number(alloc, counts.instances, out)
}

#[tactic(auto, unfolding(crate::specs::Answers::queue_counts))]
fn push_queue_counts(alloc: Global, counts: &Counts, out: &mut Vec<u8>) -> Result<(), NoMemory>
    ensures { OnOk result (out.new.items ≡ out.old.items ++ queue_counts counts.now) }
{
    push_spaced_word("queued", out)?;
    push_spaced_number(alloc, counts.queued, out)?;
    push_spaced_word("sent", out)?;
    push_spaced_number(alloc, counts.sent, out)
}

fn push_counts_text(alloc: Global, counts: &Counts, out: &mut Vec<u8>) -> Result<(), NoMemory>
    ensures { OnOk result (out.new.items ≡ out.old.items ++ counts_text counts.now) }
{
    push_kept_counts(alloc, counts, out)?;
    push_queue_counts(alloc, counts, out)?;
    push_spaced_word("lists", out)?;
    push_spaced_number(alloc, counts.lists, out)
}

fn push_doc_text(doc: &Blob, out: &mut Vec<u8>) -> Result<(), NoMemory>
    ensures { OnOk result (out.new.items ≡ out.old.items ++ (codes "doc" ++ spaced_text doc.now)) }
{
    push_word("doc", out)?;
    push_spaced_bytes(doc.bytes(), out)
}

fn push_answer_text(
    alloc: Global,
    shape: &Shape,
    answer: &Answer,
    out: &mut Vec<u8>,
) -> Result<(), NoMemory>
    ensures { OnOk result (out.new.items ≡ out.old.items ++ answer_text shape.now answer.now) }
{
    match answer {
        Answer::Done => push_word("ok", out),
        Answer::Number(number) => push_number_text(alloc, shape, *number, out),
        Answer::Settings(settings) => {
            let text = settings_text(alloc, settings)?;
            push_word(text.as_str(), out)
        }
        Answer::Forms(forms) => push_numbered(alloc, "forms", forms.len() as u64, out),
        Answer::Instances(instances) => push_numbered(
            alloc,
            "instances",
            instances.len() as u64,
            out,
        ),
        Answer::EntryNow(entry) => push_entry_head(alloc, entry, out),
        Answer::Bulk(counts) => push_bulk_text(alloc, counts, out),
        Answer::Doc(doc) => push_doc_text(doc, out),
        Answer::Entities(rows) => push_list_head(alloc, shape, rows.len() as u64, out),
        // No line asks for it.
        Answer::NextSend(_) => Ok(()),
        Answer::Counts(counts) => push_counts_text(alloc, counts, out),
    }
}

// All lines of an answer.
fn answer_lines(
    alloc: Global,
    position: u64,
    shape: &Shape,
    answer: &Answer,
) -> Result<Vec<u8>, NoMemory>
    ensures { IfOk result (λ lines. lines.items ≡ printed_answer position shape.now answer.now) }
{
    let mut text = Vec::new(alloc);
    push_answer_text(alloc, shape, answer, &mut text)?;
    let mut lines = line_at(alloc, position, text.as_slice())?;
    push_answer_rows(alloc, answer, &mut lines)?;
    Ok(lines)
}

/// Appends the lines of the answer to a line of this shape, at a position.
pub fn print_answer(
    alloc: Global,
    position: u64,
    shape: &Shape,
    answer: &Answer,
    out: &mut Vec<u8>,
) -> Result<(), NoMemory>
    ensures ok { OnOk result (out.new.items ≡ out.old.items ++ printed_answer position shape.now answer.now) }
    ensures err { OnErr result (out.new.items ≡ out.old.items) }
{
    let lines = answer_lines(alloc, position, shape, answer)?;
    Ok(out.extend_from_slice(lines.as_slice())?)
}

/// Appends the line of the end of the script, of a bad line, or of a line that isn't known yet.
pub fn print_word(
    alloc: Global,
    position: u64,
    line: &Line,
    out: &mut Vec<u8>,
) -> Result<(), NoMemory>
    requires { IsWord line.now }
    ensures ok { OnOk result (out.new.items ≡ out.old.items ++ printed_word position line.now) }
    ensures err { OnErr result (out.new.items ≡ out.old.items) }
{
    let word = match line {
        Line::Quit => "bye",
        Line::Bad => "bad line",
        _ => "not built",
    };
    let line = format!(in alloc; "{position} {word}\n")?;
    Ok(out.extend_from_slice(line.as_bytes())?)
}
