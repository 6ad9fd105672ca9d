// Why a document is no form, in a line.
ghost use Rattle.std.specs.Prelude.{◌≡◌, ◌++◌, IfOk, OnOk};
ghost use Rattle.form_check.specs.Refused.{at_place, doc_words, expression_words, named, numbered};
ghost use Rattle.form_check.specs.Refused.{refused_line, refused_words};

use crate::place::{Place, place_at};
use collect_text::print_text;
use field_text::{NoMemory, Text, decimal_text};
use form_read::FormRefused;
use rosa_doc::DocRefused;
use std::alloc::Global;

// A word and a number.
fn push_numbered(
    alloc: Global,
    word: &'static str,
    number: u64,
    out: &mut Vec<u8>,
) -> Result<(), NoMemory>
    ensures { OnOk result (out.new.items ≡ out.old.items ++ numbered word.now number) }
{
    let digits = decimal_text(alloc, number)?;
    out.extend_from_slice(word.as_bytes())?;
    out.push(b' ')?;
    Ok(out.extend_from_slice(digits.bytes())?)
}

// A word, and the place of a byte in the document.
fn push_place(
    alloc: Global,
    word: &'static str,
    document: &[u8],
    at: u64,
    out: &mut Vec<u8>,
) -> Result<(), NoMemory>
    ensures { OnOk result (out.new.items ≡ out.old.items ++ at_place word.now document.now at) }
{
    let Place { line, column } = place_at(document, at);
    out.extend_from_slice(word.as_bytes())?;
    push_numbered(alloc, " at", at, out)?;
    push_numbered(alloc, " line", line, out)?;
    push_numbered(alloc, " column", column, out)
}

// A word, and the path or the name that it is about.
fn push_named(word: &'static str, name: &Text, out: &mut Vec<u8>) -> Result<(), NoMemory>
    ensures { OnOk result (out.new.items ≡ out.old.items ++ named word.now name.now) }
{
    out.extend_from_slice(word.as_bytes())?;
    out.push(b' ')?;
    print_text(name, out)
}

fn push_word(word: &'static str, out: &mut Vec<u8>) -> Result<(), NoMemory>
    ensures { OnOk result (out.new.items ≡ out.old.items ++ word.now) }
{
    Ok(out.extend_from_slice(word.as_bytes())?)
}

fn push_doc_words(
    alloc: Global,
    document: &[u8],
    why: DocRefused,
    out: &mut Vec<u8>,
) -> Result<(), NoMemory>
    ensures { OnOk result (out.new.items ≡ out.old.items ++ doc_words document.now why) }
{
    match why {
        DocRefused::NotUtf8 { at } => push_place(alloc, "not-utf8", document, at, out),
        DocRefused::BadMarkup { at } => push_place(alloc, "bad-markup", document, at, out),
        DocRefused::Unclosed { at } => push_place(alloc, "unclosed", document, at, out),
        DocRefused::TooDeep { at } => push_place(alloc, "too-deep", document, at, out),
        DocRefused::HasDoctype { at } => push_place(alloc, "has-doctype", document, at, out),
        DocRefused::TooLong { length } => push_numbered(alloc, "too-long", length, out),
        DocRefused::NoMemory => push_word("memory", out),
    }
}

// An expression of a field's bind or itemset that stops being one at a byte of its text.
fn push_expression(alloc: Global, path: &Text, at: u64, out: &mut Vec<u8>) -> Result<(), NoMemory>
    ensures { OnOk result (out.new.items ≡ out.old.items ++ expression_words path.now at) }
{
    push_named("bad-expression", path, out)?;
    push_numbered(alloc, " at", at, out)
}

fn push_words(
    alloc: Global,
    document: &[u8],
    why: &FormRefused,
    out: &mut Vec<u8>,
) -> Result<(), NoMemory>
    ensures { OnOk result (out.new.items ≡ out.old.items ++ refused_words document.now why.now) }
{
    match why {
        FormRefused::Doc(why) => push_doc_words(alloc, document, *why, out),
        FormRefused::NoPrimary => push_word("no-primary", out),
        FormRefused::NoId => push_word("no-id", out),
        FormRefused::BadExpr { path, at } => push_expression(alloc, path, *at, out),
        FormRefused::UnknownPath { path } => push_named("unknown-path", path, out),
        FormRefused::UnknownControl { name } => push_named("unknown-control", name, out),
        FormRefused::UnknownType { path } => push_named("unknown-type", path, out),
        FormRefused::Cycle { path } => push_named("cycle", path, out),
        FormRefused::UnknownList { name } => push_named("unknown-list", name, out),
        FormRefused::TooManyFields { count } => push_numbered(
            alloc,
            "too-many-fields",
            *count,
            out,
        ),
        FormRefused::BadEntity { path } => push_named("bad-entity", path, out),
        FormRefused::NoMemory => push_word("memory", out),
    }
}

pub fn refused_line(alloc: Global, document: &[u8], why: &FormRefused) -> Result<Vec<u8>, NoMemory>
    ensures { IfOk result (λ text. text.items ≡ refused_line document.now why.now) }
{
    let mut out = Vec::new(alloc);
    out.extend_from_slice(b"refused ")?;
    push_words(alloc, document, why, &mut out)?;
    out.push(b'\n')?;
    Ok(out)
}
