use case_lines::{bytes_of, cut, push_all, push_number};
use field_text::NoMemory;
use http_reply::{Class, body_of, is_framed, read_reply};
use std::alloc::Global;
use submission_wire::accepted;

/// A reply with more bytes isn't cut at each place.
const MOST_CUT: usize = 150_000;

fn class_word(class: Class) -> &'static str {
    match class {
        Class::Whole => "whole",
        Class::Short => "short",
        Class::Bad => "bad",
        Class::TooLong => "too long",
    }
}

fn class_and_status(alloc: Global, bytes: &[u8]) -> Result<String, NoMemory> {
    let view = read_reply(bytes);
    let mut out = String::from_str(alloc, class_word(view.class))?;
    out.push_str(" ")?;
    push_number(&mut out, view.status)?;
    Ok(out)
}

/// Class and status, whether the reply is framed, and whether it accepts a submission.
pub fn words(alloc: Global, bytes: &[u8]) -> Result<String, NoMemory> {
    let mut out = class_and_status(alloc, bytes)?;
    out.push_str(if is_framed(bytes) { " framed" } else { " open" })?;
    if accepted(bytes) {
        out.push_str(" accepted")?;
    }
    Ok(out)
}

fn push_body_length(alloc: Global, bytes: &[u8], out: &mut String) -> Result<(), NoMemory> {
    out.push_str(" body ")?;
    match body_of(alloc, bytes)? {
        Some(body) => Ok(push_number(out, body.bytes().len() as u64)?),
        None => Ok(out.push_str("-")?),
    }
}

// From which lengths on the class or the status of a front is another one.
fn push_steps(alloc: Global, bytes: &[u8], out: &mut String) -> Result<(), NoMemory> {
    let mut last = String::new(alloc);
    for length in 0..bytes.len() + 1 {
        let now = class_and_status(alloc, bytes.get(..length).unwrap_or(&[]))?;
        if now.as_str() == last.as_str() {
            continue;
        }
        if length > 0 {
            out.push_str(", ")?;
        }
        push_number(out, length as u64)?;
        push_all(out, &[" ", now.as_str()])?;
        last = now;
    }
    Ok(())
}

// How long the first front is that is framed.
fn framed_at(bytes: &[u8]) -> Option<usize> {
    for length in 0..bytes.len() + 1 {
        if is_framed(bytes.get(..length).unwrap_or(&[])) {
            return Some(length);
        }
    }
    None
}

fn push_cuts(alloc: Global, bytes: &[u8], out: &mut String) -> Result<(), NoMemory> {
    out.push_str("\n  cut at: ")?;
    push_steps(alloc, bytes, out)?;
    match framed_at(bytes) {
        Some(length) => {
            out.push_str("; framed at ")?;
            Ok(push_number(out, length as u64)?)
        }
        None => Ok(out.push_str("; open")?),
    }
}

/// What the reply of a case is, and what its fronts are, on a line of their own.
pub fn answer(alloc: Global, case: &str) -> Result<String, NoMemory> {
    let (name, text) = cut(case);
    let bytes = bytes_of(alloc, text)?;
    let words = words(alloc, bytes.as_slice())?;
    let mut out = String::new(alloc);
    push_all(&mut out, &[name, ": ", words.as_str()])?;
    push_body_length(alloc, bytes.as_slice(), &mut out)?;
    if bytes.len() < MOST_CUT {
        push_cuts(alloc, bytes.as_slice(), &mut out)?;
    }
    Ok(out)
}
