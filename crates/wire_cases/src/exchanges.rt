use crate::replies::words;
use crate::requests::{empty_box, post_of};
use case_lines::{bytes_of, cut, push_all, push_number};
use field_io::Stage;
use field_text::{Blob, NoMemory, Text};
use http_exchange::{Got, exchange};
use rosa_box::BoxDialer;
use std::alloc::Global;

// The numbers of calls, between commas.
fn calls_of(alloc: Global, numbers: &str) -> Result<Vec<u64>, NoMemory> {
    let mut calls = Vec::new(alloc);
    for number in numbers.split(',') {
        if let Ok(number) = number.parse::<u64>() {
            calls.push(number)?;
        }
    }
    Ok(calls)
}

fn stage_word(stage: Stage) -> &'static str {
    match stage {
        Stage::Dial => "dial",
        Stage::Send => "send",
        Stage::Take => "take",
    }
}

fn got_words(alloc: Global, got: &Got) -> Result<String, NoMemory> {
    match got {
        Got::Reply(bytes) => words(alloc, bytes.bytes()),
        Got::Fault(stage) => {
            let mut out = String::from_str(alloc, "fault ")?;
            out.push_str(stage_word(*stage))?;
            Ok(out)
        }
        Got::NoMemory => Err(NoMemory),
    }
}

fn got(alloc: Global, dialer: &mut BoxDialer, authority: &Text, request: &Blob) -> Got {
    exchange(alloc, dialer, authority, request.bytes())
}

// One exchange of a document, with a dialer that goes on.
fn exchanged(alloc: Global, dialer: &mut BoxDialer, document: &str) -> Result<String, NoMemory> {
    let request = post_of(alloc, bytes_of(alloc, document)?)?;
    let authority = Text::from_string(String::from_str(alloc, "localhost:8080")?);
    got_words(alloc, &got(alloc, dialer, &authority, &request))
}

fn dialer_of(alloc: Global, numbers: &str) -> Result<BoxDialer, NoMemory> {
    let fails = calls_of(alloc, numbers)?;
    Ok(BoxDialer::make(alloc, empty_box(alloc)?, fails))
}

fn kept(dialer: &BoxDialer) -> u64 {
    dialer.state().kept.len() as u64
}

fn starved(dialer: &BoxDialer) -> u64 {
    dialer.starved()
}

// How all documents of a case are sent.
fn all_exchanged(
    alloc: Global,
    dialer: &mut BoxDialer,
    documents: &str,
) -> Result<String, NoMemory> {
    let mut out = String::new(alloc);
    for document in documents.split(" & ") {
        let words = exchanged(alloc, dialer, document)?;
        push_all(&mut out, &[words.as_str(), "; "])?;
    }
    Ok(out)
}

/// How the documents of a case are sent, one after another, by a dialer whose listed calls fail, and what the server
/// then keeps.
pub fn answer(alloc: Global, case: &str) -> Result<String, NoMemory> {
    let (numbers, documents) = cut(case);
    let mut dialer = dialer_of(alloc, numbers)?;
    let mut out = all_exchanged(alloc, &mut dialer, documents)?;
    out.push_str("kept ")?;
    push_number(&mut out, kept(&dialer))?;
    out.push_str(" starved ")?;
    push_number(&mut out, starved(&dialer))?;
    Ok(out)
}
