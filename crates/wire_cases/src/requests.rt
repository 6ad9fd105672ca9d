use crate::replies::words;
use case_lines::{bytes_of, cut, push_number};
use field_text::{Blob, Items, NoMemory, Text};
use http_request::read_request;
use http_wire::Address;
use rosa_box::{BoxState, serve};
use std::alloc::Global;
use submission_wire::{post_text, read_submission};

fn text(alloc: Global, text: &str) -> Result<Text, NoMemory> {
    Ok(Text::from_string(String::from_str(alloc, text)?))
}

/// A server that has nothing.
pub fn empty_box(alloc: Global) -> Result<BoxState, NoMemory> {
    Ok(BoxState {
        authority: text(alloc, "localhost:8080")?,
        forms: Items::new(alloc),
        lists: Items::new(alloc),
        kept: Items::new(alloc),
    })
}

/// The request that submits a document, as the device writes it.
pub fn post_of(alloc: Global, document: Vec<u8>) -> Result<Blob, NoMemory> {
    let base = Address {
        authority: text(alloc, "localhost:8080")?,
        target: text(alloc, "")?,
    };
    post_text(alloc, &base, 0, &Blob::from_vec(document))
}

// The document that bytes submit, as a request.
fn submitted(alloc: Global, bytes: &[u8]) -> Result<Option<Blob>, NoMemory> {
    match read_request(alloc, bytes)? {
        Some(request) => read_submission(alloc, &request),
        None => Ok(None),
    }
}

/// Whether the document of a case is submitted by the request behind it, and read back out of it.
pub fn answer_post(alloc: Global, case: &str) -> Result<&'static str, NoMemory> {
    let (document, request) = cut(case);
    let request = bytes_of(alloc, request)?;
    let written = post_of(alloc, bytes_of(alloc, document)?)?;
    if written.bytes() != request.as_slice() {
        return Ok("written otherwise");
    }
    match submitted(alloc, request.as_slice())? {
        Some(found) if found.bytes() == bytes_of(alloc, document)?.as_slice() => Ok("read back"),
        Some(_) | None => Ok("not read back"),
    }
}

// A case submits the document behind `submit`, or is a request as it stands.
fn request_of(alloc: Global, case: &str) -> Result<Blob, NoMemory> {
    match cut(case) {
        ("submit", document) => post_of(alloc, bytes_of(alloc, document)?),
        _ => Ok(Blob::from_vec(bytes_of(alloc, case)?)),
    }
}

fn served(alloc: Global, state: &mut BoxState, request: &Blob) -> Result<Blob, NoMemory> {
    serve(alloc, state, request.bytes())
}

fn answer(alloc: Global, state: &mut BoxState, case: &str) -> Result<String, NoMemory> {
    let request = request_of(alloc, case)?;
    let reply = served(alloc, state, &request)?;
    let mut out = words(alloc, reply.bytes())?;
    out.push_str("; kept ")?;
    push_number(&mut out, state.kept.len() as u64)?;
    Ok(out)
}

/// What a server that has nothing at first answers to requests, one after another, and how many documents it then
/// keeps.
pub fn answers(alloc: Global, cases: &[&str]) -> Result<Vec<String>, NoMemory> {
    let mut state = empty_box(alloc)?;
    let mut lines = Vec::new(alloc);
    for case in cases {
        lines.push(answer(alloc, &mut state, case)?)?;
    }
    Ok(lines)
}
