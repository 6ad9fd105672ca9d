//! The document in the body of a submission (RFC 7578, section 4).
ghost use Rattle.std.specs.Prelude.{◌≡◌, ◌≢◌, ◌++◌, ℕ, List, option_copied, MatchOption};
ghost use Rattle.submission_wire.specs.Parts as spec;
ghost use Rattle.submission_wire.specs.Parts.{HasContent, HasPart, IsClosed, IsOneOrNone};

use crate::parameters::parameter;
use http_reply::fields::FieldList;
use http_request::MOST_FIELDS;
use http_request::cut::{behind, front};
use httparse::Status;
use httparse::spans::{EMPTY_HEADER_SPAN, parse_headers};
use memchr::memmem::find;

// The name of the part that is the document.
const DOCUMENT_NAME: &[u8] = b"\"xml_submission_file\"";

// The bytes behind this front.
fn behind_front<'a>(bytes: &'a [u8], start: &[u8]) -> Option<&'a [u8]>
    ensures { MatchOption result ((rest : List ℕ) → bytes.now ≢ start.now ++ rest)
        (λ rest. bytes.now ≡ start.now ++ rest.now) }
{
    bytes.strip_prefix(start)
}

fn is_document_name(name: Option<&[u8]>) -> bool
    ensures { result ≡ spec.is_document_name (option_copied name.entry) }
{
    match name {
        Some(name) => name == DOCUMENT_NAME,
        None => false,
    }
}

// Whether the first Content-Disposition names the document.
fn is_document_head(fields: &FieldList<'_>) -> bool
    ensures { result ≡ spec.is_document_head fields.now }
{
    match fields.first(b"content-disposition") {
        Some(value) => is_document_name(parameter(value, b"name=")),
        None => false,
    }
}

// What stands behind the head of a part that is the document.
fn content_of(part: &[u8]) -> Option<&[u8]>
    ensures { IsOneOrNone (HasContent part.now) (option_copied result) }
{
    let mut spans = [EMPTY_HEADER_SPAN; MOST_FIELDS];
    match parse_headers(part, &mut spans) {
        Ok(Status::Complete((len, count))) => {
            if is_document_head(&FieldList::new(part, &spans[..count])) {
                return Some(behind(part, len));
            }
            None
        }
        Ok(Status::Partial) => None,
        Err(_) => None,
    }
}

fn is_last_tail(tail: &[u8]) -> bool
    ensures { result ≡ spec.is_last_tail tail.now }
{
    tail == b"--".as_slice() || tail == b"--\r\n".as_slice()
}

// The document up to the first delimiter, where that ends the last part.
fn document_of<'a>(content: &'a [u8], ending: &[u8]) -> Option<&'a [u8]>
    ensures { IsOneOrNone (IsClosed ending.now content.now) (option_copied result) }
{
    let Some(at) = find(content, ending) else {
        return None;
    };
    if is_last_tail(behind(content, at + ending.len())) {
        return Some(front(content, at));
    }
    None
}

/// The document in a body whose first part begins behind `opening` and ends before `ending`.
pub(crate) fn document_in<'a>(body: &'a [u8], opening: &[u8], ending: &[u8]) -> Option<&'a [u8]>
    ensures { IsOneOrNone (HasPart opening.now ending.now body.now) (option_copied result) }
{
    let Some(part) = behind_front(body, opening) else {
        return None;
    };
    let Some(content) = content_of(part) else {
        return None;
    };
    document_of(content, ending)
}
