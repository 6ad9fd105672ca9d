//! The document that a request submits.
ghost use Rattle.std.specs.Prelude.{◌≡◌, IfOk, bytes_eq, codes, option_copied};
ghost use Rattle.submission_wire.specs.Parts as spec;
ghost use Rattle.submission_wire.specs.Submissions.{Submits};

use crate::parameters::form_boundary;
use crate::part::document_in;
use field_text::{Blob, NoMemory, Text};
use http_request::Request;
use std::alloc::Global;

fn is_post(method: &Text) -> bool
    ensures { result ≡ bytes_eq method.now (codes "POST") }
{
    method.as_str() == "POST"
}

// The line that opens the first part.
fn first_delimiter(alloc: Global, boundary: &[u8]) -> Result<Vec<u8>, NoMemory>
    ensures { IfOk result (λ line. line.items ≡ spec.first_delimiter boundary.now) }
{
    let mut line = Vec::from_slice(alloc, b"--")?;
    line.extend_from_slice(boundary)?;
    line.extend_from_slice(b"\r\n")?;
    Ok(line)
}

// What ends a part.
fn delimiter(alloc: Global, boundary: &[u8]) -> Result<Vec<u8>, NoMemory>
    ensures { IfOk result (λ bytes. bytes.items ≡ spec.delimiter boundary.now) }
{
    let mut bytes = Vec::from_slice(alloc, b"\r\n--")?;
    bytes.extend_from_slice(boundary)?;
    Ok(bytes)
}

fn copied(alloc: Global, bytes: Option<&[u8]>) -> Result<Option<Blob>, NoMemory>
    ensures { IfOk result (λ blob. blob ≡ option_copied bytes.entry) }
{
    match bytes {
        Some(bytes) => Ok(Some(Blob::from_bytes(alloc, bytes)?)),
        None => Ok(None),
    }
}

/// The document that a request submits: a POST of a `multipart/form-data` whose body is one part named
/// `xml_submission_file`, up to the first delimiter of its boundary (RFC 7578). None for any other request.
pub fn read_submission(alloc: Global, request: &Request) -> Result<Option<Blob>, NoMemory>
    ensures { IfOk result (Submits request.now) }
{
    if !is_post(&request.method) {
        return Ok(None);
    }
    let Some(boundary) = form_boundary(request.content_type.bytes()) else {
        return Ok(None);
    };
    let opening = first_delimiter(alloc, boundary)?;
    let ending = delimiter(alloc, boundary)?;
    copied(alloc, document_in(request.body.bytes(), &opening, &ending))
}
