//! Requests as they are read.
ghost use Rattle.std.specs.Prelude.{◌≡◌, IfOk};
ghost use Rattle.http_request.specs.Requests as spec;
ghost use Rattle.http_request.specs.Requests.{ReadsAs};

use crate::cut::behind;
use crate::parts::{content_type, has_length, text_of};
use field_text::{Blob, NoMemory, Text};
use http_reply::fields::FieldList;
use httparse::Status;
use httparse::spans::{EMPTY_HEADER_SPAN, parse_request};
use std::alloc::Global;

/// A head with more fields isn't read.
pub const MOST_FIELDS: usize = 64;

/// A request: what is asked for, and what is sent along.
#[derive(Debug, Drop)]
pub struct Request {
    pub method: Text,
    pub target: Text,
    /// The value of the first Content-Type, empty without one.
    pub content_type: Text,
    pub body: Blob,
}

// The request of these parts, where the first three are texts.
fn with_texts(
    alloc: Global,
    method: &[u8],
    target: &[u8],
    content_type: &[u8],
    body: &[u8],
) -> Result<Option<Request>, NoMemory>
    ensures { IfOk result (λ request. request ≡ spec.with_texts method.now target.now content_type.now body.now) }
{
    let Some(method) = text_of(alloc, method)? else {
        return Ok(None);
    };
    let Some(target) = text_of(alloc, target)? else {
        return Ok(None);
    };
    let Some(content_type) = text_of(alloc, content_type)? else {
        return Ok(None);
    };
    Ok(Some(Request {
        method,
        target,
        content_type,
        body: Blob::from_bytes(alloc, body)?,
    }))
}

// The request with this head, where this body has the length that the head states.
fn with_body(
    alloc: Global,
    method: &[u8],
    target: &[u8],
    fields: &FieldList<'_>,
    body: &[u8],
) -> Result<Option<Request>, NoMemory>
    ensures { IfOk result (λ request. request ≡ spec.with_body method.now target.now fields.now body.now) }
{
    if !has_length(fields, body.len()) {
        return Ok(None);
    }
    with_texts(alloc, method, target, content_type(fields), body)
}

/// The request that these bytes are: a head of at most 64 fields, and a body of its Content-Length, or of no bytes
/// without one (RFC 9112, section 6.3). A Transfer-Encoding isn't looked at. None where they are no such request, where
/// bytes stand behind it, or where its content type isn't UTF-8.
pub fn read_request(alloc: Global, bytes: &[u8]) -> Result<Option<Request>, NoMemory>
    ensures { IfOk result (ReadsAs bytes.now) }
{
    let mut spans = [EMPTY_HEADER_SPAN; MOST_FIELDS];
    match parse_request(bytes, &mut spans) {
        Ok(Status::Complete(found)) => {
            let fields = FieldList::new(bytes, &spans[..found.headers]);
            let method = found.method.of(bytes);
            let target = found.path.of(bytes);
            with_body(alloc, method, target, &fields, behind(bytes, found.len))
        }
        Ok(Status::Partial) => Ok(None),
        Err(_) => Ok(None),
    }
}
