//! Replies as bytes.
ghost use Rattle.std.specs.Prelude.{◌≡◌, ◌++◌, IfOk, OnOk};
ghost use Rattle.rosa_box.specs.Answers as spec;

use field_text::{Blob, NoMemory, decimal_text};
use http_wire::{write_closing, write_field};
use std::alloc::Global;

/// How a request fared (RFC 9110, section 15).
#[derive(Clone, Copy, Debug, PartialEq, Eq)]
pub(crate) enum Status {
    Created,
    BadRequest,
    NotFound,
    MethodNotAllowed,
    Conflict,
}

impl Status {
    fn line(self) -> &'static str
        ensures { result.now ≡ spec.status_line self }
    {
        match self {
            Status::Created => "HTTP/1.1 201 Created\r\n",
            Status::BadRequest => "HTTP/1.1 400 Bad Request\r\n",
            Status::NotFound => "HTTP/1.1 404 Not Found\r\n",
            Status::MethodNotAllowed => "HTTP/1.1 405 Method Not Allowed\r\n",
            Status::Conflict => "HTTP/1.1 409 Conflict\r\n",
        }
    }

    fn body(self) -> &'static str
        ensures { result.now ≡ spec.body self }
    {
        match self {
            Status::Created => {
                "<OpenRosaResponse xmlns=\"http://openrosa.org/http/response\">\
                 <message>accepted</message></OpenRosaResponse>"
            }
            Status::BadRequest | Status::NotFound | Status::MethodNotAllowed | Status::Conflict =>
                "",
        }
    }
}

#[tactic(auto, unfolding(crate::specs::Answers::reply_fields))]
fn write_fields(alloc: Global, length: usize, out: &mut Vec<u8>) -> Result<(), NoMemory>
    ensures { OnOk result (out.new.items ≡ out.old.items ++ spec.reply_fields length) }
{
    let digits = decimal_text(alloc, length as u64)?;
    write_field("X-OpenRosa-Version", b"1.0", out)?;
    write_field("Content-Type", b"text/xml", out)?;
    write_field("Content-Length", digits.bytes(), out)?;
    write_closing(out)
}

/// The reply of this status.
pub(crate) fn reply_text(alloc: Global, status: Status) -> Result<Blob, NoMemory>
    ensures { IfOk result (λ reply. reply ≡ spec.reply_text status) }
{
    let body = status.body();
    let mut reply = Vec::from_slice(alloc, status.line().as_bytes())?;
    write_fields(alloc, body.len(), &mut reply)?;
    reply.extend_from_slice(body.as_bytes())?;
    Ok(Blob::from_vec(reply))
}
