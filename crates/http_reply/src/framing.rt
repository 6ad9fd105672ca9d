ghost use Rattle.std.specs.Prelude.{◌≡◌};
ghost use Rattle.http_reply.specs.Fields.{first_value, content_length};
ghost use Rattle.http_reply.specs.Framings as spec;

use crate::fields::FieldList;
use field_text::read_decimal;

/// A Content-Length must be below this.
const LENGTH_LIMIT: u64 = 1_000_000_000_000_000_000;

const TRANSFER_ENCODING: &[u8] = b"transfer-encoding";

const CONTENT_LENGTH: &[u8] = b"content-length";

const CONTENT_ENCODING: &[u8] = b"content-encoding";

/// How the body of a message is cut from the bytes behind its head.
#[derive(Clone, Copy, Debug, PartialEq, Eq)]
pub enum Framing {
    /// The fields contradict each other, or name a coding that isn't known.
    Wrong,
    Nothing,
    Chunked,
    Length(u64),
    /// To the end of the connection.
    ToEnd,
}

impl Framing {
    ghost use Rattle.http_reply.specs.Replies.{has_own_end};

    /// Whether the framing says where the reply ends, and not the end of the connection.
    pub(crate) fn has_own_end(self) -> bool
        ensures { result ≡ has_own_end self }
    {
        match self {
            Framing::ToEnd => false,
            Framing::Wrong | Framing::Nothing | Framing::Chunked | Framing::Length(_) => true,
        }
    }
}

/// The value of a Content-Length: a decimal below 10^18 without leading zeros (RFC 9110, section 8.6, is wider).
pub fn read_length(bytes: &[u8]) -> Option<u64>
    ensures { result ≡ spec.length_value bytes.now }
{
    match read_decimal(bytes) {
        Some(length) if length < LENGTH_LIMIT => Some(length),
        _ => None,
    }
}

/// The framing by the fields of Content-Length alone.
pub fn stated_framing(fields: &FieldList<'_>) -> Framing
    ensures { result ≡ spec.stated_framing fields.now (first_value content_length fields.now) }
{
    match fields.first(CONTENT_LENGTH) {
        None => Framing::ToEnd,
        Some(value) if fields.each_is(CONTENT_LENGTH, value) => match read_length(value) {
            Some(length) => Framing::Length(length),
            None => Framing::Wrong,
        },
        Some(_) => Framing::Wrong,
    }
}

// The framing of a message whose codings are right.
fn body_framing(fields: &FieldList<'_>) -> Framing
    ensures { result ≡ spec.body_framing fields.now }
{
    if fields.count(TRANSFER_ENCODING) == 0 {
        return stated_framing(fields);
    }
    if fields.count(TRANSFER_ENCODING) == 1
        && fields.each_is(TRANSFER_ENCODING, b"chunked")
        && fields.count(CONTENT_LENGTH) == 0
    {
        return Framing::Chunked;
    }
    Framing::Wrong
}

/// The framing of a reply with this status.
pub(crate) fn reply_framing(status: u16, fields: &FieldList<'_>) -> Framing
    ensures { result ≡ spec.reply_framing status fields.now }
{
    if !fields.each_is(CONTENT_ENCODING, b"identity") {
        return Framing::Wrong;
    }
    match body_framing(fields) {
        Framing::Wrong => Framing::Wrong,
        _ if status == 204 || status == 304 => Framing::Nothing,
        framing => framing,
    }
}
