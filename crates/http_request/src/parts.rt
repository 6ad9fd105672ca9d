//! Parts of a request.
ghost use Rattle.std.specs.Prelude.{◌≡◌, IfOk};
ghost use Rattle.http_request.specs.Requests as spec;

use field_text::{NoMemory, Text, TextRefused};
use http_reply::fields::FieldList;
use http_reply::{Framing, stated_framing};
use std::alloc::Global;

const CONTENT_TYPE: &[u8] = b"content-type";

/// The text of these bytes, if they are one.
pub(crate) fn text_of(alloc: Global, bytes: &[u8]) -> Result<Option<Text>, NoMemory>
    ensures { IfOk result (λ text. text ≡ spec.text_of bytes.now) }
{
    match Text::from_bytes(alloc, bytes) {
        Ok(text) => Ok(Some(text)),
        Err(TextRefused::NotUtf8 { .. }) => Ok(None),
        Err(TextRefused::NoMemory) => Err(NoMemory),
    }
}

/// Whether a body of so many bytes is what the fields state.
pub(crate) fn has_length(fields: &FieldList<'_>, size: usize) -> bool
    ensures { result ≡ spec.has_length size (spec.body_length fields.now) }
{
    match stated_framing(fields) {
        Framing::ToEnd => size == 0,
        Framing::Length(length) => size as u64 == length,
        Framing::Wrong | Framing::Nothing | Framing::Chunked => false,
    }
}

/// The value of the first Content-Type, empty without one.
pub(crate) fn content_type<'a>(fields: &FieldList<'a>) -> &'a [u8]
    ensures { result.now ≡ spec.content_type fields.now }
{
    match fields.first(CONTENT_TYPE) {
        Some(value) => value,
        None => b"",
    }
}
