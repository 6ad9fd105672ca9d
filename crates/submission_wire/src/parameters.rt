//! Parameters of a field's value (RFC 9110, section 5.6.6).
ghost use Rattle.std.specs.Prelude.{◌≡◌, ◌≤◌, length, option_copied};
ghost use Rattle.std.specs.Str.{str_eq_ignore_ascii_case};
ghost use Rattle.submission_wire.specs.Parameters as spec;

use crate::trim::trimmed;
use http_request::cut::{behind, front};

/// Where a byte of a value stands.
#[derive(Clone, Copy, Debug, PartialEq, Eq)]
pub(crate) enum Place {
    /// Outside quotes.
    Bare,
    /// Inside quotes.
    Quoted,
    /// Inside quotes, behind a backslash.
    Escaped,
}

impl Place {
    fn behind(self, byte: u8) -> Place
        ensures { result ≡ spec.place_behind self byte }
    {
        match self {
            Place::Bare if byte == b'"' => Place::Quoted,
            Place::Bare => Place::Bare,
            Place::Quoted if byte == b'"' => Place::Bare,
            Place::Quoted if byte == b'\\' => Place::Escaped,
            Place::Quoted | Place::Escaped => Place::Quoted,
        }
    }

    fn is_cut_by(self, byte: u8) -> bool
        ensures { result ≡ spec.ends_piece self byte }
    {
        match self {
            Place::Bare => byte == b';',
            Place::Quoted | Place::Escaped => false,
        }
    }
}

// How long the piece at the front is, up to the first semicolon outside quotes.
fn piece_len(value: &[u8]) -> usize
    ensures value { result ≡ spec.piece_len Place.Bare value.now }
    ensures within { result ≤ length value.now }
{
    let mut len = 0;
    let mut place = Place::Bare;
    let mut rest = value;
    'bytes: while let Some((byte, others)) = rest.split_first() {
        if place.is_cut_by(*byte) {
            return len;
        }
        place = place.behind(*byte);
        len += 1;
        rest = others;
    }
    len
}

/// What a value names, in front of its parameters.
pub(crate) fn kind_of(value: &[u8]) -> &[u8]
    ensures { result.now ≡ spec.kind_of value.now }
{
    trimmed(front(value, piece_len(value)))
}

// Whether the two are equal in any case of ASCII letters.
fn is_same_word(bytes: &[u8], word: &[u8]) -> bool
    ensures { result ≡ str_eq_ignore_ascii_case bytes.now word.now }
{
    bytes.eq_ignore_ascii_case(word)
}

fn behind_name<'a>(piece: &'a [u8], name: &[u8]) -> Option<&'a [u8]>
    ensures { option_copied result ≡ spec.behind_name name.now piece.now }
{
    if name.len() <= piece.len() && is_same_word(front(piece, name.len()), name) {
        return Some(behind(piece, name.len()));
    }
    None
}

/// The value of the first parameter with this name, which is given with its `=`.
pub(crate) fn parameter<'a>(value: &'a [u8], name: &[u8]) -> Option<&'a [u8]>
    ensures { option_copied result ≡ spec.parameter name.now value.now }
{
    let mut rest = behind(value, piece_len(value));
    'pieces: while let Some((_, others)) = rest.split_first() {
        let len = piece_len(others);
        if let Some(found) = behind_name(trimmed(front(others, len)), name) {
            return Some(found);
        }
        rest = behind(others, len);
    }
    None
}

fn is_quoted(value: &[u8]) -> bool
    ensures { result ≡ spec.is_quoted value.now }
{
    2 <= value.len() && value[0] == b'"' && value[value.len() - 1] == b'"'
}

fn unquoted(value: &[u8]) -> &[u8]
    ensures { result.now ≡ spec.unquoted value.now }
{
    if is_quoted(value) {
        return &value[1..value.len() - 1];
    }
    value
}

/// The boundary of a content type that is a form of several parts.
pub(crate) fn form_boundary(content_type: &[u8]) -> Option<&[u8]>
    ensures { option_copied result ≡ spec.form_boundary content_type.now }
{
    if !is_same_word(kind_of(content_type), b"multipart/form-data") {
        return None;
    }
    let Some(value) = parameter(content_type, b"boundary=") else {
        return None;
    };
    let boundary = unquoted(value);
    if boundary.is_empty() {
        None
    } else {
        Some(boundary)
    }
}
