//! The fields of a head, by their names.
ghost use Rattle.std.specs.Prelude.{◌≡◌, length, option_copied, map, All};
ghost use Rattle.httparse.specs.Spans.{header_bytes, IsHeaderWithin};
ghost use Rattle.std.specs.Str.{str_eq_ignore_ascii_case};
ghost use Rattle.http_reply.specs.Fields as spec;

use httparse::spans::HeaderSpan;
use std::marker::Model;

/// The fields of a head in these bytes, seen as names and values in order.
#[derive(Drop)]
pub struct FieldList<'a> {
    bytes: &'a [u8],
    spans: &'a [HeaderSpan],
}

impl<'a> Model for FieldList<'a> {
    ghost use Rattle.std.specs.Prelude.{List, ℕ, map, length, All};
    ghost use Rattle.httparse.specs.Spans.{header_bytes, IsHeaderWithin};

    ghost Value = { List (List ℕ × List ℕ) };

    ghost view = { λ f. map (header_bytes f.bytes.now) f.spans.now };

    ghost invariant = { λ f. All (IsHeaderWithin (length f.bytes.now)) f.spans.now };
}

impl<'a> FieldList<'a> {
    pub fn new(bytes: &'a [u8], spans: &'a [HeaderSpan]) -> FieldList<'a>
        requires { All (IsHeaderWithin (length bytes.now)) spans.now }
        ensures { result ≡ map (header_bytes bytes.now) spans.now }
    {
        FieldList { bytes, spans }
    }

    pub fn len(&self) -> usize
        ensures { result ≡ length self.now }
    {
        self.spans.len()
    }

    /// How many fields have the name.
    pub fn count(&self, name: &[u8]) -> usize
        ensures { result ≡ spec.field_count name.now self.now }
    {
        let mut count = 0;
        let mut rest = self.spans;
        while let Some((field, others)) = rest.split_first() {
            if is_named(self.bytes, field, name) {
                count += 1;
            }
            rest = others;
        }
        count
    }

    /// The value of the first field of the name.
    pub fn first(&self, name: &[u8]) -> Option<&'a [u8]>
        ensures { option_copied result ≡ spec.first_value name.now self.now }
    {
        let mut rest = self.spans;
        while let Some((field, others)) = rest.split_first() {
            if is_named(self.bytes, field, name) {
                return Some(field.value.of(self.bytes));
            }
            rest = others;
        }
        None
    }

    /// Whether each field of the name has this value, in any case of letters.
    pub fn each_is(&self, name: &[u8], value: &[u8]) -> bool
        ensures { result ≡ spec.each_value name.now value.now self.now }
    {
        let mut rest = self.spans;
        while let Some((field, others)) = rest.split_first() {
            if !has_value_if_named(self.bytes, field, name, value) {
                return false;
            }
            rest = others;
        }
        true
    }
}

// Whether the bytes are equal in any case of ASCII letters.
fn is_same_word(bytes: &[u8], word: &[u8]) -> bool
    ensures { result ≡ str_eq_ignore_ascii_case bytes.now word.now }
{
    bytes.eq_ignore_ascii_case(word)
}

/// Whether a field of a head in these bytes has the name.
pub fn is_named(bytes: &[u8], field: &HeaderSpan, name: &[u8]) -> bool
    requires { IsHeaderWithin (length bytes.now) field.now }
    ensures { result ≡ spec.is_named name.now (header_bytes bytes.now field.now) }
{
    is_same_word(field.name.of(bytes), name)
}

// Whether the field has another name, or this value.
fn has_value_if_named(bytes: &[u8], field: &HeaderSpan, name: &[u8], value: &[u8]) -> bool
    requires { IsHeaderWithin (length bytes.now) field.now }
    ensures { result ≡ spec.has_value_if_named name.now value.now (header_bytes bytes.now field.now) }
{
    !is_named(bytes, field, name) || is_same_word(field.value.of(bytes), value)
}
