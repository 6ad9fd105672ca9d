ghost use Rattle.std.specs.Prelude.{◌≡◌, ◌++◌, ◌∷◌, [], ◌<◌, ◌^◌, ℕ, List, length, take, OnOk, OnErr, IsTrue, All};
ghost use Rattle.std.specs.Prelude.{Some};
ghost use Rattle.std.specs.List.{flat_map, list_all};
ghost use Rattle.std.specs.Char.{digit_char};
ghost use Rattle.collect_text.specs.Words.{is_bare, words_of};
ghost use Rattle.collect_text.specs.Printed.{is_bare_word, escape, printed_text, printed_words, IsLegible};

use crate::word::is_bare;
use field_text::{NoMemory, Text};

// A hexadecimal digit in lower case.
fn hex_digit(value: u8) -> u8
    requires { value < 16 }
    ensures { result ≡ digit_char value }
{
    if value < 10 {
        b'0' + value
    } else {
        b'a' + (value - 10)
    }
}

// A byte between quotes, at the end.
fn push_escaped(byte: u8, out: &mut Vec<u8>) -> Result<(), NoMemory>
    ensures ok { OnOk result (out.new.items ≡ out.old.items ++ escape byte) }
    ensures err { OnErr result (out.new.items ≡ out.old.items) }
{
    match byte {
        b'\\' => out.extend_from_slice(b"\\\\")?,
        b'"' => out.extend_from_slice(b"\\\"")?,
        b'\n' => out.extend_from_slice(b"\\n")?,
        b'\r' => out.extend_from_slice(b"\\r")?,
        b'\t' => out.extend_from_slice(b"\\t")?,
        0..b' ' => out.extend_from_slice(&[
            b'\\',
            b'x',
            hex_digit(byte / 16),
            hex_digit(byte % 16),
        ])?,
        _ => out.push(byte)?,
    }
    Ok(())
}

// A text between quotes, at the end; what was there before stays.
fn push_quoted(text: &[u8], out: &mut Vec<u8>) -> Result<(), NoMemory>
    ensures ok { OnOk result (out.new.items ≡ out.old.items ++ 34 ∷ flat_map escape text.now ++ 34 ∷ []) }
    ensures err { OnErr result (take (length out.old.items) out.new.items ≡ out.old.items) }
{
    out.push(b'"')?;
    for byte in text {
        push_escaped(*byte, out)?;
    }
    out.push(b'"')?;
    Ok(())
}

fn all_bare(text: &[u8]) -> bool
    ensures { result ≡ list_all is_bare text.now }
{
    text.iter().all(|byte| is_bare(*byte))
}

// Whether a text is a bare word.
fn is_bare_word(text: &[u8]) -> bool
    ensures { result ≡ is_bare_word text.now }
{
    !text.is_empty() && all_bare(text)
}

// Appends the bytes of a text as they are printed; what was there before stays.
pub(crate) fn print_bytes(text: &[u8], out: &mut Vec<u8>) -> Result<(), NoMemory>
    ensures ok { OnOk result (out.new.items ≡ out.old.items ++ printed_text text.now) }
    ensures err { OnErr result (out.new.items ≡ out.old.items) }
{
    if is_bare_word(text) {
        out.extend_from_slice(text)?;
        return Ok(());
    }
    let len = out.len();
    let printed = push_quoted(text, out);
    if printed.is_err() {
        out.truncate(len);
    }
    printed
}

/// Appends a text as it is printed in a line: bare where it is a bare word, else between quotes.
/// After want of memory `out` is as it was.
pub fn print_text(text: &Text, out: &mut Vec<u8>) -> Result<(), NoMemory>
    ensures ok { OnOk result (out.new.items ≡ out.old.items ++ printed_text text.now) }
    ensures err { OnErr result (out.new.items ≡ out.old.items) }
{
    print_bytes(text.bytes(), out)
}

/// Texts without control bytes but the line feed, the carriage return and the tab are read as they were printed.
pub fn printed_words_are_read()
    ensures { (texts : List (List ℕ)) → All IsLegible texts → words_of (printed_words texts) ≡ Some texts }
{}
