ghost use Rattle.std.specs.Prelude.{◌≡◌, ◌++◌, OnOk, OnErr, length, take, encode_utf8};
ghost use Rattle.std.specs.List.{flat_map};
ghost use Rattle.std.specs.Str.{chars};
ghost use Rattle.rosa_doc.specs.Escapes.{in_text, in_value};

use field_text::xml::xml_char_of;
use field_text::{NoMemory, Text};

/// Appends the text as it stands between tags. After want of memory `out` is as it was.
pub fn write_text(text: &Text, out: &mut Vec<u8>) -> Result<(), NoMemory>
    ensures ok { OnOk result (out.new.items ≡ out.old.items ++ flat_map in_text (chars text.now)) }
    ensures err { OnErr result (out.new.items ≡ out.old.items) }
{
    let len = out.len();
    let written = push_text(text, out);
    or_cut(written, len, out)
}

/// Appends the text as it stands in an attribute's value between double quotes. After want of memory `out` is as it
/// was.
pub fn write_attr(text: &Text, out: &mut Vec<u8>) -> Result<(), NoMemory>
    ensures ok { OnOk result (out.new.items ≡ out.old.items ++ flat_map in_value (chars text.now)) }
    ensures err { OnErr result (out.new.items ≡ out.old.items) }
{
    let len = out.len();
    let written = push_value(text, out);
    or_cut(written, len, out)
}

/// What was written, or `out` cut to its length before.
fn or_cut(written: Result<(), NoMemory>, len: usize, out: &mut Vec<u8>) -> Result<(), NoMemory>
    ensures same { result ≡ written }
    ensures ok { OnOk result (out.new.items ≡ out.old.items) }
    ensures err { OnErr result (out.new.items ≡ take len out.old.items) }
{
    if written.is_err() {
        out.truncate(len);
    }
    written
}

fn push_text(text: &Text, out: &mut Vec<u8>) -> Result<(), NoMemory>
    ensures ok { OnOk result (out.new.items ≡ out.old.items ++ flat_map in_text (chars text.now)) }
    ensures err { OnErr result (take (length out.old.items) out.new.items ≡ out.old.items) }
{
    for c in text.as_str().chars() {
        push_in_text(c, out)?;
    }
    Ok(())
}

fn push_value(text: &Text, out: &mut Vec<u8>) -> Result<(), NoMemory>
    ensures ok { OnOk result (out.new.items ≡ out.old.items ++ flat_map in_value (chars text.now)) }
    ensures err { OnErr result (take (length out.old.items) out.new.items ≡ out.old.items) }
{
    for c in text.as_str().chars() {
        push_in_value(c, out)?;
    }
    Ok(())
}

fn push_in_text(c: char, out: &mut Vec<u8>) -> Result<(), NoMemory>
    ensures ok { OnOk result (out.new.items ≡ out.old.items ++ in_text c) }
    ensures err { OnErr result (out.new.items ≡ out.old.items) }
{
    match c {
        '&' => out.extend_from_slice(b"&amp;")?,
        '<' => out.extend_from_slice(b"&lt;")?,
        '>' => out.extend_from_slice(b"&gt;")?,
        '\r' => out.extend_from_slice(b"&#13;")?,
        _ => push_char(xml_char_of(c), out)?,
    }
    Ok(())
}

fn push_in_value(c: char, out: &mut Vec<u8>) -> Result<(), NoMemory>
    ensures ok { OnOk result (out.new.items ≡ out.old.items ++ in_value c) }
    ensures err { OnErr result (out.new.items ≡ out.old.items) }
{
    match c {
        '"' => out.extend_from_slice(b"&quot;")?,
        '\t' => out.extend_from_slice(b"&#9;")?,
        '\n' => out.extend_from_slice(b"&#10;")?,
        _ => push_in_text(c, out)?,
    }
    Ok(())
}

/// Appends the UTF-8 of a character.
fn push_char(c: char, out: &mut Vec<u8>) -> Result<(), NoMemory>
    ensures ok { OnOk result (out.new.items ≡ out.old.items ++ encode_utf8 c) }
    ensures err { OnErr result (out.new.items ≡ out.old.items) }
{
    let mut buffer = [0; 4];
    out.extend_from_slice(c.encode_utf8(&mut buffer).as_bytes())?;
    Ok(())
}
