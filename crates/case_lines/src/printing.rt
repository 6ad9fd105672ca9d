ghost use Rattle.std.specs.Prelude.{◌≡◌, ◌++◌, IfOk, OnOk, take, string_bytes};
ghost use Rattle.std.specs.List.{flat_map};
ghost use Rattle.std.specs.Str.{chars as chars_of};
ghost use Rattle.case_lines.specs.Lines.{printed_char, printed, length_told, shown};

use crate::pieces::push_number;
use std::alloc::{AllocError, Global};

/// How many characters of a long text are printed.
const SHOWN: usize = 200;

fn chars_of(alloc: Global, text: &str) -> Result<Vec<char>, AllocError>
    ensures { IfOk result (λ chars. chars.items ≡ chars_of text.now) }
{
    text.chars().collect(alloc)
}

/// The characters of a long text that are printed.
fn front(chars: &[char]) -> &[char]
    ensures { result.now ≡ take shown chars.now }
{
    if chars.len() > SHOWN {
        &chars[..SHOWN]
    } else {
        chars
    }
}

fn push_char(c: char, out: &mut String) -> Result<(), AllocError>
    ensures { OnOk result (string_bytes out.new ≡ string_bytes out.old ++ printed_char c) }
{
    match c {
        '\n' => out.push_str("\\n"),
        '\r' => out.push_str("\\r"),
        '\t' => out.push_str("\\t"),
        '\\' => out.push_str("\\\\"),
        _ => out.push(c),
    }
}

fn push_chars(chars: &[char], out: &mut String) -> Result<(), AllocError>
    ensures { OnOk result (string_bytes out.new ≡ string_bytes out.old ++ flat_map printed_char chars.now) }
{
    let mut rest = chars;
    while let Some((c, others)) = rest.split_first() {
        push_char(*c, out)?;
        rest = others;
    }
    Ok(())
}

fn push_length(text: &str, out: &mut String) -> Result<(), AllocError>
    ensures { OnOk result (string_bytes out.new ≡ string_bytes out.old ++ length_told text.now) }
{
    if text.len() > SHOWN {
        out.push_str(".. ")?;
        push_number(out, text.len() as u64)?;
        out.push_str(" bytes")?;
    }
    Ok(())
}

/// A text as it is printed on one line, with the escapes of line feeds, carriage returns, tabs and backslashes. Of one
/// with more than 200 bytes the first 200 characters, and how many bytes it has.
pub fn printed(alloc: Global, text: &str) -> Result<String, AllocError>
    ensures { IfOk result (λ line. string_bytes line ≡ printed text.now) }
{
    let chars = chars_of(alloc, text)?;
    let mut out = String::new(alloc);
    push_chars(front(chars.as_slice()), &mut out)?;
    push_length(text, &mut out)?;
    Ok(out)
}
