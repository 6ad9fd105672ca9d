ghost use Rattle.std.specs.Prelude.{◌≡◌, IfOk, encode_utf8_all};
ghost use Rattle.field_text.specs.Xml.{is_xml_space as space, is_name_char as name_char};
ghost use Rattle.rosa_pieces.specs.Pieces.{is_no_semicolon as no_semicolon};
ghost use Rattle.rosa_pieces.specs.Reading.{Gives, front, past, past_one};

use crate::Unread;
use field_text::xml::{is_name_char, is_xml_space};
use field_text::{NoMemory, Text};
use std::alloc::Global;

/// The text of these characters.
pub fn text_of(alloc: Global, chars: &[char]) -> Result<Text, NoMemory>
    ensures { IfOk result (λ text. text ≡ encode_utf8_all chars.now) }
{
    let mut text = String::new(alloc);
    for c in chars {
        text.push(*c)?;
    }
    Ok(Text::from_string(text))
}

/// What follows the white space at the front.
pub fn past_spaces(chars: &[char]) -> &[char]
    ensures { result.now ≡ past space chars.now }
{
    let mut rest = chars;
    while let [c, after @ ..] = rest {
        if !is_xml_space(*c) {
            break;
        }
        rest = after;
    }
    rest
}

/// What follows the characters of a name at the front.
fn past_name(chars: &[char]) -> &[char]
    ensures { result.now ≡ past name_char chars.now }
{
    let mut rest = chars;
    while let [c, after @ ..] = rest {
        if !is_name_char(*c) {
            break;
        }
        rest = after;
    }
    rest
}

/// What follows the characters at the front that are no semicolon.
fn past_no_semicolon(chars: &[char]) -> &[char]
    ensures { result.now ≡ past no_semicolon chars.now }
{
    let mut rest = chars;
    while let [c, after @ ..] = rest {
        if *c == ';' {
            break;
        }
        rest = after;
    }
    rest
}

/// The characters of a name at the front, and what follows them.
pub fn split_name(chars: &[char]) -> (&[char], &[char])
    ensures front { result.0.now ≡ front name_char chars.now }
    ensures rest { result.1.now ≡ past name_char chars.now }
{
    let rest = past_name(chars);
    (&chars[..chars.len() - rest.len()], rest)
}

/// The characters before the first semicolon, and the rest.
pub fn split_semicolon(chars: &[char]) -> (&[char], &[char])
    ensures front { result.0.now ≡ front no_semicolon chars.now }
    ensures rest { result.1.now ≡ past no_semicolon chars.now }
{
    let rest = past_no_semicolon(chars);
    (&chars[..chars.len() - rest.len()], rest)
}

/// What follows this character at the front.
pub fn past_one(c: char, chars: &[char]) -> Result<&[char], Unread>
    ensures { Gives (λ rest. rest.now) result (past_one c chars.now) }
{
    match chars {
        [d, rest @ ..] if *d == c => Ok(rest),
        _ => Err(Unread::Absent),
    }
}
