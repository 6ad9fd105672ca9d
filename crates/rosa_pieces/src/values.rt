ghost use Rattle.std.specs.Prelude.{◌≡◌, ◌≤◌, ◌++◌, MatchOption, IfOk, OnOk, min, nat_lt, true, false, Some, None};
ghost use Rattle.std.specs.Prelude.{if◌then◌else◌, length, option_map, encode_utf8_all, string_bytes};
ghost use Rattle.std.specs.Char.{digit_value};
ghost use Rattle.std.specs.List.{list_all};
ghost use Rattle.field_text.specs.Xml.{is_xml_char as xml_char};
ghost use Rattle.rosa_pieces.specs.Pieces.{number, numbered, numeric, named, referenced, is_literal as literal};
ghost use Rattle.rosa_pieces.specs.Pieces.{read_value, read_value_char};
ghost use Rattle.rosa_pieces.specs.Reading.{Gives, cuts, reference_at, data_at, value_char_at, quoted_at, value_at};

use crate::front::{past_one, split_semicolon};
use crate::{CharData, Unread};
use field_text::xml::{is_xml_char, is_xml_space};
use field_text::{NoMemory, Text};
use std::alloc::Global;

/// The number that the digits spell, or 0x110000 for a greater one.
fn code_of(base: u32, digits: &[char]) -> Option<u32>
    requires low { 2 ≤ base }
    requires high { base ≤ 16 }
    ensures { MatchOption result (list_all (λ c. nat_lt (digit_value c) base) digits.now ≡ false)
        (λ code. (list_all (λ c. nat_lt (digit_value c) base) digits.now ≡ true)
        × (code ≡ min (number base digits.now) 0x110000)) }
{
    let mut code: u32 = 0;
    for c in digits {
        let digit = c.to_digit(base)?;
        code = (code * base + digit).min(0x11_0000);
    }
    Some(code)
}

/// The character of a code, if a document may hold it.
fn allowed(code: u32) -> Option<char>
    ensures { result ≡ (if xml_char code then Some code else None) }
{
    match char::from_u32(code) {
        Some(c) if is_xml_char(c) => Some(c),
        _ => None,
    }
}

/// The character of a number in base 10 or 16, if a document may hold it.
fn numbered(base: u32, digits: &[char]) -> Option<char>
    requires low { 2 ≤ base }
    requires high { base ≤ 16 }
    ensures { result ≡ numbered base digits.now }
{
    if digits.is_empty() {
        return None;
    }
    match code_of(base, digits) {
        Some(code) => allowed(code),
        None => None,
    }
}

fn numeric(inside: &[char]) -> Option<char>
    ensures { result ≡ numeric inside.now }
{
    match inside {
        ['x', digits @ ..] => numbered(16, digits),
        digits => numbered(10, digits),
    }
}

fn named(inside: &[char]) -> Option<char>
    ensures { result ≡ named inside.now }
{
    match inside {
        ['a', 'm', 'p'] => Some('&'),
        ['l', 't'] => Some('<'),
        ['g', 't'] => Some('>'),
        ['q', 'u', 'o', 't'] => Some('"'),
        ['a', 'p', 'o', 's'] => Some('\''),
        _ => None,
    }
}

/// The character that a reference stands for, by what stands between its `&` and its `;`.
fn referenced(inside: &[char]) -> Option<char>
    ensures { result ≡ referenced inside.now }
{
    match inside {
        ['#', number @ ..] => numeric(number),
        name => named(name),
    }
}

/// The reference at the front, behind its `&`.
#[tactic(auto, unfolding(crate::specs::Reading::reference_at))]
fn reference_at(chars: &[char]) -> Option<(CharData, &[char])>
    ensures { option_map (λ x. (x.0, x.1.now)) result ≡ reference_at chars.now }
{
    let (inside, rest) = split_semicolon(chars);
    match rest {
        [';', rest @ ..] => match referenced(inside) {
            Some(c) => Some((CharData::Reference(c), rest)),
            None => None,
        },
        _ => None,
    }
}

fn is_literal(c: char) -> bool
    ensures { result ≡ literal c }
{
    is_xml_char(c) && !(c == '<' || c == '&')
}

/// The character or reference at the front.
#[tactic(auto, unfolding(crate::specs::Reading::data_at))]
pub fn data_at(chars: &[char]) -> Option<(CharData, &[char])>
    ensures { option_map (λ x. (x.0, x.1.now)) result ≡ data_at chars.now }
{
    match chars {
        ['&', rest @ ..] => reference_at(rest),
        [c, rest @ ..] if is_literal(*c) => Some((CharData::Literal(*c), rest)),
        _ => None,
    }
}

/// The character or reference at the front, if that isn't the quote.
#[tactic(auto, unfolding(crate::specs::Reading::value_char_at))]
fn value_char_at(quote: char, chars: &[char]) -> Option<(CharData, &[char])>
    ensures { option_map (λ x. (x.0, x.1.now)) result ≡ value_char_at quote chars.now }
{
    match chars {
        [] => None,
        [c, ..] if *c == quote => None,
        [_, ..] => data_at(chars),
    }
}

/// Appends what one character adds to a value: a space for white space that isn't a reference, and nothing for a line
/// feed behind a carriage return.
fn push_value_char(
    text: &mut String,
    after_return: bool,
    char_data: CharData,
) -> Result<(), NoMemory>
    ensures { OnOk result (string_bytes text.new ≡ string_bytes text.old
        ++ encode_utf8_all (read_value_char after_return char_data)) }
{
    match char_data {
        CharData::Literal('\n') if after_return => {}
        CharData::Literal(c) if is_xml_space(c) => text.push(' ')?,
        CharData::Literal(c) | CharData::Reference(c) => text.push(c)?,
    }
    Ok(())
}

/// The text of the characters in front of the quote, and what follows them.
fn value_chars(alloc: Global, quote: char, chars: &[char]) -> Result<(String, &[char]), NoMemory>
    ensures text { IfOk result (λ x. string_bytes x.0
        ≡ encode_utf8_all (read_value false (cuts (value_char_at quote) (length chars.now) chars.now).0)) }
    ensures rest { IfOk result (λ x. x.1.now ≡ (cuts (value_char_at quote) (length chars.now) chars.now).1) }
{
    let mut text = String::new(alloc);
    let mut after_return = false;
    let mut rest = chars;
    while let Some((data, after)) = value_char_at(quote, rest) {
        push_value_char(&mut text, after_return, data)?;
        after_return = data.is_return();
        rest = after;
    }
    Ok((text, rest))
}

/// The value at the front, behind its first quote.
#[tactic(auto, unfolding(crate::specs::Reading::quoted_at))]
fn quoted_at(alloc: Global, quote: char, chars: &[char]) -> Result<(Text, &[char]), Unread>
    ensures { Gives (λ x. (x.0, x.1.now)) result (quoted_at quote chars.now) }
{
    let (value, rest) = value_chars(alloc, quote, chars)?;
    let rest = past_one(quote, rest)?;
    Ok((Text::from_string(value), rest))
}

/// The value at the front, between its quotes.
#[tactic(auto, unfolding(crate::specs::Reading::value_at))]
pub fn value_at(alloc: Global, chars: &[char]) -> Result<(Text, &[char]), Unread>
    ensures { Gives (λ x. (x.0, x.1.now)) result (value_at chars.now) }
{
    match chars {
        [quote @ ('"' | '\''), rest @ ..] => quoted_at(alloc, *quote, rest),
        _ => Err(Unread::Absent),
    }
}
