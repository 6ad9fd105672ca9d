ghost use Rattle.std.specs.Prelude.{◌≡◌, ◌≤◌, length, IfOk, encode_utf8_all};
ghost use Rattle.field_text.specs.Xml.{is_xml_space as space, is_name_char as name_char, begins_as_name as begins};
ghost use Rattle.rosa_pieces.specs.Reading.{Gives, past, past_one};
ghost use Rattle.form_tokens.specs.Classes.{belongs};
ghost use Rattle.form_tokens.specs.Tokens.{is_inside, text_before, past_names, past_attribute, past_steps};

use field_text::xml::{is_name_char, is_name_start, is_xml_space};
use field_text::{NoMemory, Text};
use rosa_pieces::Unread;
use std::alloc::Global;

/// The text of these characters.
fn text_of(alloc: Global, chars: &[char]) -> Result<Text, NoMemory>
    ensures { IfOk result (λ text. text ≡ encode_utf8_all chars.now) }
{
    let mut text = String::new(alloc);
    for c in chars {
        text.push(*c)?;
    }
    Ok(Text::from_string(text))
}

/// The text of the characters before the rest.
pub fn text_before(alloc: Global, chars: &[char], rest: &[char]) -> Result<Text, NoMemory>
    requires { length rest.now ≤ length chars.now }
    ensures { IfOk result (λ text. text ≡ text_before chars.now rest.now) }
{
    text_of(alloc, &chars[..chars.len() - rest.len()])
}

/// Whether a name begins here.
pub fn begins_as_name(chars: &[char]) -> bool
    ensures { result ≡ begins chars.now }
{
    match chars {
        [first, ..] => is_name_start(*first),
        [] => false,
    }
}

/// Which characters are passed.
#[derive(Clone, Copy, Debug)]
enum Class {
    Space,
    NameChar,
    /// All but the quote.
    Inside { quote: char },
}

fn belongs(class: Class, c: char) -> bool
    ensures { result ≡ belongs class c }
{
    match class {
        Class::Space => is_xml_space(c),
        Class::NameChar => is_name_char(c),
        Class::Inside { quote } => c != quote,
    }
}

/// What follows the characters of a class at the front.
fn past(class: Class, chars: &[char]) -> &[char]
    ensures value { result.now ≡ past (belongs class) chars.now }
    ensures shorter { length result.now ≤ length chars.now }
{
    let mut rest = chars;
    while let [c, after @ ..] = rest {
        if !belongs(class, *c) {
            break;
        }
        rest = after;
    }
    rest
}

/// What follows the white space at the front.
pub fn past_spaces(chars: &[char]) -> &[char]
    ensures value { result.now ≡ past space chars.now }
    ensures shorter { length result.now ≤ length chars.now }
{
    past(Class::Space, chars)
}

/// What follows the characters of a name at the front.
pub fn past_name(chars: &[char]) -> &[char]
    ensures value { result.now ≡ past name_char chars.now }
    ensures shorter { length result.now ≤ length chars.now }
{
    past(Class::NameChar, chars)
}

/// What follows the characters before the next quote.
pub fn past_inside(quote: char, chars: &[char]) -> &[char]
    ensures value { result.now ≡ past (is_inside quote) chars.now }
    ensures shorter { length result.now ≤ length chars.now }
{
    past(Class::Inside { quote }, chars)
}

/// What follows a name and the names behind it, with a slash before each.
pub fn past_names(chars: &[char]) -> &[char]
    ensures value { result.now ≡ past_names chars.now }
    ensures shorter { length result.now ≤ length chars.now }
{
    let mut rest = chars;
    while let [c, after @ ..] = rest {
        let goes_on = is_name_char(*c) || (*c == '/' && begins_as_name(after));
        if !goes_on {
            break;
        }
        rest = after;
    }
    rest
}

/// What follows `/@` and a name, where they stand there.
pub fn past_attribute(chars: &[char]) -> &[char]
    ensures value { result.now ≡ past_attribute chars.now }
    ensures shorter { length result.now ≤ length chars.now }
{
    match chars {
        ['/', '@', after @ ..] if begins_as_name(after) => past_name(after),
        _ => chars,
    }
}

/// What follows the steps `../` at the front.
pub fn past_steps(chars: &[char]) -> &[char]
    ensures value { result.now ≡ past_steps chars.now }
    ensures shorter { length result.now ≤ length chars.now }
{
    let mut rest = chars;
    while let ['.', '.', '/', after @ ..] = rest {
        rest = after;
    }
    rest
}

/// What follows this character at the front.
pub fn past_one(c: char, chars: &[char]) -> Result<&[char], Unread>
    ensures { Gives (λ rest. rest.now) result (past_one c chars.now) }
{
    match chars {
        [d, rest @ ..] if *d == c => Ok(rest),
        _ => Err(Unread::Absent),
    }
}
