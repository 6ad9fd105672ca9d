ghost use Rattle.std.specs.Prelude.{◌≡◌, ◌<◌, ◌≤◌, ◌^◌, IfOk, length};
ghost use Rattle.rosa_pieces.specs.Reading.{Gives};
ghost use Rattle.form_tokens.specs.Tokens.{digits_at, digits_token, quoted_at, absolute_at, dotted_at, name_at};
ghost use Rattle.form_tokens.specs.Tokens.{sign_or, not_equal_at, sign_at, token_at};
ghost use Rattle.form_tokens.specs.Spelling.{StandsBefore, IsLongest, HasNoToken};

use crate::Token;
use crate::front::{
    begins_as_name, past_attribute, past_inside, past_name, past_names, past_one, past_steps,
    text_before,
};
use rosa_pieces::Unread;
use std::alloc::Global;

/// The value of the digits at the front, at most 15 of them, and what follows them.
fn value_at(chars: &[char]) -> (u64, &[char])
    ensures value { (result.0, result.1.now) ≡ digits_at 15 0 chars.now }
    ensures small { result.0 < 10 ^ 15 }
{
    let mut value = 0;
    let mut left = 15u32;
    let mut rest = chars;
    while let Some((c, after)) = rest.split_first() {
        if left == 0 {
            return (value, rest);
        }
        if !c.is_ascii_digit() {
            return (value, rest);
        }
        value = value * 10 + u64::from(*c as u32 - '0' as u32);
        left -= 1;
        rest = after;
    }
    (value, rest)
}

/// The number at the front.
fn digits_at(chars: &[char]) -> (Token, &[char])
    ensures { (result.0, result.1.now) ≡ digits_token (digits_at 15 0 chars.now) }
{
    let (value, rest) = value_at(chars);
    (Token::Digits(value as i64), rest)
}

/// The text before the next quote.
#[tactic(auto, unfolding(crate::specs::Tokens::quoted_at))]
fn quoted_at(alloc: Global, quote: char, chars: &[char]) -> Result<(Token, &[char]), Unread>
    ensures { Gives (λ x. (x.0, x.1.now)) result (quoted_at quote chars.now) }
{
    let inside = past_inside(quote, chars);
    let rest = past_one(quote, inside)?;
    Ok((Token::Quoted(text_before(alloc, chars, inside)?), rest))
}

/// The absolute path at the front, behind its first slash.
#[tactic(auto, unfolding(crate::specs::Tokens::absolute_at))]
fn absolute_at<'a>(
    alloc: Global,
    path: &[char],
    chars: &'a [char],
) -> Result<(Token, &'a [char]), Unread>
    requires { length chars.now ≤ length path.now }
    ensures { Gives (λ x. (x.0, x.1.now)) result (absolute_at path.now chars.now) }
{
    if !begins_as_name(chars) {
        return Err(Unread::Absent);
    }
    let rest = past_attribute(past_names(chars));
    Ok((Token::Absolute(text_before(alloc, path, rest)?), rest))
}

/// The path of steps and names at the front, or the period; behind its first period.
#[tactic(auto, unfolding(crate::specs::Tokens::dotted_at))]
fn dotted_at<'a>(
    alloc: Global,
    path: &'a [char],
    chars: &'a [char],
) -> Result<(Token, &'a [char]), Unread>
    ensures { Gives (λ x. (x.0, x.1.now)) result (dotted_at path.now chars.now) }
{
    let names = past_steps(path);
    if !begins_as_name(names) {
        return Ok((Token::Dot, chars));
    }
    let rest = past_names(names);
    Ok((Token::Relative(text_before(alloc, path, rest)?), rest))
}

/// The name at the front.
#[tactic(auto, unfolding(crate::specs::Tokens::name_at))]
fn name_at(alloc: Global, chars: &[char]) -> Result<(Token, &[char]), Unread>
    ensures { Gives (λ x. (x.0, x.1.now)) result (name_at chars.now) }
{
    if !begins_as_name(chars) {
        return Err(Unread::Absent);
    }
    let rest = past_name(chars);
    Ok((Token::Name(text_before(alloc, chars, rest)?), rest))
}

/// The sign, or with an equals sign behind it the other one.
fn sign_or(alone: Token, with_equals: Token, chars: &[char]) -> (Token, &[char])
    ensures { (result.0, result.1.now) ≡ sign_or alone with_equals chars.now }
{
    match chars {
        ['=', rest @ ..] => (with_equals, rest),
        _ => (alone, chars),
    }
}

#[tactic(auto, unfolding(crate::specs::Tokens::not_equal_at))]
fn not_equal_at(chars: &[char]) -> Result<(Token, &[char]), Unread>
    ensures { Gives (λ x. (x.0, x.1.now)) result (not_equal_at chars.now) }
{
    let rest = past_one('=', chars)?;
    Ok((Token::NotEqual, rest))
}

/// The sign that begins with the character.
#[tactic(auto, unfolding(crate::specs::Tokens::sign_at))]
fn sign_at(c: char, chars: &[char]) -> Result<(Token, &[char]), Unread>
    ensures { Gives (λ x. (x.0, x.1.now)) result (sign_at c chars.now) }
{
    match c {
        '(' => Ok((Token::Open, chars)),
        ')' => Ok((Token::Close, chars)),
        '[' => Ok((Token::OpenBracket, chars)),
        ']' => Ok((Token::CloseBracket, chars)),
        ',' => Ok((Token::Comma, chars)),
        '=' => Ok((Token::Equal, chars)),
        '!' => not_equal_at(chars),
        '<' => Ok(sign_or(Token::Less, Token::LessEqual, chars)),
        '>' => Ok(sign_or(Token::Greater, Token::GreaterEqual, chars)),
        '+' => Ok((Token::Plus, chars)),
        '-' => Ok((Token::Minus, chars)),
        '*' => Ok((Token::Star, chars)),
        _ => Err(Unread::Absent),
    }
}

#[tactic(auto, unfolding(crate::specs::Tokens::token_at))]
fn front_token(alloc: Global, chars: &[char]) -> Result<(Token, &[char]), Unread>
    ensures { Gives (λ x. (x.0, x.1.now)) result (token_at chars.now) }
{
    let [c, rest @ ..] = chars else {
        return Err(Unread::Absent);
    };
    match c {
        '0'..='9' => Ok(digits_at(chars)),
        '"' | '\'' => quoted_at(alloc, *c, rest),
        '/' => absolute_at(alloc, chars, rest),
        '.' => dotted_at(alloc, chars, rest),
        _ if begins_as_name(chars) => name_at(alloc, chars),
        _ => sign_at(*c, rest),
    }
}

/// The token at the front, and what follows it: of all tokens that stand there, the longest.
pub fn token_at(alloc: Global, chars: &[char]) -> Result<(Token, &[char]), Unread>
    ensures gives { Gives (λ x. (x.0, x.1.now)) result (token_at chars.now) }
    ensures found { IfOk result (λ x. StandsBefore x.0 chars.now x.1.now) }
    ensures longest { IfOk result (λ x. IsLongest x.0 chars.now x.1.now) }
    ensures none { result ≡ Err Unread.Absent → HasNoToken chars.now }
{
    front_token(alloc, chars)
}
