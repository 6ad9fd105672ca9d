ghost use Rattle.std.specs.Prelude.{reverse};
ghost use Rattle.rosa_pieces.specs.Reading.{Gives};
ghost use Rattle.form_expr.specs.Machine.{outside_step as outside_of, group_step as group_of, word_step as word_of};
ghost use Rattle.form_expr.specs.Machine.{name_step as name_of, operand_step as operand_of};
ghost use Rattle.form_expr.specs.Reading.{state_of};

use crate::Syntax;
use crate::expected::Expected;
use crate::pending::{Pending, has_room, is_inside};
use crate::progress::{Progress, before_operand, behind};
use crate::words::function_of;
use field_text::{Items, Text};
use form_tokens::Token;
use rosa_pieces::Unread;
use std::alloc::Global;

/// A name that is no column.
fn word_step(stack: Items<Pending>, name: &Text) -> Result<Progress, Unread>
    ensures { Gives state_of result (word_of (reverse stack) name.now) }
{
    if name.bytes() == b"instance".as_slice() {
        return Ok(Progress {
            stack,
            expected: Expected::TableOpening,
        });
    }
    match function_of(name) {
        Some(func) => Ok(Progress {
            stack,
            expected: Expected::CallOpening(func),
        }),
        None => Err(Unread::Absent),
    }
}

fn name_step(stack: Items<Pending>, name: Text) -> Result<Progress, Unread>
    ensures { Gives state_of result (name_of (reverse stack) name) }
{
    if is_inside(&stack) {
        return Ok(Progress {
            stack,
            expected: Expected::Named(name),
        });
    }
    if has_room(&stack) {
        return word_step(stack, &name);
    }
    Err(Unread::Absent)
}

/// An operand that can't stand in a filter.
fn outside_step(alloc: Global, stack: Items<Pending>, operand: Syntax) -> Result<Progress, Unread>
    ensures { Gives state_of result (outside_of (reverse stack) operand) }
{
    if is_inside(&stack) {
        return Err(Unread::Absent);
    }
    Ok(behind(alloc, stack, operand)?)
}

fn group_step(stack: Items<Pending>) -> Result<Progress, Unread>
    ensures { Gives state_of result (group_of (reverse stack)) }
{
    if has_room(&stack) {
        return Ok(before_operand(Pending::Group, stack)?);
    }
    Err(Unread::Absent)
}

pub fn operand_step(alloc: Global, stack: Items<Pending>, token: Token) -> Result<Progress, Unread>
    ensures { Gives state_of result (operand_of (reverse stack) token) }
{
    match token {
        Token::Digits(n) => Ok(behind(alloc, stack, Syntax::Number(n))?),
        Token::Quoted(text) => Ok(behind(alloc, stack, Syntax::Words(text))?),
        Token::Absolute(path) => Ok(behind(alloc, stack, Syntax::Path(path))?),
        Token::Relative(path) => outside_step(alloc, stack, Syntax::Path(path)),
        Token::Dot => outside_step(alloc, stack, Syntax::Own),
        Token::Name(name) => name_step(stack, name),
        Token::Minus => Ok(before_operand(Pending::Minus, stack)?),
        Token::Open => group_step(stack),
        Token::Close
        | Token::OpenBracket
        | Token::CloseBracket
        | Token::Comma
        | Token::Equal
        | Token::NotEqual
        | Token::Less
        | Token::LessEqual
        | Token::Greater
        | Token::GreaterEqual
        | Token::Plus
        | Token::Star => Err(Unread::Absent),
    }
}
