ghost use Rattle.std.specs.Prelude.{◌≡◌, IfOk, reverse, []};
ghost use Rattle.rosa_pieces.specs.Reading.{Gives};
ghost use Rattle.form_expr.specs.Machine.{when as when_wanted, behind as behind_of, opened_call as call_of};
ghost use Rattle.form_expr.specs.Machine.{call_step as call_in_filter, named_step as named_of, is_open as opens};
ghost use Rattle.form_expr.specs.Machine.{is_close as closes};
ghost use Rattle.form_expr.specs.Reading.{state_of};
ghost use Rattle.form_expr.specs.declared.syntax.Syntax.TheVariants.{Call};

use crate::Syntax;
use crate::expected::Expected;
use crate::operators::operator_step;
use crate::pending::{Pending, SIGNS, bind_by, has_room};
use crate::progress::{Progress, before_operand, behind};
use crate::words::{function_of, is_close, is_open, may_take};
use field_text::{Items, NoMemory, Text};
use form_def::Func;
use form_tokens::Token;
use rosa_pieces::Unread;
use std::alloc::Global;

/// Behind the parenthesis that opens a call.
fn opened_call(alloc: Global, func: Func, stack: Items<Pending>) -> Result<Progress, NoMemory>
    ensures { IfOk result (λ next. state_of next ≡ call_of func (reverse stack)) }
{
    if may_take(func, 0) {
        return Ok(Progress {
            stack,
            expected: Expected::CallClosing(func),
        });
    }
    let args = Items::new(alloc);
    before_operand(Pending::Call { func, args }, stack)
}

/// The parenthesis behind a name in a filter.
fn call_step(alloc: Global, stack: Items<Pending>, name: &Text) -> Result<Progress, Unread>
    ensures { Gives state_of result (call_in_filter (reverse stack) name.now) }
{
    if !has_room(&stack) {
        return Err(Unread::Absent);
    }
    match function_of(name) {
        Some(func) => Ok(opened_call(alloc, func, stack)?),
        None => Err(Unread::Absent),
    }
}

pub fn named_step(
    alloc: Global,
    stack: Items<Pending>,
    name: Text,
    token: &Token,
) -> Result<Progress, Unread>
    ensures { Gives state_of result (named_of (reverse stack) name token.now) }
{
    if is_open(token) {
        return call_step(alloc, stack, &name);
    }
    let (stack, column) = bind_by(alloc, SIGNS, stack, Syntax::Column(name))?;
    operator_step(alloc, stack, column, token)
}

pub fn call_opening_step(
    alloc: Global,
    stack: Items<Pending>,
    func: Func,
    token: &Token,
) -> Result<Progress, Unread>
    ensures { Gives state_of result (when_wanted (opens token.now) (call_of func (reverse stack))) }
{
    if is_open(token) {
        return Ok(opened_call(alloc, func, stack)?);
    }
    Err(Unread::Absent)
}

pub fn call_closing_step(
    alloc: Global,
    stack: Items<Pending>,
    func: Func,
    token: &Token,
) -> Result<Progress, Unread>
    ensures { Gives state_of result (when_wanted (closes token.now) (behind_of (reverse stack) (Call func []))) }
{
    if is_close(token) {
        let args = Items::new(alloc);
        return Ok(behind(alloc, stack, Syntax::Call { func, args })?);
    }
    Err(Unread::Absent)
}
