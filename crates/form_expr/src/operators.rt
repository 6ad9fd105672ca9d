ghost use Rattle.std.specs.Prelude.{◌≡◌, IfOk, reverse, ◌∷◌, ◌++◌, []};
ghost use Rattle.rosa_pieces.specs.Reading.{Gives};
ghost use Rattle.form_expr.specs.Machine.{closed_call as closed_call_of, next_argument as next_argument_of};
ghost use Rattle.form_expr.specs.Machine.{with_operator as operator_behind, close_step as close_of};
ghost use Rattle.form_expr.specs.Machine.{comma_step as comma_of, bracket_step as bracket_of, end_step as end_of};
ghost use Rattle.form_expr.specs.Machine.{operator_step as operator_of_step};
ghost use Rattle.form_expr.specs.Reading.{state_of};

use crate::Syntax;
use crate::expected::Expected;
use crate::pending::{ALL_OPERATORS, Pending, bind_by};
use crate::progress::{Progress, before_operand, behind};
use crate::words::{level, may_take, operator_of, takes_more};
use field_text::{Items, NoMemory};
use form_def::{Func, Op};
use form_tokens::Token;
use rosa_pieces::Unread;
use std::alloc::Global;

/// Behind an operator.
fn with_operator(
    alloc: Global,
    op: Op,
    stack: Items<Pending>,
    operand: Syntax,
) -> Result<Progress, NoMemory>
    ensures { IfOk result (λ next. state_of next ≡ operator_behind op (reverse stack) operand) }
{
    let (stack, left) = bind_by(alloc, level(op), stack, operand)?;
    before_operand(Pending::Left { left, op }, stack)
}

/// A call whose last argument ends.
fn closed_call(
    alloc: Global,
    stack: Items<Pending>,
    func: Func,
    args: Items<Syntax>,
    last: Syntax,
) -> Result<Progress, Unread>
    ensures { Gives state_of result (closed_call_of (reverse stack) func (args ++ last ∷ [])) }
{
    let mut args = args;
    args.push(last)?;
    if may_take(func, args.len()) {
        return Ok(behind(alloc, stack, Syntax::Call { func, args })?);
    }
    Err(Unread::Absent)
}

fn close_step(alloc: Global, stack: Items<Pending>, whole: Syntax) -> Result<Progress, Unread>
    ensures { Gives state_of result (close_of (reverse stack, whole)) }
{
    let mut outer = stack;
    match outer.pop() {
        Some(Pending::Group) => Ok(behind(alloc, outer, whole)?),
        Some(Pending::Call { func, args }) => closed_call(alloc, outer, func, args, whole),
        Some(Pending::Minus)
        | Some(Pending::Left { .. })
        | Some(Pending::Filter { .. })
        | Some(Pending::Itemset)
        | None => Err(Unread::Absent),
    }
}

/// A call in which one more argument follows.
fn next_argument(
    stack: Items<Pending>,
    func: Func,
    args: Items<Syntax>,
    last: Syntax,
) -> Result<Progress, Unread>
    ensures { Gives state_of result (next_argument_of (reverse stack) func (args ++ last ∷ [])) }
{
    let mut args = args;
    args.push(last)?;
    if takes_more(func, args.len()) {
        return Ok(before_operand(Pending::Call { func, args }, stack)?);
    }
    Err(Unread::Absent)
}

fn comma_step(stack: Items<Pending>, whole: Syntax) -> Result<Progress, Unread>
    ensures { Gives state_of result (comma_of (reverse stack, whole)) }
{
    let mut outer = stack;
    match outer.pop() {
        Some(Pending::Call { func, args }) => next_argument(outer, func, args, whole),
        Some(Pending::Minus)
        | Some(Pending::Left { .. })
        | Some(Pending::Group)
        | Some(Pending::Filter { .. })
        | Some(Pending::Itemset)
        | None => Err(Unread::Absent),
    }
}

fn bracket_step(stack: Items<Pending>, whole: Syntax) -> Result<Progress, Unread>
    ensures { Gives state_of result (bracket_of (reverse stack, whole)) }
{
    let mut outer = stack;
    match outer.pop() {
        Some(Pending::Filter { table }) => Ok(Progress {
            stack: outer,
            expected: Expected::Value {
                table,
                filter: whole,
            },
        }),
        Some(Pending::Minus)
        | Some(Pending::Left { .. })
        | Some(Pending::Group)
        | Some(Pending::Call { .. })
        | Some(Pending::Itemset)
        | None => Err(Unread::Absent),
    }
}

/// What ends an expression, behind it.
fn end_step(
    alloc: Global,
    stack: Items<Pending>,
    whole: Syntax,
    token: &Token,
) -> Result<Progress, Unread>
    ensures { Gives state_of result (end_of token.now (reverse stack, whole)) }
{
    match token {
        Token::Close => close_step(alloc, stack, whole),
        Token::Comma => comma_step(stack, whole),
        Token::CloseBracket => bracket_step(stack, whole),
        _ => Err(Unread::Absent),
    }
}

/// An operator, or what ends an expression.
pub fn operator_step(
    alloc: Global,
    stack: Items<Pending>,
    operand: Syntax,
    token: &Token,
) -> Result<Progress, Unread>
    ensures { Gives state_of result (operator_of_step (reverse stack) operand token.now) }
{
    match operator_of(token) {
        Some(op) => Ok(with_operator(alloc, op, stack, operand)?),
        None => {
            let (stack, whole) = bind_by(alloc, ALL_OPERATORS, stack, operand)?;
            end_step(alloc, stack, whole, token)
        }
    }
}
