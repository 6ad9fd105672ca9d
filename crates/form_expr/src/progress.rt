ghost use Rattle.std.specs.Prelude.{◌≡◌, IfOk, reverse};
ghost use Rattle.rosa_pieces.specs.Reading.{Gives};
ghost use Rattle.form_expr.specs.Machine.{when_alone as whole_alone, behind as behind_of};
ghost use Rattle.form_expr.specs.Machine.{before_operand as before_of, step, bound_by, expr_end as expr_ended};
ghost use Rattle.form_expr.specs.Machine.{itemset_end as itemset_ended};
ghost use Rattle.form_expr.specs.Reading.{state_of};

use crate::calls::{call_closing_step, call_opening_step, named_step};
use crate::expected::Expected;
use crate::operands::operand_step;
use crate::operators::operator_step;
use crate::pending::{ALL_OPERATORS, Pending, SIGNS, bind_by};
use crate::rows::{filter_step, is_in_itemset, table_step, value_step, when};
use crate::words::{is_close, is_instance, is_open, is_rows};
use crate::{Itemset, Syntax};
use field_text::{Items, NoMemory};
use form_tokens::Token;
use rosa_pieces::Unread;
use std::alloc::Global;

/// How far an expression or an itemset was read.
#[derive(Debug, Drop)]
pub struct Progress {
    pub stack: Items<Pending>,
    pub expected: Expected,
}

/// Behind an operand, to which the minus signs before it apply.
pub fn behind(alloc: Global, stack: Items<Pending>, operand: Syntax) -> Result<Progress, NoMemory>
    ensures { IfOk result (λ next. state_of next ≡ behind_of (reverse stack) operand) }
{
    let (stack, operand) = bind_by(alloc, SIGNS, stack, operand)?;
    Ok(Progress {
        stack,
        expected: Expected::Operator(operand),
    })
}

/// Before an operand, for which one more waits.
pub fn before_operand(pending: Pending, stack: Items<Pending>) -> Result<Progress, NoMemory>
    ensures { IfOk result (λ next. state_of next ≡ before_of pending (reverse stack)) }
{
    let mut stack = stack;
    stack.push(pending)?;
    Ok(Progress {
        stack,
        expected: Expected::Operand,
    })
}

impl Progress {
    /// The progress behind one more token, if that can stand here.
    #[tactic(auto, unfolding(crate::specs::Machine::step))]
    pub fn step(self, alloc: Global, token: Token) -> Result<Progress, Unread>
        ensures { Gives state_of result (step (state_of self) token) }
    {
        let Progress { stack, expected } = self;
        match expected {
            Expected::Operand => operand_step(alloc, stack, token),
            Expected::Operator(operand) => operator_step(alloc, stack, operand, &token),
            Expected::Named(name) => named_step(alloc, stack, name, &token),
            Expected::CallOpening(func) => call_opening_step(alloc, stack, func, &token),
            Expected::CallClosing(func) => call_closing_step(alloc, stack, func, &token),
            Expected::Instance => when(is_instance(&token), stack, Expected::TableOpening),
            Expected::TableOpening => when(is_open(&token), stack, Expected::Table),
            Expected::Table => table_step(stack, token),
            Expected::TableClosing(table) => when(is_close(&token), stack, Expected::Rows(table)),
            Expected::Rows(table) => when(is_rows(&token), stack, Expected::FilterOpening(table)),
            Expected::FilterOpening(table) => filter_step(stack, table, &token),
            Expected::Value { table, filter } => value_step(alloc, stack, table, filter, &token),
        }
    }

    /// The expression that ends here.
    pub fn into_expr(self, alloc: Global) -> Result<Option<Syntax>, NoMemory>
        ensures { IfOk result (λ whole. whole ≡ expr_ended (state_of self)) }
    {
        let Progress { stack, expected } = self;
        match expected {
            Expected::Operator(operand) => alone(alloc, stack, operand),
            _ => Ok(None),
        }
    }

    /// The itemset that ends here.
    pub fn into_itemset(self) -> Option<Itemset>
        ensures { result ≡ itemset_ended (state_of self) }
    {
        let Progress { stack, expected } = self;
        if !is_in_itemset(&stack) {
            return None;
        }
        match expected {
            Expected::FilterOpening(table) => Some(Itemset {
                table,
                filter: None,
            }),
            Expected::Value { table, filter } => Some(Itemset {
                table,
                filter: Some(filter),
            }),
            _ => None,
        }
    }
}

/// The whole expression, where nothing waits round it.
fn alone(alloc: Global, stack: Items<Pending>, operand: Syntax) -> Result<Option<Syntax>, NoMemory>
    ensures { IfOk result (λ whole. whole ≡ whole_alone (bound_by 1 (reverse stack) operand)) }
{
    let (stack, whole) = bind_by(alloc, ALL_OPERATORS, stack, operand)?;
    if stack.is_empty() {
        return Ok(Some(whole));
    }
    Ok(None)
}
