ghost use Rattle.std.specs.Prelude.{◌≡◌, IfOk, reverse};
ghost use Rattle.std.specs.List.{list_any};
ghost use Rattle.form_expr.specs.Machine.{is_open_pending as opens, is_filter as filters};
ghost use Rattle.form_expr.specs.Machine.{is_itemset as stands_for_itemset, depth as depth_of, has_room as room};
ghost use Rattle.form_expr.specs.Machine.{is_inside as inside, tightness as tightness_of, bound, bound_by};

use crate::Syntax;
use crate::words::level;
use field_text::{Boxed, Items, NoMemory, Text};
use form_def::{Func, Op};
use std::alloc::Global;

/// How tightly a minus sign binds the operand behind it.
pub const SIGNS: u8 = 7;

/// How tightly an operator binds at least.
pub const ALL_OPERATORS: u8 = 1;

/// How many parentheses and brackets may be open.
const NESTING: usize = 32;

/// What waits for an operand, or for the end of an expression.
#[derive(Debug, Drop)]
pub enum Pending {
    /// A minus sign before an operand.
    Minus,
    /// The operand before an operator.
    Left { left: Syntax, op: Op },
    /// An open parenthesis.
    Group,
    /// A call, with the arguments before the one that is read.
    Call { func: Func, args: Items<Syntax> },
    /// The filter of the items of a table.
    Filter { table: Text },
    /// What is read is an itemset.
    Itemset,
}

impl Pending {
    /// Whether a parenthesis or a bracket is open.
    fn is_open(&self) -> bool
        ensures { result ≡ opens self.now }
    {
        matches!(
            self,
            Pending::Group | Pending::Call { .. } | Pending::Filter { .. }
        )
    }

    /// Whether it is a filter.
    fn is_filter(&self) -> bool
        ensures { result ≡ filters self.now }
    {
        matches!(self, Pending::Filter { .. })
    }

    /// Whether it stands for an itemset.
    pub fn is_itemset(&self) -> bool
        ensures { result ≡ stands_for_itemset self.now }
    {
        matches!(self, Pending::Itemset)
    }

    /// How tightly it binds the operand behind it.
    fn tightness(&self) -> u8
        ensures { result ≡ tightness_of self.now }
    {
        match self {
            Pending::Minus => SIGNS,
            Pending::Left { op, .. } => level(*op),
            Pending::Group | Pending::Call { .. } | Pending::Filter { .. } | Pending::Itemset => 0,
        }
    }

    /// The operand with what binds it.
    fn bind(self, alloc: Global, operand: Syntax) -> Result<Syntax, NoMemory>
        ensures { IfOk result (λ whole. whole ≡ bound self operand) }
    {
        match self {
            Pending::Minus => Ok(Syntax::Negative(Boxed::new(alloc, operand)?)),
            Pending::Left { left, op } => Ok(Syntax::Pair {
                op,
                left: Boxed::new(alloc, left)?,
                right: Boxed::new(alloc, operand)?,
            }),
            Pending::Group | Pending::Call { .. } | Pending::Filter { .. } | Pending::Itemset => Ok(
                operand,
            ),
        }
    }
}

/// The operand with all that binds it at least as tightly, which leaves the stack.
pub fn bind_by(
    alloc: Global,
    least: u8,
    stack: Items<Pending>,
    operand: Syntax,
) -> Result<(Items<Pending>, Syntax), NoMemory>
    ensures { IfOk result (λ x. (reverse x.0, x.1) ≡ bound_by least (reverse stack) operand) }
{
    let mut outer = stack;
    let mut whole = operand;
    while let Some(pending) = outer.pop() {
        if pending.tightness() < least {
            outer.push(pending)?;
            return Ok((outer, whole));
        }
        whole = pending.bind(alloc, whole)?;
    }
    Ok((outer, whole))
}

/// How many parentheses and brackets are open.
fn depth(stack: &[Pending]) -> usize
    ensures { result ≡ depth_of stack.now }
{
    let mut count = 0;
    for pending in stack {
        if pending.is_open() {
            count += 1;
        }
    }
    count
}

/// Whether one more may open.
#[tactic(auto, using(crate::proofs::Stacks::depth_reverse))]
pub fn has_room(stack: &Items<Pending>) -> bool
    ensures { result ≡ room (reverse stack.now) }
{
    depth(stack.as_slice()) < NESTING
}

/// Whether a filter is among them.
fn has_filter(stack: &[Pending]) -> bool
    ensures { result ≡ list_any filters stack.now }
{
    let mut rest = stack;
    while let [pending, others @ ..] = rest {
        if pending.is_filter() {
            return true;
        }
        rest = others;
    }
    false
}

/// Whether a filter is being read.
#[tactic(auto, using(crate::proofs::Stacks::any_reverse))]
pub fn is_inside(stack: &Items<Pending>) -> bool
    ensures { result ≡ inside (reverse stack.now) }
{
    has_filter(stack.as_slice())
}
