//! Expressions as they are written (XPath 1.0 in a profile): operands and operators as trees, by precedence.
#![tactic(auto)]

mod calls;
mod expected;
mod laws;
mod operands;
mod operators;
mod pending;
mod progress;
mod reading;
mod rows;
mod syntax;
mod words;

pub use laws::room_is_nesting;
pub use reading::{read_expr, read_itemset};
pub use syntax::{ExprFault, Itemset, Syntax};
