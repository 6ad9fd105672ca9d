//! Values of expressions (XPath 1.0 in a profile).
#![tactic(auto)]

mod digits;
mod evaluation;
mod functions;
mod offering;
mod operators;
mod pieces;
mod rows;
mod value;

pub use digits::is_whole;
pub use evaluation::{Scope, evaluate, holds, read_text};
pub use functions::is_selected;
pub use offering::{offers, offers_choice};
pub use pieces::split_piece;
pub use rows::{Row, inner_cell};
pub use value::Value;
