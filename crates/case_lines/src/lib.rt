//! Cases that stand in files, a line a case: what a line says, and how an answer is printed on one line.
#![tactic(auto)]

mod cells;
mod escapes;
mod lines;
mod pieces;
mod printing;
mod prints;

pub use crate::cells::RowPrinter;
pub use crate::escapes::{bytes_of, text_of};
pub use crate::lines::{cases, cut};
pub use crate::pieces::{push_all, push_number};
pub use crate::printing::printed;
pub use crate::prints::{Prints, print_all};
