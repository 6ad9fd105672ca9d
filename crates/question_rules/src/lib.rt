//! Questions of a form: which are shown, what is calculated, which answers are taken, and what a sheet lacks.
#![tactic(auto)]

mod answers;
mod faults;
mod laws;
mod marks;
mod settling;
mod sheet;

pub use answers::{AnswerRefused, fill};
pub use faults::{Cause, Fault, first_fault};
pub use laws::{
    first_fault_is_the_least, marks_are_unique, order_leaves_answers, order_leaves_marks,
    order_leaves_texts, order_leaves_the_first_fault, settled_texts_are_unique,
};
pub use marks::{read_field, shown, shown_marks};
pub use settling::settle;
pub use sheet::Sheet;
