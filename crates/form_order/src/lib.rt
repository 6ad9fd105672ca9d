//! An order of a form's fields in which each comes behind those that it depends on.
#![tactic(auto)]

mod fault;
mod order;
mod reach;
mod rows;
mod walk;

pub use fault::OrderFault;
pub use order::order_of;
