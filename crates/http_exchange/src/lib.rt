//! One exchange with a server of HTTP/1.1.
#![tactic(auto)]

mod carry;
mod got;

pub use got::{Got, exchange};
