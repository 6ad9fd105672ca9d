//! Entries of the journal and the commands in them: plain data, of every kind.
#![tactic(auto)]

mod command;
mod entry;
mod hand;

pub use command::{Base, Command, How, Outcome};
pub use entry::{Entry, Opening};
pub use hand::{Hand, Lock, Round};
