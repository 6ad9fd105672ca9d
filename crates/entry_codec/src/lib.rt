//! One spelling in bytes for every entry.
#![tactic(auto)]

mod choice;
mod fault;
mod kind;
mod laws;
mod read;
mod write;

pub use fault::EntryRefused;
pub use kind::{CommandKind, Kind};
pub use laws::no_spelling_begins_another;
pub use read::read_entry;
pub use write::spell;
