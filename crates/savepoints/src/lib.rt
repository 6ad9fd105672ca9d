//! The savepoints of entries: for each entry that was begun and not ended the sheet that it had last.
#![tactic(auto)]

mod keys;
mod store;

pub use keys::{Key, KeyBase};
pub use store::{Savepoint, Savepoints};
