//! A journal of payloads on a disk. At any moment a crash leaves the payloads from before a call, or these and the
//! new one, and what an append has answered is there.
#![tactic(auto)]

mod fault;
mod frame;
mod journal;
mod laws;
mod opening;
mod reading;

pub use fault::{AppendFault, OpenFault};
pub use journal::Journal;
pub use laws::{an_image_is_off_at_one_place, frames_are_unique, off_stands_for_nothing};
pub use opening::open_journal;
