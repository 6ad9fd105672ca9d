//! The locks of a device: a hand that makes a round, or has an entry open, holds one while it changes what it guards.
#![tactic(auto)]

mod held;
mod locks;

pub use held::Held;
pub use locks::Locks;
