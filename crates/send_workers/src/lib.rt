//! Rounds of sending over any caller, dialer, clock and gate.
#![tactic(auto)]

mod one_send;
mod round;

pub use round::{RoundEnd, send_round};
