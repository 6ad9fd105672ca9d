//! A script line by line: read from a source as its lines come, answered by a caller, and printed to a sink.
#![tactic(auto)]

mod answer;
mod hand;
mod lines;
mod round;
mod stop;

pub use hand::Hand1;
pub use lines::answer_lines;
pub use stop::ScriptStop;
