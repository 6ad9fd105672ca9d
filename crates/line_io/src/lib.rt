//! Lines that come out of a source one by one, and texts that go into a sink whole.
#![tactic(auto)]

mod output;
mod reader;
mod stop;

pub use output::put_all;
pub use reader::LineReader;
pub use stop::ReadStop;
