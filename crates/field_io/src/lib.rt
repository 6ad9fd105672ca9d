//! The outside of a device: a source, a sink, a clock and a dialer, each with a count of its faults.
#![tactic(auto)]

mod calm;
mod clock;
mod dialer;
mod exchange;
mod exchange_log;
mod failures;
mod mem_dialer;
mod memory;
mod remaining;
mod replies;
mod sink;
mod source;
mod tcp;

pub use calm::{CalmDialer, CalmSink, CalmSource};
pub use clock::{Clock, FixedClock, SystemClock};
pub use dialer::{Dialer, Stage};
pub use exchange::Exchange;
pub use exchange_log::ExchangeLog;
pub use mem_dialer::MemDialer;
pub use memory::{MemSink, MemSource};
pub use sink::{Sink, StdSink};
pub use source::{Failed, Source, StdSource};
pub use tcp::TcpDialer;
