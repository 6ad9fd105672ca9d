//! The top call: a run of a script, or the log, over the outside that is handed in, and what holds of every such call.
#![tactic(auto)]

mod log;
mod output;
mod run;
mod shown;
mod stop;
mod top;
mod words;

pub use collect_script::Hand1;
pub use output::put_fault;
pub use shown::{check_text, put_text};
pub use stop::Stop;
pub use top::{Done, Hands, collect_alone};
pub use words::{Work, work_of};
