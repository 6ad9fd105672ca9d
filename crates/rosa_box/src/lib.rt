//! A server of OpenRosa in memory: what it answers to a request, and what it then keeps. Today it takes submissions;
//! the forms and lists that it has are served to nobody yet.
#![tactic(auto)]

mod asked;
mod calls;
mod dialer;
mod laws;
mod reply;
mod server;
mod session;
mod state;

pub use dialer::BoxDialer;
pub use laws::submissions_stay;
pub use server::serve;
pub use state::{BoxForm, BoxKept, BoxList, BoxState};
