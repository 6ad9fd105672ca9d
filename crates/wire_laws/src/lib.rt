//! What bytes are as a reply, and texts as a server's base, as functions: laws, and calls that compute them.
#![tactic(auto)]

mod acceptance;
mod base;
mod laws;

pub use acceptance::accepts;
pub use base::server_base;
pub use laws::{replies_are_one, texts_have_one_base};
