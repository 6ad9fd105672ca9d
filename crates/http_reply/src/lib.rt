//! Replies of HTTP/1.1 as bytes: their heads, their framing, their class and their body.
#![tactic(auto)]

mod body;
mod chunks;
mod cut;
pub mod fields;
mod framing;
mod head;
mod reply;

pub use body::MOST_KEPT;
pub use framing::{Framing, read_length, stated_framing};
pub use reply::{Class, ReplyView, body_of, is_framed, read_reply};
