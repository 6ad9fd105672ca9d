//! Requests of HTTP/1.1, read from bytes.
#![tactic(auto)]

pub mod cut;
mod parts;
mod request;

pub use request::{MOST_FIELDS, Request, read_request};
