//! Requests of HTTP/1.1 as bytes, and the addresses that they go to.
#![tactic(auto)]

mod address;
mod request;

pub use address::{Address, read_address, read_base};
pub use request::{date_of, get_text, write_closing, write_field, write_opening};
