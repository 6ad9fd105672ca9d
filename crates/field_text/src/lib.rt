//! Texts, bytes, decimals and named tables: the words that every other crate speaks.
#![tactic(auto)]

mod blob;
mod decimal;
mod mode;
mod tables;
mod text;
pub mod xml;

pub use blob::Blob;
pub use decimal::{decimal_text, read_decimal};
pub use mode::Mode;
pub use sqlite_items::{Boxed, Items};
pub use tables::Tables;
pub use text::{NoMemory, Text, TextRefused};
