//! Documents: XML 1.0 without declarations, read into a tree of local names, and text written so that it reads back.
#![tactic(auto)]

mod frame;
mod laws;
mod progress;
mod reader;
mod reading;
mod refusal;
mod tree;
mod writer;

pub use laws::{all_bytes_are_read, one_reading, written_reads};
pub use reading::read;
pub use refusal::DocRefused;
pub use tree::{Attribute, Doc, Element, Node};
pub use writer::{write_attr, write_text};
