//! The document of a finalized instance (OpenRosa with ODK Entities): written from the texts of a form's fields, and
//! read for its ids.
#![tactic(auto)]

mod document;
mod elements;
mod entity;
mod fault;
mod instance;
mod markup;
mod meta;
mod rows;

pub use document::{DOCUMENT_LIMIT, doc_bytes};
pub use fault::DocFault;
pub use instance::{Read, read_instance};
pub use meta::Meta;
