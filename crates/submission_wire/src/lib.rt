//! Submissions over HTTP: the request that carries a document, the document read back, and what a reply says of it.
#![tactic(auto)]

mod acceptance;
mod laws;
mod parameters;
mod part;
mod post;
mod submission;
mod trim;

pub use acceptance::accepted;
pub use laws::submissions_return;
pub use post::post_text;
pub use submission::read_submission;
