//! The ids that a device draws, and the hashes of forms.
#![tactic(auto)]

mod hashes;
mod ids;

pub use hashes::{hash_matches, hash_text, is_hash, same_hash};
pub use ids::{Draws, Id, draw};
