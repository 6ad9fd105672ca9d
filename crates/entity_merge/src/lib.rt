//! What becomes of a local entity list: by a server's list that is merged into it, and by a finalized form's action.
#![tactic(auto)]

mod actions;
mod branches;
mod laws;
mod merging;

pub use actions::{Action, ActionRefused, apply_action};
pub use laws::{
    ids_stay_different, newer_rows_stay, offline_rows_stay, table_of_versions,
    versions_stay_within_their_limit,
};
pub use merging::{MergeRefused, merge};
