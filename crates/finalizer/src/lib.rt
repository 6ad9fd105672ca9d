//! Finalizing an instance: its document, its ids, and what it does to an entity list.
#![tactic(auto)]

mod actions;
mod entity_parts;
mod finals;
mod kept_finals;
mod laws;

pub use finals::{Final, MetaIn, NotFinal, finalize};
pub use kept_finals::finalized;
pub use laws::{
    drawn_ids_differ, draws_go_on, ids_are_drawn_in_turn, ids_of_an_instance_differ,
    order_leaves_finals,
};
