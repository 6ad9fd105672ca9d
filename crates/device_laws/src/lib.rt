//! Laws of the rules over whole histories. The crate has no code: each law is the contract of a function that does
//! nothing.
#![tactic(auto)]

mod laws;

pub use laws::{
    finalized_instances_stay, histories_are_orderly, histories_are_sound, histories_keep_finals,
    histories_keep_ids_apart, histories_keep_sends, histories_keep_used_forms, initial_is_sound,
    steps_keep_order, steps_keep_soundness, used_forms_stay,
};
