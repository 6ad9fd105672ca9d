//! How kept forms follow a form list: which listed forms are wanted, and which kept ones are gone.
#![tactic(auto)]

mod places;
mod plans;

pub use plans::{gone, plan};
