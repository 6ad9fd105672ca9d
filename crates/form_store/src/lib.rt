//! The forms that a device keeps, as a list of records.
#![tactic(auto)]

mod records;
mod store;

pub use records::{Check, FormRec};
pub use store::{FORM_LIMIT, FormStore};
