//! The instances that a device keeps, as a list of records.
#![tactic(auto)]

mod records;
mod store;

pub use records::{InstanceRec, Status};
pub use store::{INSTANCE_LIMIT, InstanceStore};
