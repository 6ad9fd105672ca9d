//! What a device holds after its entries, and the changes that an entry makes.
#![tactic(auto)]

mod changes;
mod entry;
mod flight;
mod forms;
mod holding;
mod state;

pub use changes::{Changes, EntryChange, FormChange, InstanceChange, ListChange, SavepointChange};
pub use entry::OpenEntry;
pub use flight::{Flight, FlightChange, has_flight};
pub use holding::LockChange;
pub use state::{Counters, Settings, State};
