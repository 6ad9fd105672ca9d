//! A device: the rules over a journal that makes each command last.
#![tactic(auto)]

mod append;
mod caller;
mod device;
mod fault;
mod laws;
mod replay;

pub use caller::DeviceCaller;
pub use device::Device;
pub use device_journal::OpenFault;
pub use laws::an_image_reads_as_one_thing;
