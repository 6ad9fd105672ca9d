//! A disk as a journal sees it: what a read gives, and what a crash at any moment may leave.
#![tactic(auto)]

mod calls;
mod counts;
mod disk;
mod failing;
mod file;
mod memory;
mod opener;

pub use calls::Call;
pub use disk::Disk;
pub use failing::{FailingDisk, FusedDisk, Plan, StumbleDisk};
pub use file::FileDisk;
pub use memory::MemDisk;
pub use opener::{LockedFile, Opened, Opener};
