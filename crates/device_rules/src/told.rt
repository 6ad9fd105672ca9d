use crate::answer::Answer;
use crate::refused::Refused;

/// An answer with its position: that of the entry for a command, else the number of entries that the device has.
#[derive(Debug, Drop)]
pub struct Told {
    pub position: u64,
    pub answer: Answer,
}

/// Why a command has no answer. The device is as it was, but that after a fault of the disk it takes no more commands.
#[derive(Debug, Drop)]
pub enum SubmitFault {
    /// The rules refuse it on the state after so many entries.
    Refused { position: u64, why: Refused },
    /// The entry doesn't fit a journal of this length.
    Full { length: u64 },
    /// A call of the disk failed. The entry may last or not.
    DiskFault,
    /// An earlier call ended in a fault of the disk, when so many faults were counted.
    Failed { faults: u64 },
}
