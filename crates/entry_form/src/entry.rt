ghost use Rattle.std.specs.Prelude.{◌≡◌, IfOk};

use crate::command::Command;
use crate::hand::Hand;
use field_text::{NoMemory, Text};
use std::alloc::Global;

/// What a device is opened with: its number and the address of its server.
#[derive(Debug, Drop)]
pub struct Opening {
    pub device: u64,
    pub server: Text,
}

impl Opening {
    pub fn copy(&self, alloc: Global) -> Result<Opening, NoMemory>
        ensures { IfOk result (λ copy. copy ≡ self.now) }
    {
        Ok(Opening {
            device: self.device,
            server: self.server.copy(alloc)?,
        })
    }
}

/// An entry of the journal.
#[derive(Debug, Drop)]
pub enum Entry {
    /// The device was opened.
    Opened(Opening),
    /// A hand's command was carried out.
    Done { hand: Hand, command: Command },
}

impl Entry {
    ghost use Rattle.entry_form.specs.Entry.{entry_hand};

    /// Whose entry it is; an opening counts as the script's.
    pub fn hand(&self) -> Hand
        ensures { result ≡ entry_hand self.now }
    {
        match self {
            Entry::Opened(_) => Hand::Script,
            Entry::Done { hand, .. } => *hand,
        }
    }

    pub fn copy(&self, alloc: Global) -> Result<Entry, NoMemory>
        ensures { IfOk result (λ copy. copy ≡ self.now) }
    {
        match self {
            Entry::Opened(opening) => Ok(Entry::Opened(opening.copy(alloc)?)),
            Entry::Done { hand, command } => Ok(Entry::Done {
                hand: *hand,
                command: command.copy(alloc)?,
            }),
        }
    }
}
