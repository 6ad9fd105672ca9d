ghost use Rattle.std.specs.Prelude.{◌≡◌};
ghost use Rattle.collect_top.specs.Stop.{opening_status, script_status, status_of};

use collect_script::ScriptStop;
use device_core::OpenFault;

/// Why a call stopped before its end.
#[derive(Clone, Copy, Debug, PartialEq, Eq)]
pub enum Stop {
    /// The words aren't those of a command.
    Usage,
    /// The device couldn't be opened.
    Opening(OpenFault),
    /// The script, or the log, came to no end.
    Script(ScriptStop),
}

fn opening_status(fault: OpenFault) -> u8
    ensures { result ≡ opening_status fault }
{
    match fault {
        OpenFault::DiskFault => 5,
        OpenFault::BadJournal { .. }
        | OpenFault::BadEntry { .. }
        | OpenFault::IllegalEntry { .. } => 6,
        OpenFault::NoMemory => 7,
        OpenFault::Full { .. } => 9,
    }
}

fn script_status(stop: ScriptStop) -> u8
    ensures { result ≡ script_status stop }
{
    match stop {
        ScriptStop::ReadFault => 3,
        ScriptStop::WriteFault => 4,
        ScriptStop::DiskFault => 5,
        ScriptStop::NoMemory => 7,
        ScriptStop::LineTooLong => 8,
        ScriptStop::JournalFull { .. } => 9,
        ScriptStop::ScriptTooLong => 10,
    }
}

impl Stop {
    /// The status with which the program ends.
    pub fn status(self) -> u8
        ensures { result ≡ status_of self }
    {
        match self {
            Stop::Usage => 2,
            Stop::Opening(fault) => opening_status(fault),
            Stop::Script(stop) => script_status(stop),
        }
    }
}
