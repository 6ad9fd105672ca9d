ghost use Rattle.std.specs.Prelude.{◌≡◌};
ghost use Rattle.device_core.specs.Faults.{open_fault_of};

use device_journal::OpenFault;
use device_rules::SubmitFault;

// What opening answers where the opening's own entry wasn't appended.
pub fn open_fault(fault: SubmitFault) -> OpenFault
    ensures { result ≡ open_fault_of fault }
{
    match fault {
        SubmitFault::Refused { .. } => OpenFault::NoMemory,
        SubmitFault::Full { length } => OpenFault::Full { length },
        SubmitFault::DiskFault | SubmitFault::Failed { .. } => OpenFault::DiskFault,
    }
}
