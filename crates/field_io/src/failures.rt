ghost use Rattle.std.specs.Prelude.{◌≡◌, ◌≤◌};
ghost use Rattle.field_io.specs.Causes.{Rose, HasCause};

use crate::Failed;

/// The calls of an object in memory, some of which are to fail.
#[derive(Debug, Drop)]
pub(crate) struct Failures {
    pub(crate) calls: u64,
    pub(crate) fails: Vec<u64>,
    pub(crate) faults: u64,
}

impl Failures {
    /// Calls are counted from 1, and those whose numbers are listed fail.
    pub(crate) fn new(fails: Vec<u64>) -> Failures
        ensures { result.faults ≡ 0 }
    {
        Failures {
            calls: 0,
            fails,
            faults: 0,
        }
    }

    /// Counts a call, and fails it where its number is listed.
    pub(crate) fn call(&mut self) -> Result<(), Failed>
        ensures { HasCause self.old.faults self.new.faults result }
    {
        self.calls = self.calls.saturating_add(1);
        if self.fails.contains(&self.calls) {
            return Err(self.fault());
        }
        Ok(())
    }

    /// Counts a fault.
    pub(crate) fn fault(&mut self) -> Failed
        ensures later { self.old.faults ≤ self.new.faults }
        ensures rose { Rose self.old.faults self.new.faults }
    {
        self.faults = self.faults.saturating_add(1);
        Failed
    }
}
