// The counts of a disk. At the end of its type a count stays.
ghost use Rattle.std.specs.Prelude.{◌≡◌, ◌≤◌};
ghost use Rattle.field_io.specs.Causes.{HasCause};
ghost use Rattle.disk_model.specs.Disk.{counted};

use field_io::Failed;

#[derive(Clone, Copy, Debug)]
pub struct Counts {
    pub calls: u64,
    pub syncs: u64,
    pub faults: u64,
}

impl Counts {
    pub fn new() -> Counts
        ensures { result ≡ record { calls = 0; syncs = 0; faults = 0 } }
    {
        Counts {
            calls: 0,
            syncs: 0,
            faults: 0,
        }
    }

    pub fn call(&mut self)
        ensures value { self.new ≡ record self.old { calls = counted self.old.calls } }
        ensures later { self.old.calls ≤ self.new.calls }
    {
        self.calls = self.calls.saturating_add(1);
    }

    pub fn sync(&mut self)
        ensures value { self.new ≡ record self.old { calls = counted self.old.calls; syncs = counted self.old.syncs } }
        ensures later { self.old.calls ≤ self.new.calls }
    {
        self.calls = self.calls.saturating_add(1);
        self.syncs = self.syncs.saturating_add(1);
    }

    pub fn fault(&mut self)
        ensures value { self.new ≡ record self.old { faults = counted self.old.faults } }
        ensures later { self.old.faults ≤ self.new.faults }
    {
        self.faults = self.faults.saturating_add(1);
    }

    /// Counts a fault where the answer is one.
    pub fn answered<T>(&mut self, answer: Result<T, Failed>) -> Result<T, Failed>
        ensures same { result ≡ answer }
        ensures cause { HasCause self.old.faults self.new.faults result }
        ensures others { self.new ≡ record self.old { faults = self.new.faults } }
    {
        if answer.is_err() {
            self.fault();
        }
        answer
    }
}
