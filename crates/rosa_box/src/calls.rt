ghost use Rattle.std.specs.Prelude.{◌≡◌, ◌+◌, ◌≤◌, nat_eq};
ghost use Rattle.std.specs.List.{list_any};
ghost use Rattle.field_io.specs.Causes.{Rose, HasCause};
ghost use Rattle.rosa_box.specs.Listed.{listed};

use field_io::Failed;
use field_text::Items;

/// The calls of a dialer in memory: some are to fail, and some fail for want of memory.
#[derive(Debug, Drop)]
pub(crate) struct Calls {
    pub(crate) fails: Items<u64>,
    pub(crate) calls: u64,
    pub(crate) starved: u64,
    pub(crate) faults: u64,
    ghost least: { starved ≤ faults },
    ghost most: { faults ≤ starved + listed calls fails },
}

fn is_listed(fails: &[u64], number: u64) -> bool
    ensures { result ≡ list_any (λ n. nat_eq n number) fails.now }
{
    fails.contains(&number)
}

impl Calls {
    /// Calls are counted from 1, and those whose numbers are listed fail.
    pub(crate) fn new(fails: Items<u64>) -> Calls
        ensures fails { result.fails ≡ fails }
        ensures starved { result.starved ≡ 0 }
        ensures faults { result.faults ≡ 0 }
    {
        Calls {
            fails,
            calls: 0,
            starved: 0,
            faults: 0,
        }
    }

    /// Counts a call, and fails it where its number is listed.
    pub(crate) fn call(&mut self) -> Result<(), Failed>
        ensures fails { self.new.fails ≡ self.old.fails }
        ensures starved { self.new.starved ≡ self.old.starved }
        ensures cause { HasCause self.old.faults self.new.faults result }
    {
        let Some(number) = self.calls.checked_add(1) else {
            return Ok(());
        };
        let is_listed = is_listed(self.fails.as_slice(), number);
        self.calls = number;
        if is_listed {
            self.faults = self.faults.saturating_add(1);
            return Err(Failed);
        }
        Ok(())
    }

    /// Counts a fault for want of memory.
    pub(crate) fn starve(&mut self) -> Failed
        ensures fails { self.new.fails ≡ self.old.fails }
        ensures starved { Rose self.old.starved self.new.starved }
        ensures later { self.old.faults ≤ self.new.faults }
        ensures faults { Rose self.old.faults self.new.faults }
    {
        self.starved = self.starved.saturating_add(1);
        self.faults = self.faults.saturating_add(1);
        Failed
    }
}
