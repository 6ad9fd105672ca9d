ghost use Rattle.std.specs.Prelude.{◌≡◌};
ghost use Rattle.device_rules.specs.Caller.{CallerView, HasLegal, Calls, Looks, Dues, Closes};

use crate::answer::Query;
use crate::told::{SubmitFault, Told};
use entry_form::{Command, Hand};
use std::alloc::Global;

/// A device as one hand calls it. Other hands' entries may be added in each of its calls.
pub trait Caller {
    ghost seen: { Self → CallerView };

    /// What holds between a caller before some of its calls and after them, beside what it shows.
    ghost leads: { Self → Self → Type 0 };

    /// Whose commands it gives.
    fn hand(&self) -> Hand
        ensures { result ≡ (seen self.now).hand };

    /// Carries a command of the hand out.
    fn call(&mut self, alloc: Global, command: Command) -> Result<Told, SubmitFault>
        ensures calls { Calls (seen self.old) (seen self.new) command result }
        ensures leads { leads self.old self.new };

    /// Answers a query of the hand.
    fn look(&mut self, alloc: Global, query: &Query) -> Result<Told, SubmitFault>
        ensures looks { Looks (seen self.old) (seen self.new) query.now result }
        ensures leads { leads self.old self.new };

    /// How much is due for the hand.
    fn due(&mut self) -> u64
        ensures due { Dues (seen self.old) (seen self.new) result }
        ensures leads { leads self.old self.new };

    /// Whether a worker may end; nothing rests on when this is so.
    fn closing(&mut self) -> bool
        ensures closes { Closes (seen self.old) (seen self.new) result }
        ensures leads { leads self.old self.new };

    /// What it shows is a run of the rules.
    ghost legal: { (caller : Self) → HasLegal (seen caller) };

    ghost leads_on: { (a b c : Self) → leads a b → leads b c → leads a c };

    ghost stays: { (caller : Self) → leads caller caller };
}
