ghost use Rattle.std.specs.Prelude.{◌≡◌, ◌≤◌, ℕ, ◌++◌, Some, None, true, is_some, option_to_list};
ghost use Rattle.field_io.specs.Causes.{Rose};
ghost use Rattle.device_state.specs.State.{initial};
ghost use Rattle.device_rules.specs.Trail.{entries_of, replay};
ghost use Rattle.device_core.specs.Caller.{seen_of, refusals_after, LeadsOn};
ghost use Rattle.device_core.specs.CallerLaws.{seen_legal, leads_on_same, leads_on_then};
ghost use Rattle.device_core.specs.View.{IsReady};

use crate::Device;
use device_rules::{Caller, Query, SubmitFault, Told};
use disk_model::Disk;
use entry_form::{Command, Hand};
use std::alloc::Global;

/// A device as the script's hand calls it, with no other hand beside.
#[derive(Drop)]
pub struct DeviceCaller<D: Disk> {
    device: Device<D>,
    // the disk's count of faults before the first call
    before: u64,
    refusals: u64,
    closings: u64,
    ghost legal: { is_some (replay initial (entries_of device.entries ++ option_to_list device.rest)) ≡ true },
    ghost later: { before ≤ D.faults device.disk },
    ghost failed: { (count : ℕ) → device.failed ≡ Some count → Rose before (D.faults device.disk) },
    ghost none_left: { device.failed ≡ None → device.rest ≡ None },
}

// The count of refusals after a call.
fn refusals_after(count: u64, answer: &Result<Told, SubmitFault>) -> u64
    ensures count { result ≡ refusals_after count answer.now }
    ensures later { count ≤ result }
{
    match answer {
        Err(SubmitFault::Refused { .. }) => count.saturating_add(1),
        _ => count,
    }
}

impl<D: Disk> DeviceCaller<D> {
    ghost use Rattle.device_core.specs.CallerView.{device_of, faults_before, refusals_of, closings_of};

    /// A caller of a device whose appends all lasted.
    pub fn new(device: Device<D>) -> DeviceCaller<D>
        requires { IsReady device }
        ensures device { device_of result ≡ device }
        ensures before { faults_before result ≡ D.faults device.disk }
        ensures refusals { refusals_of result ≡ 0 }
        ensures closings { closings_of result ≡ 0 }
    {
        let before = device.fault_count();
        DeviceCaller {
            device,
            before,
            refusals: 0,
            closings: 0,
        }
    }

    /// The device as the calls left it.
    pub fn into_device(self) -> Device<D>
        ensures { result ≡ device_of self }
    {
        let DeviceCaller {
            device,
            before: _,
            refusals: _,
            closings: _,
        } = self;
        device
    }
}

impl<D: Disk> Caller for DeviceCaller<D> {
    ghost seen = { λ c. seen_of D.faults c.device c.before c.refusals c.closings };

    ghost leads = { λ a b. LeadsOn D.since D.clock D.faults a.before b.before a.device b.device };

    fn hand(&self) -> Hand {
        Hand::Script
    }

    fn call(&mut self, alloc: Global, command: Command) -> Result<Told, SubmitFault> {
        let answer = self.device.submit(alloc, Hand::Script, command);
        self.refusals = refusals_after(self.refusals, &answer);
        answer
    }

    fn look(&mut self, alloc: Global, query: &Query) -> Result<Told, SubmitFault> {
        self.device.ask(alloc, Hand::Script, query)
    }

    fn due(&mut self) -> u64 {
        self.device.due(Hand::Script)
    }

    // No other hand is left to wait for.
    fn closing(&mut self) -> bool {
        self.closings = self.closings.saturating_add(1);
        true
    }

    ghost legal = { λ c. seen_legal D.faults c.device c.before c.refusals c.closings c.legal };

    ghost leads_on = { λ a b c first second. leads_on_then D.since D.clock D.faults a.before b.before c.before
        a.device b.device c.device first second };

    ghost stays = { λ c. leads_on_same D.since D.clock D.faults c.before c.device };
}
