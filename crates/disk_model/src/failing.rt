// A disk in memory that fails by a plan. A call that the plan fails changes the counts alone.
ghost use Rattle.std.specs.Prelude.{◌≡◌, ◌==◌, ◌-◌, ◌≤◌, ◌++◌, Some, IsTrue, length, take, drop, min, option_map};
ghost use Rattle.std.specs.Prelude.{IfOk, OnOk, OnErr, IfSome};
ghost use Rattle.std.specs.List.{list_any};
ghost use Rattle.std.specs.Option.{ForSome};
ghost use Rattle.field_io.specs.Causes.{HasCause};
ghost use Rattle.disk_model.specs.Disk.{written, Torn, ToldAlike, Only, SameImages, counted, AddsNoImage, AddsImages};
ghost use Rattle.disk_model.specs.Failing.{is_planned, plan_of, next_fails, FailsAlone};
ghost use Rattle.disk_model.specs.Images.{IsImage, WasImage};
ghost use Rattle.disk_model.specs.Memory.{mem_bytes, mem_calls, mem_first};
ghost use Rattle.disk_model.specs.declared.failing.Plan.TheVariants.{From, Listed};
ghost use Rattle.disk_model.specs.Laws.{reads_as_told, counts_now_image, only_now_image, earlier_image};

use crate::counts::Counts;
use crate::{Disk, MemDisk};
use field_io::Failed;
use field_text::Items;

/// Which calls of a disk fail. Calls are counted from 1.
#[derive(Debug, Drop)]
pub enum Plan {
    /// Each call from this one on.
    From(u64),
    /// The calls of these numbers.
    Listed(Items<u64>),
}

impl Plan {
    fn fails(&self, call: u64) -> bool
        ensures { result ≡ is_planned self.now call }
    {
        match self {
            Plan::From(first) => *first <= call,
            Plan::Listed(fails) => is_listed(fails.as_slice(), call),
        }
    }
}

fn is_listed(fails: &[u64], call: u64) -> bool
    ensures { result ≡ list_any (λ number. number == call) fails.now }
{
    fails.iter().any(|number| *number == call)
}

/// A disk in memory whose calls fail by a plan.
#[derive(Drop)]
pub struct FailingDisk {
    disk: MemDisk,
    plan: Plan,
    counts: Counts,
}

impl FailingDisk {
    /// A disk that fails the calls of this plan.
    pub fn make(disk: MemDisk, plan: Plan) -> FailingDisk
        ensures plan { plan_of result ≡ plan }
        ensures content { ⟦<FailingDisk as Disk>⟧.content result ≡ ⟦<MemDisk as Disk>⟧.content disk }
        ensures clock { ⟦<FailingDisk as Disk>⟧.clock result ≡ ⟦<MemDisk as Disk>⟧.clock disk }
        ensures images { SameImages (⟦<MemDisk as Disk>⟧.since disk) (⟦<FailingDisk as Disk>⟧.since result) }
        ensures faults { ⟦<FailingDisk as Disk>⟧.faults result ≡ 0 }
        ensures calls { ⟦<FailingDisk as Disk>⟧.calls result ≡ 0 }
        ensures syncs { ⟦<FailingDisk as Disk>⟧.syncs result ≡ 0 }
    {
        FailingDisk {
            disk,
            plan,
            counts: Counts::new(),
        }
    }

    /// The disk below.
    pub fn into_disk(self) -> MemDisk
        ensures content { ⟦<MemDisk as Disk>⟧.content result ≡ ⟦<FailingDisk as Disk>⟧.content self }
        ensures clock { ⟦<MemDisk as Disk>⟧.clock result ≡ ⟦<FailingDisk as Disk>⟧.clock self }
        ensures images { SameImages (⟦<FailingDisk as Disk>⟧.since self) (⟦<MemDisk as Disk>⟧.since result) }
    {
        let FailingDisk {
            disk,
            plan: _,
            counts: _,
        } = self;
        disk
    }
}

/// Makes disks whose calls from some number on fail.
pub struct FusedDisk;

impl FusedDisk {
    /// A disk that stops at its k-th call: that one fails, and all behind it.
    pub fn make(disk: MemDisk, k: u64) -> FailingDisk
        ensures plan { plan_of result ≡ From k }
        ensures content { ⟦<FailingDisk as Disk>⟧.content result ≡ ⟦<MemDisk as Disk>⟧.content disk }
        ensures clock { ⟦<FailingDisk as Disk>⟧.clock result ≡ ⟦<MemDisk as Disk>⟧.clock disk }
        ensures images { SameImages (⟦<MemDisk as Disk>⟧.since disk) (⟦<FailingDisk as Disk>⟧.since result) }
        ensures faults { ⟦<FailingDisk as Disk>⟧.faults result ≡ 0 }
        ensures calls { ⟦<FailingDisk as Disk>⟧.calls result ≡ 0 }
        ensures syncs { ⟦<FailingDisk as Disk>⟧.syncs result ≡ 0 }
    {
        FailingDisk::make(disk, Plan::From(k))
    }
}

/// Makes disks some of whose calls fail, and that go on.
pub struct StumbleDisk;

impl StumbleDisk {
    /// A disk that fails the calls of these numbers.
    pub fn make(disk: MemDisk, calls: Vec<u64>) -> FailingDisk
        ensures plan { plan_of result ≡ Listed calls.items }
        ensures content { ⟦<FailingDisk as Disk>⟧.content result ≡ ⟦<MemDisk as Disk>⟧.content disk }
        ensures clock { ⟦<FailingDisk as Disk>⟧.clock result ≡ ⟦<MemDisk as Disk>⟧.clock disk }
        ensures images { SameImages (⟦<MemDisk as Disk>⟧.since disk) (⟦<FailingDisk as Disk>⟧.since result) }
        ensures faults { ⟦<FailingDisk as Disk>⟧.faults result ≡ 0 }
        ensures calls { ⟦<FailingDisk as Disk>⟧.calls result ≡ 0 }
        ensures syncs { ⟦<FailingDisk as Disk>⟧.syncs result ≡ 0 }
    {
        FailingDisk::make(disk, Plan::Listed(Items::from_vec(calls)))
    }
}

impl Disk for FailingDisk {
    ghost content = { λ d. Some (mem_bytes d.disk) };

    ghost may = { λ d c. IsImage (mem_first d.disk) (mem_calls d.disk) c };

    ghost since = { λ d t c. WasImage (mem_first d.disk) (mem_calls d.disk) t c };

    ghost clock = { λ d. length (mem_calls d.disk) };

    ghost faults = { λ d. d.counts.faults };

    ghost calls = { λ d. d.counts.calls };

    ghost syncs = { λ d. d.counts.syncs };

    ghost reads_as = { λ d bytes is. reads_as_told (mem_first d.disk) (mem_calls d.disk) bytes is };

    ghost counts_now = { λ d t c le now. counts_now_image (mem_first d.disk) (mem_calls d.disk) t c le now };

    ghost only_now = { λ d c was. only_now_image (mem_first d.disk) (mem_calls d.disk) c was };

    ghost earlier = { λ d t u c le was. earlier_image (mem_first d.disk) (mem_calls d.disk) t u c le was };

    fn len(&mut self) -> Result<u64, Failed>
        ensures planned { IsTrue (next_fails self.old) → FailsAlone self.old self.new result }
        ensures length { IfOk result (λ n. n ≡ length (mem_bytes self.old.disk)) }
        ensures content { mem_bytes self.new.disk ≡ mem_bytes self.old.disk }
        ensures images { let d = ⟦<FailingDisk as Disk>⟧ in AddsNoImage d.clock d.may d.since self.old self.new }
        ensures cause { HasCause self.old.counts.faults self.new.counts.faults result }
        ensures calls { self.new.counts.calls ≡ counted self.old.counts.calls }
        ensures syncs { self.new.counts.syncs ≡ self.old.counts.syncs }
    {
        self.counts.call();
        if self.plan.fails(self.counts.calls) {
            return self.counts.answered(Err(Failed));
        }
        let answer = self.disk.len();
        self.counts.answered(answer)
    }

    fn read(&mut self, at: u64, buf: &mut [u8]) -> Result<usize, Failed>
        ensures planned { IsTrue (next_fails self.old) → FailsAlone self.old self.new result × (buf.new ≡ buf.old) }
        ensures within { IfOk result (λ n. n ≤ length buf.old) }
        ensures count { IfOk result (λ n. n ≡ min (length buf.old) (length (mem_bytes self.old.disk) - at)) }
        ensures bytes { IfOk result (λ n. buf.new ≡ take n (drop at (mem_bytes self.old.disk)) ++ drop n buf.old) }
        ensures content { mem_bytes self.new.disk ≡ mem_bytes self.old.disk }
        ensures images { let d = ⟦<FailingDisk as Disk>⟧ in AddsNoImage d.clock d.may d.since self.old self.new }
        ensures cause { HasCause self.old.counts.faults self.new.counts.faults result }
        ensures calls { self.new.counts.calls ≡ counted self.old.counts.calls }
        ensures syncs { self.new.counts.syncs ≡ self.old.counts.syncs }
    {
        self.counts.call();
        if self.plan.fails(self.counts.calls) {
            return self.counts.answered(Err(Failed));
        }
        let answer = self.disk.read(at, buf);
        self.counts.answered(answer)
    }

    fn write_at(&mut self, at: u64, bytes: &[u8]) -> Result<(), Failed>
        requires { ForSome (⟦<FailingDisk as Disk>⟧.content self.old) (λ old. at ≤ length old) }
        ensures planned { IsTrue (next_fails self.old) → FailsAlone self.old self.new result }
        ensures written { OnOk result (mem_bytes self.new.disk ≡ written at bytes.now (mem_bytes self.old.disk)) }
        ensures torn { OnErr result (Torn at (length bytes.now) (mem_bytes self.old.disk) (mem_bytes self.new.disk)) }
        ensures images { let d = ⟦<FailingDisk as Disk>⟧ in AddsImages d.clock d.may d.since
            (Torn at (length bytes.now)) self.old self.new }
        ensures cause { HasCause self.old.counts.faults self.new.counts.faults result }
        ensures calls { self.new.counts.calls ≡ counted self.old.counts.calls }
        ensures syncs { self.new.counts.syncs ≡ self.old.counts.syncs }
    {
        self.counts.call();
        if self.plan.fails(self.counts.calls) {
            return self.counts.answered(Err(Failed));
        }
        let answer = self.disk.write_at(at, bytes);
        self.counts.answered(answer)
    }

    fn sync(&mut self) -> Result<(), Failed>
        ensures planned { IsTrue (next_fails self.old) → FailsAlone self.old self.new result }
        ensures durable { OnOk result (Only (Some (mem_bytes self.new.disk)) (⟦<FailingDisk as Disk>⟧.may self.new)) }
        ensures next { OnOk result (length (mem_calls self.new.disk) ≡ counted (length (mem_calls self.old.disk))) }
        ensures content { mem_bytes self.new.disk ≡ mem_bytes self.old.disk }
        ensures images { let d = ⟦<FailingDisk as Disk>⟧ in AddsNoImage d.clock d.may d.since self.old self.new }
        ensures cause { HasCause self.old.counts.faults self.new.counts.faults result }
        ensures calls { self.new.counts.calls ≡ counted self.old.counts.calls }
        ensures syncs { self.new.counts.syncs ≡ counted self.old.counts.syncs }
    {
        self.counts.sync();
        if self.plan.fails(self.counts.calls) {
            return self.counts.answered(Err(Failed));
        }
        let answer = self.disk.sync();
        self.counts.answered(answer)
    }

    fn moment(&self) -> u64 {
        self.disk.moment()
    }

    fn fault_count(&self) -> u64 {
        self.counts.faults
    }
}
