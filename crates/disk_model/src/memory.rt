// A disk in memory, which keeps the calls that were made: what a crash may leave at each moment follows from them.
ghost use Rattle.std.specs.Prelude.{◌≡◌, ℕ, List, ◌-◌, ◌≤◌, ◌∷◌, [], ◌++◌, Some, length, min, take, drop, IfOk, OnOk};
ghost use Rattle.std.specs.Prelude.{OnErr};
ghost use Rattle.field_io.specs.Causes.{HasCause};
ghost use Rattle.disk_model.specs.Disk.{written, Only};
ghost use Rattle.disk_model.specs.Images.{held_after, held_after_all, IsImage, WasImage};
ghost use Rattle.disk_model.specs.Laws.{reads_as_told, counts_now_image, only_now_image, earlier_image};
ghost use Rattle.disk_model.specs.declared.calls.Call.TheVariants.{Len, Read, Write, Sync};

use crate::counts::Counts;
use crate::{Call, Disk};
use field_io::Failed;
use field_text::{Blob, NoMemory};
use std::alloc::Global;

/// A disk in memory. A call of it fails only where memory for its growth was refused, and then changes its counts
/// alone.
#[derive(Drop)]
pub struct MemDisk {
    alloc: Global,
    first: Vec<u8>,
    bytes: Vec<u8>,
    calls: Vec<Call>,
    counts: Counts,
    ghost replayed: { bytes.items ≡ held_after_all first.items calls.items },
}

// Keeps a call that changes no byte; where memory for it was refused, counts a fault.
fn keep(calls: &mut Vec<Call>, counts: &mut Counts, call: Call) -> Result<(), Failed>
    requires { (held : List ℕ) → held_after held call ≡ held }
    ensures same { (first : List ℕ) → held_after_all first calls.new.items ≡ held_after_all first calls.old.items }
    ensures ok { OnOk result (calls.new.items ≡ calls.old.items ++ call ∷ []) }
    ensures err { OnErr result (calls.new.items ≡ calls.old.items) }
    ensures cause { HasCause counts.old.faults counts.new.faults result }
    ensures counts { counts.new ≡ record counts.old { faults = counts.new.faults } }
{
    if calls.push(call).is_err() {
        counts.fault();
        return Err(Failed);
    }
    Ok(())
}

// Writes over what stands at a place, and past the end.
fn overwrite(bytes: &mut Vec<u8>, at: usize, with: &[u8]) -> Result<(), NoMemory>
    requires { at ≤ length bytes.old.items }
    ensures ok { OnOk result (bytes.new.items ≡ written at with.now bytes.old.items) }
    ensures err { OnErr result (bytes.new.items ≡ bytes.old.items) }
{
    let inside = with.len().min(bytes.len() - at);
    bytes.extend_from_slice(&with[inside..])?;
    bytes[at..at + inside].copy_from_slice(&with[..inside]);
    Ok(())
}

// Writes, and keeps the call.
fn write_kept(
    alloc: Global,
    calls: &mut Vec<Call>,
    bytes: &mut Vec<u8>,
    at: u64,
    with: &[u8],
) -> Result<(), NoMemory>
    requires { at ≤ length bytes.old.items }
    ensures ok { OnOk result (bytes.new.items ≡ written at with.now bytes.old.items) }
    ensures kept { OnOk result (calls.new.items ≡ calls.old.items ++ Write at with.now ∷ []) }
    ensures err { OnErr result (bytes.new.items ≡ bytes.old.items) }
    ensures none_kept { OnErr result (calls.new.items ≡ calls.old.items) }
{
    let copy = Blob::from_bytes(alloc, with)?;
    calls.push(Call::Write { at, bytes: copy })?;
    let answer = overwrite(bytes, at as usize, with);
    if answer.is_err() {
        let _ = calls.pop();
    }
    answer
}

// The front of `buf` from what stands at a place on.
fn read_from(bytes: &[u8], at: u64, buf: &mut [u8]) -> usize
    ensures count { result ≡ min (length buf.old) (length bytes.now - at) }
    ensures bytes { buf.new ≡ take result (drop at bytes.now) ++ drop result buf.old }
{
    if at >= bytes.len() as u64 {
        return 0;
    }
    let rest = &bytes[at as usize..];
    let n = buf.len().min(rest.len());
    buf[..n].copy_from_slice(&rest[..n]);
    n
}

impl MemDisk {
    ghost use Rattle.disk_model.specs.Memory.{mem_calls};

    /// A disk that holds these bytes, with nothing pending.
    pub fn make(alloc: Global, bytes: Vec<u8>) -> Result<MemDisk, NoMemory>
        ensures content { IfOk result (λ disk. ⟦<MemDisk as Disk>⟧.content disk ≡ Some bytes.items) }
        ensures only { IfOk result (λ disk. Only (Some bytes.items) (⟦<MemDisk as Disk>⟧.may disk)) }
        ensures calls_kept { IfOk result (λ disk. mem_calls disk ≡ []) }
        ensures clock { IfOk result (λ disk. ⟦<MemDisk as Disk>⟧.clock disk ≡ 0) }
        ensures faults { IfOk result (λ disk. ⟦<MemDisk as Disk>⟧.faults disk ≡ 0) }
        ensures calls { IfOk result (λ disk. ⟦<MemDisk as Disk>⟧.calls disk ≡ 0) }
        ensures syncs { IfOk result (λ disk. ⟦<MemDisk as Disk>⟧.syncs disk ≡ 0) }
    {
        Ok(MemDisk {
            alloc,
            first: Vec::from_slice(alloc, &bytes)?,
            bytes,
            calls: Vec::new(alloc),
            counts: Counts::new(),
        })
    }

    /// What a read gives.
    pub fn bytes(&self) -> &[u8]
        ensures { ⟦<MemDisk as Disk>⟧.content self.now ≡ Some result.now }
    {
        &self.bytes
    }

    /// The calls made so far, those that failed left out.
    pub fn calls(&self) -> &[Call]
        ensures { result.now ≡ mem_calls self.now }
    {
        &self.calls
    }
}

impl Disk for MemDisk {
    ghost content = { λ d. Some (held_after_all d.first.items d.calls.items) };

    ghost may = { λ d c. IsImage d.first.items d.calls.items c };

    ghost since = { λ d t c. WasImage d.first.items d.calls.items t c };

    ghost clock = { λ d. length d.calls.items };

    ghost faults = { λ d. d.counts.faults };

    ghost calls = { λ d. d.counts.calls };

    ghost syncs = { λ d. d.counts.syncs };

    ghost reads_as = { λ d bytes is. reads_as_told d.first.items d.calls.items bytes is };

    ghost counts_now = { λ d t c le now. counts_now_image d.first.items d.calls.items t c le now };

    ghost only_now = { λ d c was. only_now_image d.first.items d.calls.items c was };

    ghost earlier = { λ d t u c le was. earlier_image d.first.items d.calls.items t u c le was };

    fn len(&mut self) -> Result<u64, Failed> {
        self.counts.call();
        keep(&mut self.calls, &mut self.counts, Call::Len)?;
        Ok(self.bytes.len() as u64)
    }

    fn read(&mut self, at: u64, buf: &mut [u8]) -> Result<usize, Failed> {
        self.counts.call();
        keep(&mut self.calls, &mut self.counts, Call::Read)?;
        Ok(read_from(&self.bytes, at, buf))
    }

    fn write_at(&mut self, at: u64, bytes: &[u8]) -> Result<(), Failed> {
        self.counts.call();
        if write_kept(self.alloc, &mut self.calls, &mut self.bytes, at, bytes).is_err() {
            self.counts.fault();
            return Err(Failed);
        }
        Ok(())
    }

    fn sync(&mut self) -> Result<(), Failed> {
        self.counts.sync();
        keep(&mut self.calls, &mut self.counts, Call::Sync)?;
        Ok(())
    }

    fn moment(&self) -> u64 {
        self.calls.len() as u64
    }

    fn fault_count(&self) -> u64 {
        self.counts.faults
    }
}
