// A journal: payloads are added at its end, each durable once its append has answered.
ghost use Rattle.std.specs.Prelude.{◌≡◌, ◌+◌, ◌<◌, ◌≤◌, ◌++◌, ◌∷◌, [], List, ℕ, None, Some, Err, length, vec_len};
ghost use Rattle.std.specs.Prelude.{OnOk, IfOk, IsErrOf};
ghost use Rattle.field_io.specs.Causes.{Rose};
ghost use Rattle.disk_model.specs.Disk.{Only};
ghost use Rattle.device_journal.specs.Frames.{HasFrames, Stands, limit};
ghost use Rattle.device_journal.specs.Moments.{LeavesOnly};
ghost use Rattle.device_journal.specs.Sound.{HasEnd, IsBeforeOrAfter};

use crate::AppendFault;
use crate::frame::{LIMIT, write_payload};
use disk_model::Disk;

/// A journal on a disk.
#[derive(Drop)]
pub struct Journal<D: Disk> {
    disk: D,
    // the place of the gate behind the last frame
    gate: u64,
    // the moment after the opening's sync
    opened: u64,
    // the disk's count of faults, once an append has met one
    failed: Option<u64>,
    // room for one frame
    room: Vec<u8>,
    ghost room_for_a_frame: { vec_len room ≡ 524288 },
    ghost within: { gate < limit },
    ghost only: { failed ≡ None → Only (D.content disk) (D.may disk) },
    ghost ends: { failed ≡ None → (image : List ℕ) → D.content disk ≡ Some image → ∥ HasEnd image gate ∥₁ },
}

impl<D: Disk> Journal<D> {
    ghost use Rattle.device_journal.specs.Journal.{journal_disk, journal_length, journal_opened, journal_failed};

    // A journal that an opening has found or made.
    pub(crate) fn over(disk: D, gate: u64, opened: u64, room: Vec<u8>) -> Journal<D>
        requires room { vec_len room ≡ 524288 }
        requires within { gate < limit }
        requires only { Only (D.content disk) (D.may disk) }
        requires ends { (image : List ℕ) → D.content disk ≡ Some image → ∥ HasEnd image gate ∥₁ }
        ensures disk { journal_disk result ≡ disk }
        ensures length { journal_length result ≡ gate + 1 }
        ensures opened { journal_opened result ≡ opened }
        ensures sound { journal_failed result ≡ None }
    {
        Journal {
            disk,
            gate,
            opened,
            failed: None,
            room,
        }
    }

    /// Adds a payload, by four calls of the disk. `Ok` is the disk's moment: from then on each crash leaves an image
    /// that has the payload. After `DiskFault` the journal takes no more: open it again.
    pub fn append(&mut self, payload: &[u8]) -> Result<u64, AppendFault>
        requires some { 1 ≤ length payload.now }
        requires small { length payload.now ≤ 524283 }

        // A crash at any moment of the call leaves the payloads from before it, with the new one or without.
        ensures any_moment { journal_failed self.old ≡ None → (payloads : List (List ℕ))
            → Stands (D.content (journal_disk self.old)) payloads
            → LeavesOnly D.clock D.since (journal_disk self.old) (journal_disk self.new)
            (IsBeforeOrAfter payloads payload.now) }

        ensures opened { journal_opened self.new ≡ journal_opened self.old }
        ensures kept { OnOk result (D.faults (journal_disk self.new) ≡ D.faults (journal_disk self.old)) }
        ensures later { D.faults (journal_disk self.old) ≤ D.faults (journal_disk self.new) }

        ensures moment { IfOk result (λ moment. moment ≡ D.clock (journal_disk self.new)) }
        ensures durable { (payloads : List (List ℕ)) → Stands (D.content (journal_disk self.old)) payloads
            → IfOk result (λ moment. (c : List ℕ) → D.since (journal_disk self.new) moment c
            → HasFrames c (payloads ++ payload.now ∷ [])) }
        ensures stands { (payloads : List (List ℕ)) → Stands (D.content (journal_disk self.old)) payloads
            → OnOk result (Stands (D.content (journal_disk self.new)) (payloads ++ payload.now ∷ [])) }
        ensures length { OnOk result (journal_length self.new ≡ journal_length self.old + 5 + length payload.now) }
        ensures sound { OnOk result (journal_failed self.new ≡ None) }

        ensures failed { (faults : ℕ) → journal_failed self.old ≡ Some faults
            → result ≡ Err (AppendFault.Failed faults) }
        ensures failed_only { (faults : ℕ) → IsErrOf result (AppendFault.Failed faults)
            → journal_failed self.old ≡ Some faults }
        ensures full { journal_failed self.old ≡ None → limit < journal_length self.old + 5 + length payload.now
            → result ≡ Err (AppendFault.Full (journal_length self.old)) }
        ensures full_only { (size : ℕ) → IsErrOf result (AppendFault.Full size)
            → (journal_failed self.old ≡ None) × (size ≡ journal_length self.old)
            × (limit < size + 5 + length payload.now) }
        ensures unchanged_failed { (faults : ℕ) → IsErrOf result (AppendFault.Failed faults) → self.new ≡ self.old }
        ensures unchanged_full { (size : ℕ) → IsErrOf result (AppendFault.Full size) → self.new ≡ self.old }
        ensures fault { IsErrOf result AppendFault.DiskFault
            → Rose (D.faults (journal_disk self.old)) (D.faults (journal_disk self.new)) }
        ensures fault_kept { IsErrOf result AppendFault.DiskFault
            → journal_failed self.new ≡ Some (D.faults (journal_disk self.new)) }
    {
        if let Some(faults) = self.failed {
            return Err(AppendFault::Failed { faults });
        }
        let size = payload.len() as u64;
        if self.gate + 6 + size > LIMIT {
            return Err(AppendFault::Full {
                length: self.gate + 1,
            });
        }
        if write_payload(&mut self.disk, &mut self.room, self.gate, payload).is_err() {
            self.failed = Some(self.disk.fault_count());
            return Err(AppendFault::DiskFault);
        }
        self.gate = self.gate + 5 + size;
        Ok(self.disk.moment())
    }

    /// The disk's count of faults when an append met one, if one has.
    pub fn failed(&self) -> Option<u64>
        ensures { result ≡ journal_failed self.now }
    {
        self.failed
    }

    /// The disk's count of faults.
    pub fn fault_count(&self) -> u64
        ensures { result ≡ D.faults (journal_disk self.now) }
    {
        self.disk.fault_count()
    }

    /// How many bytes the journal has: one more than the place of the gate behind the last frame.
    pub fn length(&self) -> u64
        ensures { result ≡ journal_length self.now }
    {
        self.gate + 1
    }

    /// The moment after the sync that the opening began with.
    pub fn opened(&self) -> u64
        ensures { result ≡ journal_opened self.now }
    {
        self.opened
    }

    pub fn into_disk(self) -> D
        ensures { result ≡ journal_disk self }
    {
        let Journal {
            disk,
            gate: _,
            opened: _,
            failed: _,
            room: _,
        } = self;
        disk
    }
}
