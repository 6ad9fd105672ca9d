// Opening a journal: a sync, the image, and the header with a shut gate where there is no journal yet.
ghost use Rattle.std.specs.Prelude.{◌≡◌, ◌≢◌, None, ◌≤◌, ◌⊎◌, List, ℕ, Some, length, vec_len, OnOk, OnErr, IfOk};
ghost use Rattle.std.specs.Prelude.{IfErr, IsErrOf, option_map};
ghost use Rattle.field_io.specs.Causes.{Rose, HasCause};
ghost use Rattle.disk_model.specs.Disk.{Only, AddsNoImage, written};
ghost use Rattle.device_journal.specs.Frames.{HasFrames, IsOffAt, Stands, end_of, start};
ghost use Rattle.device_journal.specs.Moments.{LeavesOnly, LeavesFrom, LeavesAsRead, IsAsRead, synced_at};
ghost use Rattle.device_journal.specs.Opened.{IsOpened, OfOpening};
ghost use Rattle.device_journal.specs.Journal.{journal_disk, journal_length, journal_opened, journal_failed};
ghost use Rattle.device_journal.specs.declared.fault.OpenFault.TheVariants.{DiskFault, BadJournal, NoMemory};

use crate::frame::FRAME_SPACE;
use crate::reading::read_frames;
use crate::{Journal, OpenFault};
use disk_model::Disk;
use field_io::Failed;
use field_text::{Blob, Items};
use std::alloc::Global;

// The header and a shut gate.
const START: [u8; 9] = *b"ODKDEV01\0";

// The bytes that the disk reads.
fn read_image<D: Disk>(alloc: Global, disk: &mut D) -> Result<Vec<u8>, OpenFault>
    ensures bytes { IfOk result (λ bytes. (image : List ℕ) → D.content disk.old ≡ Some image → bytes.items ≡ image) }
    ensures content { D.content disk.new ≡ D.content disk.old }
    ensures images { AddsNoImage D.clock D.may D.since disk.old disk.new }
    ensures kept { OnOk result (D.faults disk.new ≡ D.faults disk.old) }
    ensures kept_err { IfErr result (λ fault. fault ≢ DiskFault → D.faults disk.new ≡ D.faults disk.old) }
    ensures later { D.faults disk.old ≤ D.faults disk.new }
    ensures cause { IsErrOf result DiskFault → Rose (D.faults disk.old) (D.faults disk.new) }
    ensures none_off { (at : ℕ) → IsErrOf result (BadJournal at) → ⊥ }
    ensures faults { IfErr result OfOpening }
{
    let size = disk.len()?;
    let mut bytes = vec![in alloc; 0u8; size as usize]?;
    let count = disk.read(0, &mut bytes)?;
    bytes.truncate(count);
    Ok(bytes)
}

// Makes a journal of no frames, where at most 9 bytes stand.
fn create<D: Disk>(disk: &mut D) -> Result<(), Failed>
    requires only { Only (D.content disk.old) (D.may disk.old) }
    requires short { (image : List ℕ) → D.content disk.old ≡ Some image → length image ≤ 9 }
    ensures any_moment { LeavesOnly D.clock D.since disk.old disk.new (IsAsRead (D.content disk.old)) }
    ensures written { OnOk result (D.content disk.new ≡ option_map (written 0 start) (D.content disk.old)) }
    ensures only_new { OnOk result (Only (D.content disk.new) (D.may disk.new)) }
    ensures cause { HasCause (D.faults disk.old) (D.faults disk.new) result }
{
    disk.write_at(0, &START)?;
    disk.sync()?;
    Ok(())
}

// The payloads that stand on a synced disk, and the place of the gate behind them.
fn read_or_create<D: Disk>(alloc: Global, disk: &mut D) -> Result<(Items<Blob>, u64), OpenFault>
    requires { Only (D.content disk.old) (D.may disk.old) }
    ensures any_moment { LeavesOnly D.clock D.since disk.old disk.new (IsAsRead (D.content disk.old)) }
    ensures opened { IfOk result (λ r. IsOpened (D.content disk.old) (D.content disk.new) r.0 r.1) }
    ensures only { OnOk result (Only (D.content disk.new) (D.may disk.new)) }
    ensures off { (at : ℕ) → IsErrOf result (BadJournal at) → (image : List ℕ) → D.content disk.old ≡ Some image
        → IsOffAt image at }
    ensures kept { OnOk result (D.faults disk.new ≡ D.faults disk.old) }
    ensures kept_err { IfErr result (λ fault. fault ≢ DiskFault → D.faults disk.new ≡ D.faults disk.old) }
    ensures later { D.faults disk.old ≤ D.faults disk.new }
    ensures cause { IsErrOf result DiskFault → Rose (D.faults disk.old) (D.faults disk.new) }
    ensures faults { IfErr result OfOpening }
{
    let image = read_image(alloc, disk)?;
    if image.len() > 9 {
        return read_frames(alloc, &image);
    }
    if create(disk).is_err() {
        return Err(OpenFault::DiskFault);
    }
    Ok((Items::new(alloc), 8))
}

// What an opening found, and room for a frame.
struct Found {
    payloads: Items<Blob>,
    gate: u64,
    opened: u64,
    room: Vec<u8>,
}

// Finds or makes a journal on a synced disk.
fn find<D: Disk>(alloc: Global, disk: &mut D) -> Result<Found, OpenFault>
    requires { Only (D.content disk.old) (D.may disk.old) }
    ensures any_moment { LeavesOnly D.clock D.since disk.old disk.new (IsAsRead (D.content disk.old)) }
    ensures moment { IfOk result (λ f. f.opened ≡ D.clock disk.old) }
    ensures opened { IfOk result (λ f. IsOpened (D.content disk.old) (D.content disk.new) f.payloads f.gate) }
    ensures only { OnOk result (Only (D.content disk.new) (D.may disk.new)) }
    ensures room { IfOk result (λ f. vec_len f.room ≡ 524288) }
    ensures off { (at : ℕ) → IsErrOf result (BadJournal at) → (image : List ℕ) → D.content disk.old ≡ Some image
        → IsOffAt image at }
    ensures kept { OnOk result (D.faults disk.new ≡ D.faults disk.old) }
    ensures kept_err { IfErr result (λ fault. fault ≢ DiskFault → D.faults disk.new ≡ D.faults disk.old) }
    ensures later { D.faults disk.old ≤ D.faults disk.new }
    ensures cause { IsErrOf result DiskFault → Rose (D.faults disk.old) (D.faults disk.new) }
    ensures faults { IfErr result OfOpening }
{
    let opened = disk.moment();
    let Ok(room) = vec![in alloc; 0u8; FRAME_SPACE] else {
        return Err(OpenFault::NoMemory);
    };
    match read_or_create(alloc, disk) {
        Ok((payloads, gate)) => Ok(Found {
            payloads,
            gate,
            opened,
            room,
        }),
        Err(fault) => Err(fault),
    }
}

// Syncs the disk, and finds or makes a journal on it.
fn prepare<D: Disk>(alloc: Global, disk: &mut D) -> Result<Found, OpenFault>
    ensures moment { IfOk result (λ f. f.opened ≡ synced_at D.clock disk.old) }
    ensures any_moment { IfOk result
        (λ f. LeavesFrom D.clock D.since disk.old disk.new f.opened (IsAsRead (D.content disk.old))) }
    ensures any_moment_err { OnErr result (LeavesAsRead D.clock D.may D.since (D.content disk.old) disk.old disk.new) }
    ensures opened { IfOk result (λ f. IsOpened (D.content disk.old) (D.content disk.new) f.payloads f.gate) }
    ensures only { OnOk result (Only (D.content disk.new) (D.may disk.new)) }
    ensures room { IfOk result (λ f. vec_len f.room ≡ 524288) }
    ensures off { (at : ℕ) → IsErrOf result (BadJournal at) → (image : List ℕ) → D.content disk.old ≡ Some image
        → IsOffAt image at }
    ensures kept { OnOk result (D.faults disk.new ≡ D.faults disk.old) }
    ensures kept_err { IfErr result (λ fault. fault ≢ DiskFault → D.faults disk.new ≡ D.faults disk.old) }
    ensures later { D.faults disk.old ≤ D.faults disk.new }
    ensures cause { IsErrOf result DiskFault → Rose (D.faults disk.old) (D.faults disk.new) }
    ensures faults { IfErr result OfOpening }
{
    match disk.sync() {
        Ok(()) => find(alloc, disk),
        Err(Failed) => Err(OpenFault::DiskFault),
    }
}

/// Opens the journal of a disk, and gives its payloads in order. It begins with a sync. Where at most 9 bytes stand, it
/// makes a journal of no payloads. A refusal hands the disk back.
pub fn open_journal<D: Disk>(
    alloc: Global,
    mut disk: D,
) -> Result<(Journal<D>, Items<Blob>), (D, OpenFault)>
    ensures found { IfOk result (λ r. Stands (D.content disk) r.1) }
    ensures stands { IfOk result (λ r. Stands (D.content (journal_disk r.0)) r.1) }
    ensures length { IfOk result (λ r. journal_length r.0 ≡ end_of r.1) }
    ensures sound { IfOk result (λ r. journal_failed r.0 ≡ None) }

    // The moment of an opening is that right after its first sync.
    ensures moment { IfOk result (λ r. journal_opened r.0 ≡ synced_at D.clock disk) }

    // Until the first sync a crash leaves what it might have left before; from then on what stands for the payloads.
    ensures any_moment { IfOk result (λ r. LeavesFrom D.clock D.since disk (journal_disk r.0) (journal_opened r.0)
        (λ c. HasFrames c r.1)) }
    ensures as_read { IfOk result (λ r. LeavesFrom D.clock D.since disk (journal_disk r.0) (journal_opened r.0)
        (IsAsRead (D.content disk))) }
    ensures any_moment_err { IfErr result (λ e. LeavesAsRead D.clock D.may D.since (D.content disk) disk e.0) }

    ensures off { IfErr result (λ e. (at : ℕ) → e.1 ≡ BadJournal at → (image : List ℕ) → D.content disk ≡ Some image
        → IsOffAt image at) }
    ensures cause { IfErr result (λ e. e.1 ≡ DiskFault → Rose (D.faults disk) (D.faults e.0)) }
    ensures fault { IfErr result (λ e. OfOpening e.1) }
    ensures kept { IfOk result (λ r. D.faults (journal_disk r.0) ≡ D.faults disk) }
    ensures kept_err { IfErr result (λ e. e.1 ≢ DiskFault → D.faults e.0 ≡ D.faults disk) }
    ensures later_err { IfErr result (λ e. D.faults disk ≤ D.faults e.0) }
{
    match prepare(alloc, &mut disk) {
        Ok(found) => {
            let Found {
                payloads,
                gate,
                opened,
                room,
            } = found;
            Ok((Journal::over(disk, gate, opened, room), payloads))
        }
        Err(fault) => Err((disk, fault)),
    }
}
