// The frames of a journal's image.
ghost use Rattle.std.specs.Prelude.{◌≡◌, ◌+◌, ◌≤◌, ◌<◌, ◌^◌, ◌++◌, ◌∷◌, [], List, ℕ, Some, length, take, OnOk};
ghost use Rattle.std.specs.Prelude.{option_map};
ghost use Rattle.field_io.specs.Causes.{HasCause};
ghost use Rattle.disk_model.specs.Disk.{Only, written};
ghost use Rattle.device_journal.specs.Frames.{Stands, limit};
ghost use Rattle.device_journal.specs.Moments.{LeavesOnly};
ghost use Rattle.device_journal.specs.Sound.{IsTorn, IsBetween, IsBeforeOrAfter, HasEnd, body_of, framed};

use disk_model::Disk;
use field_io::Failed;

pub const OPEN_GATE: u8 = 0xA7;

pub const LIMIT: u64 = 134_217_728;

// A payload of at most 524,283 bytes, its length and the gate behind it.
pub const FRAME_SPACE: usize = 524_288;

// Writes these bytes at a place, and syncs.
fn write_synced<D: Disk>(disk: &mut D, at: u64, bytes: &[u8]) -> Result<(), Failed>
    requires only { Only (D.content disk.old) (D.may disk.old) }
    requires within { (image : List ℕ) → D.content disk.old ≡ Some image → at ≤ length image }
    ensures any_moment { LeavesOnly D.clock D.since disk.old disk.new
        (IsTorn (D.content disk.old) at (length bytes.now)) }
    ensures written { OnOk result (D.content disk.new ≡ option_map (written at bytes.now) (D.content disk.old)) }
    ensures only_new { OnOk result (Only (D.content disk.new) (D.may disk.new)) }
    ensures cause { HasCause (D.faults disk.old) (D.faults disk.new) result }
{
    disk.write_at(at, bytes)?;
    disk.sync()
}

// Writes what stands behind the gate, and only when that is durable the gate itself.
pub fn write_frame<D: Disk>(disk: &mut D, gate: u64, body: &[u8]) -> Result<(), Failed>
    requires only { Only (D.content disk.old) (D.may disk.old) }
    requires within { (image : List ℕ) → D.content disk.old ≡ Some image → gate < length image }
    requires small { gate < 2 ^ 63 }
    ensures any_moment { LeavesOnly D.clock D.since disk.old disk.new (IsBetween (D.content disk.old) gate body.now) }
    ensures written { OnOk result (D.content disk.new ≡ option_map (framed gate body.now) (D.content disk.old)) }
    ensures only_new { OnOk result (Only (D.content disk.new) (D.may disk.new)) }
    ensures cause { HasCause (D.faults disk.old) (D.faults disk.new) result }
{
    write_synced(disk, gate + 1, body)?;
    write_synced(disk, gate, &[OPEN_GATE])
}

// What stands behind the gate of a frame: the length, the payload, and the next gate, shut.
fn fill(body: &mut [u8], payload: &[u8])
    requires small { length payload.now < 2 ^ 32 }
    requires room { length payload.now + 5 ≤ length body.old }
    ensures { take (length payload.now + 5) body.new ≡ body_of payload.now }
{
    let end = 4 + payload.len();
    body[..4].copy_from_slice(&(payload.len() as u32).to_le_bytes());
    body[4..end].copy_from_slice(payload);
    body[end] = 0;
}

// Writes a frame behind the last one, whose gate stands at this place.
pub fn write_payload<D: Disk>(
    disk: &mut D,
    room: &mut [u8],
    gate: u64,
    payload: &[u8],
) -> Result<(), Failed>
    requires some { 1 ≤ length payload.now }
    requires room { length payload.now + 5 ≤ length room.old }
    requires fits { gate + 6 + length payload.now ≤ limit }
    requires only { Only (D.content disk.old) (D.may disk.old) }
    requires ends { (image : List ℕ) → D.content disk.old ≡ Some image → ∥ HasEnd image gate ∥₁ }
    ensures any_moment { (payloads : List (List ℕ)) → Stands (D.content disk.old) payloads
        → LeavesOnly D.clock D.since disk.old disk.new (IsBeforeOrAfter payloads payload.now) }
    ensures stands { OnOk result ((payloads : List (List ℕ)) → Stands (D.content disk.old) payloads
        → Stands (D.content disk.new) (payloads ++ payload.now ∷ [])) }
    ensures only_new { OnOk result (Only (D.content disk.new) (D.may disk.new)) }
    ensures ends_new { OnOk result ((image : List ℕ) → D.content disk.new ≡ Some image
        → ∥ HasEnd image (gate + 5 + length payload.now) ∥₁) }
    ensures cause { HasCause (D.faults disk.old) (D.faults disk.new) result }
{
    fill(room, payload);
    write_frame(disk, gate, &room[..payload.len() + 5])
}
