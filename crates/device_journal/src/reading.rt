// Reading an image frame by frame.
ghost use Rattle.std.specs.Prelude.{◌≡◌, ◌≢◌, ◌+◌, ◌<◌, ◌≤◌, ◌∷◌, ◌++◌, [], ℕ, length, take, IfOk, IfErr, OnOk};
ghost use Rattle.std.specs.Prelude.{IsErrOf, MatchOption};
ghost use Rattle.device_journal.specs.Frames.{frame, open_gate, IsPayload, BeginsWithFrame, IsOffAt};
ghost use Rattle.device_journal.specs.Opened.{OfOpening};
ghost use Rattle.device_journal.specs.Sound.{EndsAt};
ghost use Rattle.device_journal.specs.declared.fault.OpenFault.TheVariants.{DiskFault, BadJournal, NoMemory};

use crate::OpenFault;
use crate::frame::{LIMIT, OPEN_GATE};
use field_text::{Blob, Items};
use std::alloc::Global;

const HEADER: [u8; 8] = *b"ODKDEV01";

// The payload of the frame whose open gate these bytes stand behind, where the frame is whole and a gate follows it.
fn payload_behind(behind: &[u8]) -> Option<&[u8]>
    ensures { MatchOption result (BeginsWithFrame (open_gate ∷ behind.now) → ⊥)
        (λ p. IsPayload p.now × (take (5 + length p.now) (open_gate ∷ behind.now) ≡ frame p.now)
        × (5 + length p.now ≤ length behind.now)) }
{
    let [a, b, c, d, rest @ ..] = behind else {
        return None;
    };
    let size = u32::from_le_bytes([*a, *b, *c, *d]) as usize;
    if size == 0 || rest.len() <= size {
        return None;
    }
    Some(&rest[..size])
}

// The payloads of an image of more than 9 bytes, and the place of the gate behind the last frame.
pub fn read_frames(alloc: Global, image: &[u8]) -> Result<(Items<Blob>, u64), OpenFault>
    requires { 9 < length image.now }
    ensures ends { IfOk result (λ r. EndsAt image.now r.1 r.0) }
    ensures off { (at : ℕ) → IsErrOf result (BadJournal at) → IsOffAt image.now at }
    ensures no_disk_fault { IsErrOf result DiskFault → ⊥ }
    ensures faults { IfErr result OfOpening }
{
    if &image[..8] != HEADER.as_slice() {
        return Err(OpenFault::BadJournal { at: 0 });
    }
    let mut payloads = Vec::new(alloc);
    let mut gate = 8;
    while image[gate] == OPEN_GATE {
        let Some(payload) = payload_behind(&image[gate + 1..]) else {
            return Err(OpenFault::BadJournal { at: gate as u64 });
        };
        keep(alloc, &mut payloads, payload)?;
        gate += 5 + payload.len();
    }
    if image.len() as u64 > LIMIT {
        return Err(OpenFault::BadJournal { at: LIMIT });
    }
    Ok((Items::from_vec(payloads), gate as u64))
}

fn keep(alloc: Global, payloads: &mut Vec<Blob>, payload: &[u8]) -> Result<(), OpenFault>
    ensures ok { OnOk result (payloads.new.items ≡ payloads.old.items ++ payload.now ∷ []) }
    ensures err { IfErr result (λ fault. fault ≡ NoMemory) }
{
    payloads.push(Blob::from_bytes(alloc, payload)?)?;
    Ok(())
}
