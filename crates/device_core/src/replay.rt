// From the payloads of a journal to the state after its entries.
ghost use Rattle.std.specs.Prelude.{OnOk, ◌++◌, ◌≡◌, ◌∷◌, [], ◌+◌, ◌<◌, ◌≤◌, ℕ, length, map, Some, Ok, IfOk, IfErr};
ghost use Rattle.std.specs.List.{AllByRecursion};
ghost use Rattle.device_journal.specs.declared.fault.OpenFault.TheVariants.{NoMemory as Starved};
ghost use Rattle.entry_codec.specs.Spelling.{Fits, spelling};
ghost use Rattle.device_core.specs.Images.{IsOffSpelling};
ghost use Rattle.device_core.specs.Replay.{IsUnread, IsSpelledBy, IsReadFault, IsStepFault, IsReplayFault};
ghost use Rattle.device_core.specs.Replay.{IsRecoverFault, step_fault};
ghost use Rattle.device_state.specs.State.{initial, plain};
ghost use Rattle.device_rules.specs.Prepared.{Prepares};
ghost use Rattle.device_rules.specs.Step.{IsRefused};
ghost use Rattle.device_rules.specs.Trail.{entries_of, marked_at, replay, state_after};

use device_journal::OpenFault;
use device_rules::{Marked, Prepared, Refused, apply, begin, decide};
use device_state::State;
use entry_codec::{EntryRefused, read_entry};
use entry_form::Entry;
use field_text::Blob;
use std::alloc::Global;

// The entry that a payload at this position spells, and nothing more.
fn read_payload(alloc: Global, payload: &[u8], position: u64) -> Result<Entry, OpenFault>
    ensures read { IfOk result (λ entry. (payload.now ≡ spelling entry) × Fits entry) }
    ensures fault { IfErr result (IsUnread payload.now position) }
{
    match read_entry(alloc, payload) {
        Ok((entry, used)) => {
            if used < payload.len() {
                return Err(OpenFault::BadEntry { position });
            }
            Ok(entry)
        }
        Err(EntryRefused::BadSpelling { .. }) => Err(OpenFault::BadEntry { position }),
        Err(EntryRefused::NoMemory) => Err(OpenFault::NoMemory),
    }
}

// The entry of each payload.
pub fn read_payloads(alloc: Global, payloads: &[Blob]) -> Result<Vec<Entry>, OpenFault>
    ensures read { IfOk result (λ entries. IsSpelledBy payloads.now entries.items) }
    ensures fault { IfErr result (IsReadFault payloads.now) }
{
    let mut entries = Vec::new(alloc);
    for payload in payloads {
        let position = entries.as_slice().len() as u64 + 1;
        entries.push(read_payload(alloc, payload.bytes(), position)?)?;
    }
    Ok(entries)
}

fn prepare(alloc: Global, state: &State, entry: Entry) -> Result<Prepared, Refused>
    ensures prepared { IfOk result (Prepares (plain state.now) entry) }
    ensures refused { IfErr result (IsRefused (plain state.now) entry) }
{
    match entry {
        Entry::Opened(opening) => begin(alloc, state, opening),
        Entry::Done { hand, command } => decide(alloc, state, hand, command),
    }
}

// What opening answers where the rules refuse an entry at this position.
fn step_fault(why: Refused, position: u64) -> OpenFault
    ensures { result ≡ step_fault why position }
{
    match why {
        Refused::NoMemory => OpenFault::NoMemory,
        _ => OpenFault::IllegalEntry { position },
    }
}

// Makes the step of an entry, and keeps it.
fn step_on(
    alloc: Global,
    state: &mut State,
    marked: &mut Vec<Marked>,
    entry: Entry,
    moment: u64,
) -> Result<(), OpenFault>
    ensures kept { OnOk result (marked.new.items ≡ marked.old.items ++ marked_at moment entry ∷ []) }
    ensures stepped { OnOk result (state_after (plain state.old) entry ≡ Some (plain state.new)) }
    ensures fault { IfErr result (IsStepFault (plain state.old) entry (length marked.old.items + 1)) }
{
    let position = marked.as_slice().len() as u64 + 1;
    match prepare(alloc, state, entry) {
        Ok(prepared) => {
            state.reserve()?;
            let (entry, _answer) = apply(state, prepared);
            marked.push(Marked { entry, moment })?;
            Ok(())
        }
        Err(why) => Err(step_fault(why, position)),
    }
}

// The state after these entries, which get this moment.
pub fn replay(
    alloc: Global,
    entries: Vec<Entry>,
    moment: u64,
) -> Result<(State, Vec<Marked>), OpenFault>
    ensures entries { IfOk result (λ r. entries_of r.1.items ≡ entries.items) }
    ensures legal { IfOk result (λ r. replay initial (entries_of r.1.items) ≡ Some (plain r.0)) }
    ensures marked { IfOk result (λ r. r.1.items ≡ map (marked_at moment) (entries_of r.1.items)) }
    ensures fault { IfErr result (IsReplayFault entries.items) }
{
    let mut state = State::initial(alloc);
    let mut marked = Vec::new(alloc);
    let mut left = entries;
    left.reverse();
    while let Some(entry) = left.pop() {
        step_on(alloc, &mut state, &mut marked, entry, moment)?;
    }
    Ok((state, marked))
}

// The state after the entries that payloads spell, and these entries.
pub fn recover(
    alloc: Global,
    payloads: &[Blob],
    moment: u64,
) -> Result<(State, Vec<Marked>), OpenFault>
    ensures spelled { IfOk result (λ r. IsSpelledBy payloads.now (entries_of r.1.items)) }
    ensures legal { IfOk result (λ r. replay initial (entries_of r.1.items) ≡ Some (plain r.0)) }
    ensures marked { IfOk result (λ r. r.1.items ≡ map (marked_at moment) (entries_of r.1.items)) }
    ensures fault { IfErr result (IsRecoverFault payloads.now) }
{
    let entries = read_payloads(alloc, payloads)?;
    replay(alloc, entries, moment)
}
