// The parts of an append.
ghost use Rattle.std.specs.Prelude.{◌≡◌, ◌∷◌, [], ◌++◌, ◌<◌, Ok, IfOk, IfSome, OnOk, vec_len, vec_capacity};
ghost use Rattle.device_state.specs.State.{HasRoom, plain};
ghost use Rattle.entry_codec.specs.Spelling.{Fits, IsShort, spelling};
ghost use Rattle.device_rules.specs.Prepared.{Prepares, entry_of};
ghost use Rattle.device_rules.specs.Step.{step};
ghost use Rattle.device_rules.specs.Trail.{marked_at};

use device_rules::{Answer, Marked, Prepared, apply, begin};
use device_state::State;
use entry_codec::spell;
use entry_form::{Entry, Opening};
use field_text::NoMemory;
use std::alloc::Global;

// The step that opens the device, if memory allows it.
pub fn prepare_opening(alloc: Global, state: &State, opening: Opening) -> Option<Prepared>
    ensures { IfSome result (Prepares (plain state.now) (Entry.Opened opening)) }
{
    begin(alloc, state, opening).ok()
}

// The entry's bytes, and room for it among the entries and for what it may add to the state.
pub fn spell_with_room(
    alloc: Global,
    entry: &Entry,
    entries: &mut Vec<Marked>,
    state: &mut State,
) -> Result<Vec<u8>, NoMemory>
    requires { IsShort entry.now }
    ensures payload { IfOk result (λ payload. payload.items ≡ spelling entry.now) }
    ensures fits { OnOk result (Fits entry.now) }
    ensures room { OnOk result (vec_len entries.new < vec_capacity entries.new) }
    ensures state_room { OnOk result (HasRoom state.new) }
    ensures same { entries.new.items ≡ entries.old.items }
    ensures same_state { plain state.new ≡ plain state.old }
{
    let mut payload = Vec::new(alloc);
    spell(alloc, entry, &mut payload)?;
    state.reserve()?;
    entries.reserve(1)?;
    Ok(payload)
}

// Makes the step, and keeps its entry with the moment.
pub fn make_step(
    state: &mut State,
    entries: &mut Vec<Marked>,
    prepared: Prepared,
    moment: u64,
) -> Answer
    requires step { Prepares (plain state.old) (entry_of prepared) prepared }
    requires room { vec_len entries.old < vec_capacity entries.old }
    requires state_room { HasRoom state.old }
    ensures stepped { step (plain state.old) (entry_of prepared) ≡ Ok (plain state.new, result) }
    ensures kept { entries.new.items ≡ entries.old.items ++ marked_at moment (entry_of prepared) ∷ [] }
{
    let (entry, answer) = apply(state, prepared);
    let _pushed = entries.push(Marked { entry, moment });
    answer
}
