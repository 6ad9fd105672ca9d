// The open questionnaire is kept as a draft and closed, and its savepoint is gone.
ghost use Rattle.std.specs.Prelude.{◌≡◌, ◌<◌, ◌^◌, IfOk, OnOk};
ghost use Rattle.field_text.specs.Steps.{Gives};
ghost use Rattle.device_state.specs.Changes.{instances_changed};
ghost use Rattle.device_state.specs.State.{plain};
ghost use Rattle.device_rules.specs.Prepared.{Makes, with_parts};
ghost use Rattle.device_rules.specs.Refused.{rule_of};
ghost use Rattle.device_rules.specs.SaveDraft.{counters_after, draft_of, id_of_instance, instances_with, kept_name};
ghost use Rattle.device_rules.specs.SaveDraft.{HasNumber, name_of, new_name, old_name, save_draft, saved};

use crate::answer::Answer;
use crate::prepared::{MOST_ENTRIES, Parts, not_full};
use crate::queries::copy_option;
use crate::refused::{Refused, Which};
use crate::start::instance_of;
use device_state::{
    Changes, Counters, EntryChange, InstanceChange, OpenEntry, SavepointChange, State,
};
use field_text::{NoMemory, Text};
use instance_store::{INSTANCE_LIMIT, InstanceRec, Status};
use savepoints::KeyBase;
use std::alloc::Global;

/// By what a draft is known, and what it is an edit of.
#[derive(Debug, Drop)]
pub struct Named {
    pub number: u64,
    pub edit_of: Option<u64>,
    pub deprecated: Option<Text>,
}

// The id of the instance with this number, if it has one.
pub(crate) fn id_of_instance(
    alloc: Global,
    state: &State,
    number: u64,
) -> Result<Option<Text>, NoMemory>
    ensures { IfOk result (λ id. id ≡ id_of_instance (plain state.now) number) }
{
    match instance_of(state, number) {
        Some(instance) => copy_option(alloc, &instance.instance_id),
        None => Ok(None),
    }
}

// A new instance has the next number, if there may be one more.
fn new_name(state: &State, edit_of: Option<u64>, deprecated: Option<Text>) -> Result<Named, Refused>
    ensures name { Gives rule_of (λ name. name) result (new_name (plain state.now) edit_of deprecated) }
    ensures room { OnOk result (state.now.counters.next_instance < 2 ^ 62) }
{
    if state.instances.as_slice().len() as u64 >= INSTANCE_LIMIT {
        return Err(Refused::Limit {
            which: Which::Instances,
            number: INSTANCE_LIMIT,
        });
    }
    if state.counters.next_instance >= MOST_ENTRIES {
        return Err(Refused::Limit {
            which: Which::Counters,
            number: MOST_ENTRIES,
        });
    }
    Ok(Named {
        number: state.counters.next_instance,
        edit_of,
        deprecated,
    })
}

pub(crate) fn kept_name(alloc: Global, instance: &InstanceRec) -> Result<Named, NoMemory>
    ensures { IfOk result (λ name. name ≡ kept_name instance.now) }
{
    Ok(Named {
        number: instance.number,
        edit_of: instance.edit_of,
        deprecated: copy_option(alloc, &instance.deprecated)?,
    })
}

fn old_name(alloc: Global, state: &State, number: u64) -> Result<Named, Refused>
    ensures { Gives rule_of (λ name. name) result (old_name (plain state.now) number) }
{
    match instance_of(state, number) {
        Some(instance) => Ok(kept_name(alloc, instance)?),
        None => Err(Refused::NoInstance),
    }
}

pub(crate) fn name_of(alloc: Global, state: &State, base: KeyBase) -> Result<Named, Refused>
    ensures name { Gives rule_of (λ name. name) result (name_of (plain state.now) base) }
    ensures room { OnOk result (HasNumber state.now.counters base) }
{
    match base {
        KeyBase::Blank => new_name(state, None, None),
        KeyBase::Draft(number) => old_name(alloc, state, number),
        KeyBase::Edit(number) => {
            let deprecated = id_of_instance(alloc, state, number)?;
            new_name(state, Some(number), deprecated)
        }
    }
}

pub(crate) fn draft_of(
    alloc: Global,
    name: Named,
    entry: &OpenEntry,
) -> Result<InstanceRec, NoMemory>
    ensures { IfOk result (λ draft. draft ≡ draft_of name entry.now) }
{
    let Named {
        number,
        edit_of,
        deprecated,
    } = name;
    Ok(InstanceRec {
        number,
        form: entry.form.id().copy(alloc)?,
        version: entry.form.version().copy(alloc)?,
        status: Status::Draft,
        sheet: entry.sheet.copy(alloc)?,
        doc: None,
        instance_id: None,
        edit_of,
        deprecated,
        final_at: 0,
        tried: 0,
    })
}

pub(crate) fn instances_change(base: KeyBase, draft: InstanceRec) -> InstanceChange
    ensures { (kept : _) → instances_changed result kept ≡ instances_with base draft kept }
{
    match base {
        KeyBase::Blank | KeyBase::Edit(_) => InstanceChange::Add(draft),
        KeyBase::Draft(_) => InstanceChange::Replace(draft),
    }
}

pub(crate) fn counters_after(base: KeyBase, counters: Counters) -> Counters
    requires position { counters.position < 2 ^ 62 }
    requires number { HasNumber counters base }
    ensures { result ≡ counters_after base counters }
{
    match base {
        KeyBase::Blank | KeyBase::Edit(_) => counters.one_more(),
        KeyBase::Draft(_) => counters.one_further(),
    }
}

pub(crate) fn save_draft(alloc: Global, state: &State) -> Result<Parts, Refused>
    ensures { Makes (plain state.now) result (save_draft (plain state.now)) }
{
    let Some(entry) = &state.entry else {
        return Err(Refused::NoEntry);
    };
    let name = name_of(alloc, state, entry.base)?;
    not_full(state)?;
    let number = name.number;
    let draft = draft_of(alloc, name, entry)?;
    let key = entry.key(alloc)?;
    Ok(Parts {
        changes: Changes {
            instances: instances_change(entry.base, draft),
            savepoints: SavepointChange::Remove(key),
            entry: EntryChange::Close,
            ..Changes::counted(counters_after(entry.base, state.counters))
        },
        answer: Answer::Number(number),
    })
}
