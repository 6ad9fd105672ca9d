// The open questionnaire is finalized and closed, and its savepoint is gone.
ghost use Rattle.std.specs.Prelude.{◌≡◌, ◌+◌, ◌<◌, ◌≤◌, ◌^◌, IfOk, OnOk};
ghost use Rattle.device_rules.specs.Finalize.{deprecated_of, drawn_to, few_instances, final_of, finalize};
ghost use Rattle.device_rules.specs.Finalize.{finalized_at, finish, has_draws, kept_final, meta_of};
ghost use Rattle.device_rules.specs.Prepared.{Makes, with_parts};
ghost use Rattle.device_rules.specs.Refused.{rule_of};
ghost use Rattle.device_rules.specs.SaveDraft.{HasNumber};
ghost use Rattle.device_state.specs.State.{plain};
ghost use Rattle.field_text.specs.Steps.{Gives};
ghost use Rattle.finalizer.specs.Fits.{Fits};

use crate::acting::{Acted, acted_lists, list_change};
use crate::answer::Answer;
use crate::prepared::{FULL, MOST_ENTRIES, Parts, not_full};
use crate::queries::copy_option;
use crate::refused::{Refused, Which};
use crate::save_draft::{
    Named, counters_after, draft_of, id_of_instance, instances_change, name_of,
};
use crate::start::instance_of;
use device_state::{Changes, Counters, EntryChange, OpenEntry, SavepointChange, State};
use entity_lists::EntityLists;
use field_ids::Draws;
use field_text::{NoMemory, Text};
use finalizer::{Final, MetaIn, finalized};
use instance_store::{INSTANCE_LIMIT, InstanceRec, Status};
use savepoints::KeyBase;
use std::alloc::Global;

// An instance draws its own id, its entity's and a branch.
const MOST_DRAWS: u64 = 3;

fn has_draws(draws: Draws) -> Result<(), Refused>
    ensures enough { Gives rule_of (λ u. u) result (has_draws draws) }
    ensures room { OnOk result (draws.next + 3 ≤ 2 ^ 62) }
{
    if draws.next + MOST_DRAWS > MOST_ENTRIES {
        return Err(FULL);
    }
    Ok(())
}

fn deprecated_of(alloc: Global, state: &State, base: KeyBase) -> Result<Option<Text>, NoMemory>
    ensures { IfOk result (λ id. id ≡ deprecated_of (plain state.now) base) }
{
    match base {
        KeyBase::Blank => Ok(None),
        KeyBase::Edit(number) => id_of_instance(alloc, state, number),
        KeyBase::Draft(number) => match instance_of(state, number) {
            Some(instance) => copy_option(alloc, &instance.deprecated),
            None => Ok(None),
        },
    }
}

fn meta_of(alloc: Global, state: &State, draws: Draws, base: KeyBase) -> Result<MetaIn, NoMemory>
    ensures { IfOk result (λ meta. meta ≡ meta_of (plain state.now) draws base) }
{
    Ok(MetaIn {
        draws,
        deprecated: deprecated_of(alloc, state, base)?,
    })
}

fn final_of(
    alloc: Global,
    state: &State,
    lists: &EntityLists,
    draws: Draws,
    entry: &OpenEntry,
) -> Result<Final, Refused>
    requires { draws.next + 3 ≤ 2 ^ 62 }
    ensures made { Gives rule_of (λ final. final) result
        (final_of (plain state.now) lists.now.items draws entry.now) }
    ensures fits { IfOk result (Fits lists.now.items draws) }
{
    let meta = meta_of(alloc, state, draws, entry.base)?;
    Ok(finalized(alloc, &entry.form, &entry.sheet, lists, &meta)?)
}

fn few_instances(state: &State, base: KeyBase) -> Result<(), Refused>
    ensures { Gives rule_of (λ u. u) result (few_instances (plain state.now) base) }
{
    match base {
        KeyBase::Draft(_) => Ok(()),
        KeyBase::Blank | KeyBase::Edit(_) => {
            if state.instances.as_slice().len() as u64 >= INSTANCE_LIMIT {
                return Err(Refused::Limit {
                    which: Which::Instances,
                    number: INSTANCE_LIMIT,
                });
            }
            Ok(())
        }
    }
}

/// A finalized instance, and what its action leaves of the entity lists.
#[derive(Debug, Drop)]
pub struct Finished {
    pub last: Final,
    pub acted: Acted,
}

pub(crate) fn finish(
    alloc: Global,
    state: &State,
    lists: &EntityLists,
    draws: Draws,
    entry: &OpenEntry,
) -> Result<Finished, Refused>
    ensures { Gives rule_of (λ done. done) result
        (finish (plain state.now) lists.now.items draws entry.now) }
{
    has_draws(draws)?;
    let last = final_of(alloc, state, lists, draws, entry)?;
    few_instances(state, entry.base)?;
    let acted = acted_lists(alloc, lists, last.draws, &last.action)?;
    Ok(Finished { last, acted })
}

pub(crate) fn finalized_at(position: u64, last: Final, draft: InstanceRec) -> InstanceRec
    ensures { result ≡ finalized_at position last draft }
{
    let Final {
        bytes,
        instance_id,
        sheet,
        ..
    } = last;
    InstanceRec {
        status: Status::Finalized,
        sheet,
        doc: Some(bytes),
        instance_id: Some(instance_id),
        final_at: position,
        ..draft
    }
}

pub(crate) fn drawn_to(draws: Draws, counters: Counters) -> Counters
    ensures { result ≡ drawn_to draws counters }
{
    Counters { draws, ..counters }
}

// The step that keeps a finalized instance under its name.
fn kept_final(
    alloc: Global,
    state: &State,
    entry: &OpenEntry,
    done: Finished,
    name: Named,
) -> Result<Parts, NoMemory>
    requires position { state.now.counters.position < 2 ^ 62 }
    requires number { HasNumber state.now.counters entry.now.base }
    ensures { IfOk result (λ parts. with_parts (plain state.now) parts
        ≡ (kept_final (plain state.now) entry.now done name, Answer.Number name.number)) }
{
    let Finished { last, acted } = done;
    let number = name.number;
    let draft = draft_of(alloc, name, entry)?;
    let key = entry.key(alloc)?;
    let instance = finalized_at(state.counters.position + 1, last, draft);
    let Acted { list, draws } = acted;
    let counters = drawn_to(draws, counters_after(entry.base, state.counters));
    Ok(Parts {
        changes: Changes {
            instances: instances_change(entry.base, instance),
            savepoints: SavepointChange::Remove(key),
            lists: list_change(list),
            entry: EntryChange::Close,
            ..Changes::counted(counters)
        },
        answer: Answer::Number(number),
    })
}

pub(crate) fn finalize(alloc: Global, state: &State) -> Result<Parts, Refused>
    ensures { Makes (plain state.now) result (finalize (plain state.now)) }
{
    let Some(entry) = &state.entry else {
        return Err(Refused::NoEntry);
    };
    let done = finish(alloc, state, &state.lists, state.counters.draws, entry)?;
    let name = name_of(alloc, state, entry.base)?;
    not_full(state)?;
    Ok(kept_final(alloc, state, entry, done, name)?)
}
