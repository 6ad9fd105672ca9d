// All drafts and invalid instances are finalized, as far as they can be. No other hand may hold the instances.
ghost use Rattle.std.specs.Prelude.{◌≡◌, ◌<◌, ◌^◌, Ok, Err, IfOk, OnOk, length};
ghost use Rattle.std.specs.List.{filter, list_any};
ghost use Rattle.savepoints.specs.Keys.{same_base};
ghost use Rattle.savepoints.specs.Savepoints.{is_at};
ghost use Rattle.device_rules.specs.DropInstance.{stands_on};
ghost use Rattle.device_rules.specs.FinalizeAll.{after_one, as_invalid, batch_from, batch_of, bulk_of, draft_entry};
ghost use Rattle.device_rules.specs.FinalizeAll.{draft_key, finalize_all, first_batch, is_begun, is_finalized};
ghost use Rattle.device_rules.specs.FinalizeAll.{is_invalid, is_skipped, is_tried, try_draft, try_entry, with_tried};
ghost use Rattle.device_rules.specs.Batches.{batch};
ghost use Rattle.device_rules.specs.Prepared.{Makes};
ghost use Rattle.device_rules.specs.Refused.{rule_of};
ghost use Rattle.device_state.specs.State.{plain};
ghost use Rattle.field_text.specs.Steps.{Gives};

use crate::acting::Acted;
use crate::answer::{Answer, Finalized};
use crate::drop_instance::stands_on;
use crate::finalize::{Finished, drawn_to, finalized_at, finish};
use crate::holders::free_for;
use crate::prepared::{Parts, not_full};
use crate::refused::Refused;
use crate::save_draft::{draft_of, kept_name};
use crate::start::{is_draft, source_of};
use device_state::{Changes, InstanceChange, ListChange, OpenEntry, State};
use entity_lists::EntityLists;
use entry_form::{Base, Hand, How, Lock};
use field_ids::Draws;
use field_text::NoMemory;
use instance_store::{InstanceRec, Status};
use savepoints::{KeyBase, Savepoint};
use std::alloc::Global;

fn is_draft_of(base: KeyBase, number: u64) -> bool
    ensures { result ≡ same_base (KeyBase.Draft number) base }
{
    match base {
        KeyBase::Draft(draft) => number == draft,
        KeyBase::Blank | KeyBase::Edit(_) => false,
    }
}

fn is_savepoint_of(savepoint: &Savepoint, instance: &InstanceRec) -> bool
    ensures { result ≡ is_at (draft_key instance.now) savepoint.now }
{
    let key = &savepoint.key;
    instance.form.bytes() == key.form.bytes()
        && instance.version.bytes() == key.version.bytes()
        && is_draft_of(key.base, instance.number)
}

fn has_savepoint(savepoints: &[Savepoint], instance: &InstanceRec) -> bool
    ensures { result ≡ list_any (is_at (draft_key instance.now)) savepoints.now }
{
    savepoints
        .iter()
        .any(|savepoint| is_savepoint_of(savepoint, instance))
}

fn is_begun(state: &State, instance: &InstanceRec) -> bool
    ensures { result ≡ is_begun (plain state.now) instance.now }
{
    stands_on(&state.entry, instance.number) || has_savepoint(state.savepoints.as_slice(), instance)
}

fn is_skipped(state: &State, instance: &InstanceRec) -> bool
    ensures { result ≡ is_skipped (plain state.now) instance.now }
{
    is_draft(instance.status) && is_begun(state, instance)
}

fn is_tried(state: &State, instance: &InstanceRec) -> bool
    ensures { result ≡ is_tried (plain state.now) instance.now }
{
    is_draft(instance.status) && !is_begun(state, instance)
}

// A draft as it would be opened, with its sheet.
fn draft_entry(alloc: Global, state: &State, instance: &InstanceRec) -> Result<OpenEntry, Refused>
    ensures { Gives rule_of (λ entry. entry) result (draft_entry (plain state.now) instance.now) }
{
    let source = source_of(alloc, state, &Base::Draft(instance.number), How::Fresh)?;
    Ok(OpenEntry {
        base: source.base,
        form: source.form,
        sheet: instance.sheet.copy(alloc)?,
    })
}

/// A finalized instance, and what its action leaves.
#[derive(Debug, Drop)]
pub struct Tried {
    pub instance: InstanceRec,
    pub acted: Acted,
}

fn try_entry(
    alloc: Global,
    state: &State,
    batch: &Bulk,
    instance: &InstanceRec,
    entry: &OpenEntry,
) -> Result<Tried, Refused>
    requires { state.now.counters.position < 2 ^ 62 }
    ensures { Gives rule_of (λ done. done) result
        (try_entry (plain state.now) batch.now.lists.items batch.now.draws instance.now entry.now) }
{
    let Finished { last, acted } = finish(alloc, state, &batch.lists, batch.draws, entry)?;
    let draft = draft_of(alloc, kept_name(alloc, instance)?, entry)?;
    let instance = finalized_at(state.counters.position + 1, last, draft);
    Ok(Tried { instance, acted })
}

fn try_draft(
    alloc: Global,
    state: &State,
    batch: &Bulk,
    instance: &InstanceRec,
) -> Result<Tried, Refused>
    requires { state.now.counters.position < 2 ^ 62 }
    ensures { Gives rule_of (λ done. done) result
        (try_draft (plain state.now) batch.now.lists.items batch.now.draws instance.now) }
{
    let entry = draft_entry(alloc, state, instance)?;
    let done = try_entry(alloc, state, batch, instance, &entry);
    entry.discard();
    done
}

fn as_invalid(alloc: Global, instance: &InstanceRec) -> Result<InstanceRec, NoMemory>
    ensures { IfOk result (λ invalid. invalid ≡ as_invalid instance.now) }
{
    Ok(InstanceRec {
        status: Status::Invalid,
        ..instance.copy(alloc)?
    })
}

/// The instances that were changed so far, and the lists and the draws that they left.
#[derive(Debug, Drop)]
pub(crate) struct Bulk {
    pub changed: Vec<InstanceRec>,
    pub lists: EntityLists,
    pub draws: Draws,
}

impl Bulk {
    fn first(alloc: Global, state: &State) -> Result<Bulk, NoMemory>
        ensures { IfOk result (λ bulk. batch bulk ≡ first_batch (plain state.now)) }
    {
        Ok(Bulk {
            changed: Vec::new(alloc),
            lists: state.lists.copy(alloc)?,
            draws: state.counters.draws,
        })
    }

    // Puts a finalized instance and what its action leaves.
    fn put_final(&mut self, done: Tried, instance: &InstanceRec) -> Result<(), NoMemory>
        ensures { OnOk result (batch self.new ≡ with_tried (batch self.old) instance.now (Ok done)) }
    {
        let Tried { instance, acted } = done;
        let Acted { list, draws } = acted;
        self.changed.push(instance)?;
        if let Some(list) = list {
            self.lists.reserve()?;
            self.lists.put(list);
        }
        self.draws = draws;
        Ok(())
    }

    fn put_invalid(
        &mut self,
        alloc: Global,
        why: Refused,
        instance: &InstanceRec,
    ) -> Result<(), NoMemory>
        ensures { OnOk result (batch self.new ≡ with_tried (batch self.old) instance.now (Err why)) }
    {
        self.changed.push(as_invalid(alloc, instance)?)?;
        Ok(())
    }

    // Tries an instance.
    fn put_one(
        &mut self,
        alloc: Global,
        state: &State,
        instance: &InstanceRec,
    ) -> Result<(), NoMemory>
        requires { state.now.counters.position < 2 ^ 62 }
        ensures { OnOk result (batch self.new ≡ after_one (plain state.now) (batch self.old) instance.now) }
    {
        match try_draft(alloc, state, self, instance) {
            Ok(done) => self.put_final(done, instance),
            Err(why) if why.is_no_memory() => Err(NoMemory),
            Err(why) => self.put_invalid(alloc, why, instance),
        }
    }
}

fn batch_of(alloc: Global, state: &State) -> Result<Bulk, NoMemory>
    requires { state.now.counters.position < 2 ^ 62 }
    ensures { IfOk result (λ bulk. batch bulk ≡ batch_of (plain state.now)) }
{
    let mut bulk = Bulk::first(alloc, state)?;
    for instance in state.instances.as_slice() {
        if is_tried(state, instance) {
            bulk.put_one(alloc, state, instance)?;
        }
    }
    Ok(bulk)
}

fn is_finalized(instance: &InstanceRec) -> bool
    ensures { result ≡ is_finalized instance.now }
{
    !is_draft(instance.status)
}

fn is_invalid(instance: &InstanceRec) -> bool
    ensures { result ≡ is_invalid instance.now }
{
    is_draft(instance.status)
}

fn finalized(changed: &[InstanceRec]) -> u64
    ensures { result ≡ length (filter is_finalized changed.now) }
{
    changed
        .iter()
        .filter(|instance| is_finalized(instance))
        .count() as u64
}

fn invalid(changed: &[InstanceRec]) -> u64
    ensures { result ≡ length (filter is_invalid changed.now) }
{
    changed
        .iter()
        .filter(|instance| is_invalid(instance))
        .count() as u64
}

fn skipped(state: &State) -> u64
    ensures { result ≡ length (filter (is_skipped (plain state.now)) state.now.instances.items) }
{
    state
        .instances
        .as_slice()
        .iter()
        .filter(|instance| is_skipped(state, instance))
        .count() as u64
}

fn bulk_of(state: &State, bulk: &Bulk) -> Finalized
    ensures { result ≡ bulk_of (plain state.now) (batch bulk.now) }
{
    Finalized {
        finalized: finalized(bulk.changed.as_slice()),
        invalid: invalid(bulk.changed.as_slice()),
        skipped: skipped(state),
    }
}

pub(crate) fn finalize_all(alloc: Global, state: &State, hand: Hand) -> Result<Parts, Refused>
    ensures { Makes (plain state.now) result (finalize_all (plain state.now) hand) }
{
    free_for(state.locks.holder(Lock::Instances), hand)?;
    not_full(state)?;
    let bulk = batch_of(alloc, state)?;
    let answer = Answer::Bulk(bulk_of(state, &bulk));
    let Bulk {
        changed,
        lists,
        draws,
    } = bulk;
    Ok(Parts {
        changes: Changes {
            instances: InstanceChange::Each(changed),
            lists: ListChange::All(lists),
            ..Changes::counted(drawn_to(draws, state.counters.one_further()))
        },
        answer,
    })
}
