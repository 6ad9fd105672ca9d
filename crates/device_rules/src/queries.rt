// What a query is answered.
ghost use Rattle.std.specs.Prelude.{◌≡◌, [], IfOk, length, map, option_map};
ghost use Rattle.std.specs.List.{filter};
ghost use Rattle.std.specs.Option.{unwrap_or};
ghost use Rattle.field_text.specs.Steps.{Gives};
ghost use Rattle.device_state.specs.State.{plain};
ghost use Rattle.entity_lists.specs.EntityTables.{tables_of};
ghost use Rattle.device_rules.specs.Acting.{list_named};
ghost use Rattle.device_rules.specs.Answers.{answer_to, base_for, counts_of, doc_of, entry_view, form_line};
ghost use Rattle.device_rules.specs.Answers.{instance_line, is_sent, next_send, rows_of};
ghost use Rattle.device_rules.specs.Due.{is_queued, next_due};
ghost use Rattle.device_rules.specs.Refused.{rule_of};

use crate::acting::list_named;
use crate::answer::{Answer, Counts, EntryView, FormLine, InstanceLine, NextSend, Query};
use crate::dues::{is_queued, next_due};
use crate::refused::Refused;
use crate::start::instance_of;
use device_state::{OpenEntry, State};
use entity_lists::{EntityLists, EntityRow};
use entry_form::Hand;
use field_text::{Blob, Items, NoMemory, Text};
use form_store::FormRec;
use http_wire::Address;
use instance_store::{InstanceRec, Status};
use std::alloc::Global;
use wire_laws::server_base;

fn form_line(alloc: Global, kept: &FormRec) -> Result<FormLine, NoMemory>
    ensures { IfOk result (λ line. line ≡ form_line kept.now) }
{
    Ok(FormLine {
        id: kept.id.copy(alloc)?,
        version: kept.version.copy(alloc)?,
        hash: kept.hash.copy(alloc)?,
        visible: kept.visible,
    })
}

fn form_lines(alloc: Global, records: &[FormRec]) -> Result<Items<FormLine>, NoMemory>
    ensures { IfOk result (λ lines. lines ≡ map form_line records.now) }
{
    let mut lines = Vec::new(alloc);
    for record in records {
        lines.push(form_line(alloc, record)?)?;
    }
    Ok(Items::from_vec(lines))
}

pub(crate) fn copy_option(alloc: Global, text: &Option<Text>) -> Result<Option<Text>, NoMemory>
    ensures { IfOk result (λ copy. copy ≡ text.now) }
{
    match text {
        Some(text) => Ok(Some(text.copy(alloc)?)),
        None => Ok(None),
    }
}

fn instance_line(alloc: Global, instance: &InstanceRec) -> Result<InstanceLine, NoMemory>
    ensures { IfOk result (λ line. line ≡ instance_line instance.now) }
{
    Ok(InstanceLine {
        number: instance.number,
        status: instance.status,
        id: instance.form.copy(alloc)?,
        version: instance.version.copy(alloc)?,
        instance_id: copy_option(alloc, &instance.instance_id)?,
    })
}

fn instance_lines(alloc: Global, instances: &[InstanceRec]) -> Result<Items<InstanceLine>, NoMemory>
    ensures { IfOk result (λ lines. lines ≡ map instance_line instances.now) }
{
    let mut lines = Vec::new(alloc);
    for instance in instances {
        lines.push(instance_line(alloc, instance)?)?;
    }
    Ok(Items::from_vec(lines))
}

fn entry_view(alloc: Global, lists: &EntityLists, entry: &OpenEntry) -> Result<EntryView, NoMemory>
    ensures { IfOk result (λ view. view ≡ entry_view (tables_of lists.now.items) entry.now) }
{
    Ok(EntryView {
        id: entry.form.id().copy(alloc)?,
        version: entry.form.version().copy(alloc)?,
        fields: entry.form.lines(alloc, lists, &entry.sheet)?,
    })
}

fn entry_now(alloc: Global, state: &State) -> Result<Answer, NoMemory>
    ensures { IfOk result (λ answer. answer ≡ Answer.EntryNow
        (option_map (entry_view (tables_of state.now.lists.items)) state.now.entry)) }
{
    match &state.entry {
        Some(entry) => Ok(Answer::EntryNow(Some(entry_view(alloc, &state.lists, entry)?))),
        None => Ok(Answer::EntryNow(None)),
    }
}

fn doc_of(alloc: Global, state: &State, number: u64) -> Result<Answer, Refused>
    ensures { Gives rule_of (λ answer. answer) result (doc_of (plain state.now) number) }
{
    let Some(instance) = instance_of(state, number) else {
        return Err(Refused::NoInstance);
    };
    match &instance.doc {
        Some(doc) => Ok(Answer::Doc(doc.copy(alloc)?)),
        None => Err(Refused::WrongStatus {
            status: instance.status,
        }),
    }
}

fn entities_of(alloc: Global, lists: &EntityLists, name: &Text) -> Result<Answer, NoMemory>
    ensures { IfOk result (λ answer. answer ≡ Answer.Entities (rows_of (list_named lists.now.items name.now))) }
{
    match list_named(lists, name) {
        Some(list) => Ok(Answer::Entities(EntityRow::copy_all(alloc, list.rows.as_slice())?)),
        None => Ok(Answer::Entities(Items::new(alloc))),
    }
}

fn is_sent(instance: &InstanceRec) -> bool
    ensures { result ≡ is_sent instance.now }
{
    match instance.status {
        Status::Sent => true,
        Status::Draft | Status::Invalid | Status::Finalized | Status::SendFailed => false,
    }
}

fn queued(instances: &[InstanceRec]) -> u64
    ensures { result ≡ length (filter is_queued instances.now) }
{
    instances
        .iter()
        .filter(|instance| is_queued(instance))
        .count() as u64
}

fn sent(instances: &[InstanceRec]) -> u64
    ensures { result ≡ length (filter is_sent instances.now) }
{
    instances
        .iter()
        .filter(|instance| is_sent(instance))
        .count() as u64
}

fn counts_of(state: &State) -> Counts
    ensures { result ≡ counts_of (plain state.now) }
{
    let instances = state.instances.as_slice();
    Counts {
        forms: state.forms.count(),
        instances: instances.len() as u64,
        queued: queued(instances),
        sent: sent(instances),
        lists: state.lists.count(),
    }
}

// The base of the server's addresses, with empty parts where it has none.
fn base_for(alloc: Global, server: &Text) -> Result<Address, NoMemory>
    ensures { IfOk result (λ base. base ≡ base_for server.now) }
{
    match server_base(alloc, server)? {
        Some(base) => Ok(base),
        None => Ok(Address {
            authority: Text::from_string(String::new(alloc)),
            target: Text::from_string(String::new(alloc)),
        }),
    }
}

fn doc_or_empty(alloc: Global, instance: &InstanceRec) -> Result<Blob, NoMemory>
    ensures { IfOk result (λ doc. doc ≡ unwrap_or instance.now.doc []) }
{
    match &instance.doc {
        Some(doc) => doc.copy(alloc),
        None => Blob::from_bytes(alloc, &[]),
    }
}

fn next_send(alloc: Global, state: &State, instance: &InstanceRec) -> Result<NextSend, NoMemory>
    ensures { IfOk result (λ send. send ≡ next_send (plain state.now) instance.now) }
{
    Ok(NextSend {
        number: instance.number,
        doc: doc_or_empty(alloc, instance)?,
        base: base_for(alloc, &state.server)?,
    })
}

fn send_now(alloc: Global, state: &State, hand: Hand) -> Result<Answer, NoMemory>
    ensures { IfOk result (λ answer. answer ≡ Answer.NextSend
        (option_map (next_send (plain state.now)) (next_due (plain state.now) hand))) }
{
    match next_due(state, hand) {
        Some(instance) => Ok(Answer::NextSend(Some(next_send(alloc, state, instance)?))),
        None => Ok(Answer::NextSend(None)),
    }
}

/// What a hand's query is answered. It may be refused for want of memory.
pub fn ask(alloc: Global, state: &State, hand: Hand, query: &Query) -> Result<Answer, Refused>
    ensures { Gives rule_of (λ answer. answer) result (answer_to (plain state.now) hand query.now) }
{
    match query {
        Query::Settings => Ok(Answer::Settings(state.settings)),
        Query::Forms => Ok(Answer::Forms(form_lines(alloc, state.forms.as_slice())?)),
        Query::Instances => Ok(Answer::Instances(instance_lines(
            alloc,
            state.instances.as_slice(),
        )?)),
        Query::EntryNow => Ok(entry_now(alloc, state)?),
        Query::DocOf(number) => doc_of(alloc, state, *number),
        Query::Entities(name) => Ok(entities_of(alloc, &state.lists, name)?),
        Query::NextSend => Ok(send_now(alloc, state, hand)?),
        Query::Counts => Ok(Answer::Counts(counts_of(state))),
    }
}
