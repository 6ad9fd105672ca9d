// What an entry changes, part by part.
ghost use Rattle.std.specs.Prelude.{◌≡◌, ◌<◌};
ghost use Rattle.std.specs.List.{list_all};
ghost use Rattle.std.specs.Option.{unwrap_or};
ghost use Rattle.device_state.specs.Changes.{counted, entry_changed, forms_changed, instances_changed, lists_changed};
ghost use Rattle.device_state.specs.Changes.{savepoints_changed};
ghost use Rattle.device_state.specs.Numbered.{added, can_add, dropped, each_replaced, is_below, replaced_by};
ghost use Rattle.device_state.specs.Numbered.{status_at, tried_at};

use crate::entry::OpenEntry;
use crate::flight::FlightChange;
use crate::holding::LockChange;
use crate::state::{Counters, Settings};
use entity_lists::{EntityList, EntityLists};
use field_text::Text;
use form_store::{FormRec, FormStore};
use instance_store::{INSTANCE_LIMIT, InstanceRec, InstanceStore, Status};
use question_rules::Sheet;
use savepoints::{Key, Savepoint, Savepoints};

/// What becomes of the forms.
#[derive(Debug, Drop)]
pub enum FormChange {
    Keep,
    Put(FormRec),
    /// The visible records of this id are hidden.
    Hide(Text),
}

/// What becomes of the instances.
#[derive(Debug, Drop)]
pub enum InstanceChange {
    Keep,
    Add(InstanceRec),
    /// It takes the place of the one with its number.
    Replace(InstanceRec),
    /// The one with this number is taken out.
    Remove(u64),
    /// Each takes the place of the one with its number.
    Each(Vec<InstanceRec>),
    /// The entry at this position has sent the one with this number last.
    SetTried { number: u64, position: u64 },
    /// The one with this number has this status.
    SetStatus { number: u64, status: Status },
}

/// What becomes of the savepoints.
#[derive(Debug, Drop)]
pub enum SavepointChange {
    Keep,
    Put(Savepoint),
    Remove(Key),
    /// Those of the instance with this number are taken out.
    RemoveOn(u64),
}

/// What becomes of the entity lists.
#[derive(Debug, Drop)]
pub enum ListChange {
    Keep,
    /// It takes the place of the one of its name, or stands behind the others.
    Put(EntityList),
    /// These take the place of all.
    All(EntityLists),
}

/// What becomes of the questionnaire that is being filled in.
#[derive(Debug, Drop)]
pub enum EntryChange {
    Keep,
    Close,
    Open(OpenEntry),
    /// The open one has this sheet.
    Fill(Sheet),
}

/// What an entry changes in a state, with all the memory that it takes.
#[derive(Debug, Drop)]
pub struct Changes {
    pub settings: Option<Settings>,
    pub server: Option<Text>,
    pub counters: Counters,
    pub forms: FormChange,
    pub instances: InstanceChange,
    pub savepoints: SavepointChange,
    pub lists: ListChange,
    pub entry: EntryChange,
    pub locks: LockChange,
    pub flights: FlightChange,
}

impl Changes {
    /// No changes but of what is counted.
    pub fn counted(counters: Counters) -> Changes
        ensures { result ≡ counted counters }
    {
        Changes {
            settings: None,
            server: None,
            counters,
            forms: FormChange::Keep,
            instances: InstanceChange::Keep,
            savepoints: SavepointChange::Keep,
            lists: ListChange::Keep,
            entry: EntryChange::Keep,
            locks: LockChange::Keep,
            flights: FlightChange::Keep,
        }
    }
}

// Puts a new part in its place.
pub(crate) fn put<T: Drop>(part: &mut T, new: Option<T>)
    ensures { part.new ≡ unwrap_or new part.old }
{
    if let Some(new) = new {
        *part = new;
    }
}

impl FormChange {
    pub(crate) fn put_into(self, forms: &mut FormStore)
        requires { 0 < forms.old.spare }
        ensures { forms.new.items ≡ forms_changed self forms.old.items }
    {
        match self {
            FormChange::Keep => {}
            FormChange::Put(record) => forms.put(record),
            FormChange::Hide(id) => forms.hide_all(&id),
        }
    }
}

fn is_below(kept: &InstanceRec, number: u64) -> bool
    ensures { result ≡ is_below number kept.now }
{
    kept.number < number
}

fn are_below(kept: &[InstanceRec], number: u64) -> bool
    ensures { result ≡ list_all (is_below number) kept.now }
{
    kept.iter().all(|kept| is_below(kept, number))
}

// Whether an instance with this number can stand behind the others.
fn can_add(kept: &[InstanceRec], number: u64) -> bool
    ensures { result ≡ can_add number kept.now }
{
    (kept.len() as u64) < INSTANCE_LIMIT && are_below(kept, number)
}

fn add(instances: &mut InstanceStore, item: InstanceRec)
    requires { 0 < instances.old.spare }
    ensures { instances.new.items ≡ added item instances.old.items }
{
    if can_add(instances.as_slice(), item.number) {
        instances.add(item);
    }
}

fn replace(instances: &mut InstanceStore, item: InstanceRec)
    ensures { instances.new.items ≡ replaced_by item instances.old.items }
{
    if let Some(place) = instances.place_of(item.number) {
        let _replaced = instances.replace(place, item);
    }
}

fn replace_each(instances: &mut InstanceStore, items: Vec<InstanceRec>)
    ensures { instances.new.items ≡ each_replaced items.items instances.old.items }
{
    for item in items {
        replace(instances, item);
    }
}

fn remove(instances: &mut InstanceStore, number: u64)
    ensures { instances.new.items ≡ dropped number instances.old.items }
{
    if let Some(place) = instances.place_of(number) {
        let _removed = instances.remove(place);
    }
}

fn set_tried(instances: &mut InstanceStore, number: u64, position: u64)
    ensures { instances.new.items ≡ tried_at position number instances.old.items }
{
    if let Some(place) = instances.place_of(number) {
        instances.set_tried(place, position);
    }
}

fn set_status(instances: &mut InstanceStore, number: u64, status: Status)
    ensures { instances.new.items ≡ status_at status number instances.old.items }
{
    if let Some(place) = instances.place_of(number) {
        instances.set_status(place, status);
    }
}

impl InstanceChange {
    pub(crate) fn put_into(self, instances: &mut InstanceStore)
        requires { 0 < instances.old.spare }
        ensures { instances.new.items ≡ instances_changed self instances.old.items }
    {
        match self {
            InstanceChange::Keep => {}
            InstanceChange::Add(item) => add(instances, item),
            InstanceChange::Replace(item) => replace(instances, item),
            InstanceChange::Remove(number) => remove(instances, number),
            InstanceChange::Each(items) => replace_each(instances, items),
            InstanceChange::SetTried { number, position } => {
                set_tried(instances, number, position)
            }
            InstanceChange::SetStatus { number, status } => set_status(instances, number, status),
        }
    }
}

impl SavepointChange {
    pub(crate) fn put_into(self, savepoints: &mut Savepoints)
        requires { 0 < savepoints.old.spare }
        ensures { savepoints.new.items ≡ savepoints_changed self savepoints.old.items }
    {
        match self {
            SavepointChange::Keep => {}
            SavepointChange::Put(savepoint) => {
                let Savepoint { key, sheet } = savepoint;
                let _replaced = savepoints.put(key, sheet);
            }
            SavepointChange::Remove(key) => {
                let _removed = savepoints.remove(&key);
            }
            SavepointChange::RemoveOn(number) => savepoints.remove_on(number),
        }
    }
}

impl ListChange {
    pub(crate) fn put_into(self, lists: &mut EntityLists)
        requires { 0 < lists.old.spare }
        ensures { lists.new.items ≡ lists_changed self lists.old.items }
    {
        match self {
            ListChange::Keep => {}
            ListChange::Put(list) => lists.put(list),
            ListChange::All(all) => *lists = all,
        }
    }
}

// The open entry has this sheet, if one is open.
fn fill(entry: &mut Option<OpenEntry>, sheet: Sheet)
    ensures { entry.new ≡ entry_changed (EntryChange.Fill sheet) entry.old }
{
    if let Some(entry) = entry {
        entry.sheet = sheet;
    }
}

pub(crate) fn put_entry(entry: &mut Option<OpenEntry>, change: EntryChange)
    ensures { entry.new ≡ entry_changed change entry.old }
{
    match change {
        EntryChange::Keep => {}
        EntryChange::Close => *entry = None,
        EntryChange::Open(opened) => *entry = Some(opened),
        EntryChange::Fill(sheet) => fill(entry, sheet),
    }
}
