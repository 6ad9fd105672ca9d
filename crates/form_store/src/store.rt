ghost use Rattle.std.specs.Prelude.{◌≡◌, [], ◌+◌, ◌<◌, ◌≤◌, ◌&&◌, ◌==◌, length, remove, slice_get, Some, OnOk, OnErr};
ghost use Rattle.std.specs.List.{list_any};
ghost use Rattle.std.specs.Str.{bytes_eq};
ghost use Rattle.field_rows.specs.Edited.{edited};
ghost use Rattle.form_store.specs.Forms.{all_hidden, hidden_of};
ghost use Rattle.form_store.specs.Forms.{check, check_at, check_of, completed, exact, has_bytes, hidden};
ghost use Rattle.form_store.specs.Forms.{is_form, is_shown, is_shown_since, latest, newest, put, renewed};
ghost use Rattle.form_store.specs.declared.records.Check.TheVariants.{Fresh};

use crate::{Check, FormRec};
use field_rows::Rows;
use field_text::{NoMemory, Text};
use std::alloc::Global;
use std::marker::Model;

/// How many forms a store keeps.
pub const FORM_LIMIT: u64 = 1000;

/// The forms that a device keeps, as a list of records with room for some more. Places are counted from 0.
#[derive(Debug, Drop)]
pub struct FormStore {
    rows: Rows<FormRec>,
}

impl Model for FormStore {
    ghost use Rattle.field_rows.specs.Kept.{Kept};
    ghost use Rattle.form_store.specs.declared.records.FormRec.{FormRec};

    ghost Value = { Kept FormRec };

    ghost view = { λ s. s.rows };
}

fn is_form(kept: &FormRec, id: &Text, version: &Text) -> bool
    ensures { result ≡ is_form id.now version.now kept.now }
{
    kept.id.bytes() == id.bytes() && kept.version.bytes() == version.bytes()
}

fn exact(records: &[FormRec], id: &Text, version: &Text) -> Option<usize>
    ensures { result ≡ exact id.now version.now records.now }
{
    records
        .iter()
        .position(|record| is_form(record, id, version))
}

fn is_shown(kept: &FormRec, id: &Text) -> bool
    ensures { result ≡ is_shown id.now kept.now }
{
    kept.visible && kept.id.bytes() == id.bytes()
}

fn newest(records: &[FormRec], id: &Text) -> u64
    ensures { result ≡ newest id.now records.now }
{
    let mut newest = 0;
    let mut rest = records;
    while let Some((record, others)) = rest.split_first() {
        if is_shown(record, id) {
            newest = newest.max(record.put_at);
        }
        rest = others;
    }
    newest
}

fn is_shown_since(kept: &FormRec, id: &Text, at: u64) -> bool
    ensures { result ≡ is_shown_since id.now at kept.now }
{
    is_shown(kept, id) && kept.put_at == at
}

fn latest(records: &[FormRec], id: &Text) -> Option<usize>
    ensures { result ≡ latest id.now records.now }
{
    let at = newest(records, id);
    records
        .iter()
        .position(|record| is_shown_since(record, id, at))
}

fn has_bytes(records: &[FormRec], place: usize, bytes: &[u8]) -> bool
    ensures { result ≡ has_bytes bytes.now records.now place }
{
    match records.get(place) {
        Some(record) => record.bytes.bytes() == bytes,
        None => false,
    }
}

fn check_at(records: &[FormRec], place: Option<usize>, bytes: &[u8]) -> Check
    ensures { result ≡ check_at bytes.now records.now place }
{
    match place {
        None if records.len() as u64 >= FORM_LIMIT => Check::Full,
        None => Check::Fresh,
        Some(place) if has_bytes(records, place, bytes) => Check::Same(place as u64),
        Some(place) => Check::OtherBytes(place as u64),
    }
}

impl FormStore {
    /// No forms, and no room.
    pub fn make(alloc: Global) -> FormStore
        ensures records { result.items ≡ [] }
        ensures spare { result.spare ≡ 0 }
    {
        FormStore {
            rows: Rows::make(alloc),
        }
    }

    pub fn count(&self) -> u64
        ensures { result ≡ length self.now.items }
    {
        self.rows.count()
    }

    /// The record at this place.
    pub fn get(&self, place: u64) -> &FormRec
        requires { place < length self.now.items }
        ensures { slice_get self.now.items place ≡ Some result.now }
    {
        self.rows.at(place)
    }

    pub fn as_slice(&self) -> &[FormRec]
        ensures { result.now ≡ self.now.items }
    {
        self.rows.as_slice()
    }

    /// The place of the record of this id and version.
    pub fn exact(&self, id: &Text, version: &Text) -> Option<u64>
        ensures { result ≡ exact id.now version.now self.now.items }
    {
        match exact(self.rows.as_slice(), id, version) {
            Some(place) => Some(place as u64),
            None => None,
        }
    }

    /// The place of the visible record of this id that was put last.
    pub fn latest(&self, id: &Text) -> Option<u64>
        ensures { result ≡ latest id.now self.now.items }
    {
        match latest(self.rows.as_slice(), id) {
            Some(place) => Some(place as u64),
            None => None,
        }
    }

    /// Whether a visible record has this id.
    pub fn has_shown(&self, id: &Text) -> bool
        ensures { result ≡ list_any (is_shown id.now) self.now.items }
    {
        self.rows
            .as_slice()
            .iter()
            .any(|record| is_shown(record, id))
    }

    /// Whether a record has this id, visible or hidden.
    pub fn has_id(&self, id: &Text) -> bool
        ensures { result ≡ list_any (λ kept. bytes_eq kept.id id.now) self.now.items }
    {
        self.rows
            .as_slice()
            .iter()
            .any(|record| record.id.bytes() == id.bytes())
    }

    /// What a form of this id, version and bytes would meet.
    pub fn check(&self, id: &Text, version: &Text, bytes: &[u8]) -> Check
        ensures { result ≡ check id.now version.now bytes.now self.now.items }
    {
        let records = self.rows.as_slice();
        check_at(records, exact(records, id, version), bytes)
    }

    /// Takes room for one more form, where there is none.
    pub fn reserve(&mut self) -> Result<(), NoMemory>
        ensures records { self.new.items ≡ self.old.items }
        ensures ok { OnOk result (1 ≤ self.new.spare) }
        ensures kept { self.old.spare ≤ self.new.spare }
    {
        self.rows.reserve()
    }

    /// Puts a form: a fresh one behind the others; one that is kept with the same bytes gets `visible`, `put_at` and
    /// `complete` of it. Else nothing changes.
    pub fn put(&mut self, item: FormRec)
        requires room { check_of item self.old.items ≡ Fresh → 0 < self.old.spare }
        ensures records { self.new.items ≡ put item self.old.items }
        ensures spare { self.old.spare ≤ self.new.spare + 1 }
    {
        match self.check(&item.id, &item.version, item.bytes.bytes()) {
            Check::Fresh => self.rows.push(item),
            Check::Same(place) => self.renew(place, &item),
            Check::OtherBytes(_) | Check::Full => {}
        }
    }

    fn renew(&mut self, place: u64, item: &FormRec)
        requires { place < length self.old.items }
        ensures records { self.new.items ≡ edited (renewed item.now) place self.old.items }
        ensures spare { self.new.spare ≡ self.old.spare }
    {
        let record = self.rows.edit(place);
        record.visible = item.visible;
        record.put_at = item.put_at;
        record.complete = item.complete;
    }

    /// Makes the record at this place hidden.
    pub fn hide(&mut self, place: u64)
        requires { place < length self.old.items }
        ensures records { self.new.items ≡ edited hidden place self.old.items }
        ensures spare { self.new.spare ≡ self.old.spare }
    {
        self.rows.edit(place).visible = false;
    }

    /// Hides each visible record of this id.
    pub fn hide_all(&mut self, id: &Text)
        ensures records { self.new.items ≡ all_hidden id.now self.old.items }
        ensures spare { self.new.spare ≡ self.old.spare }
    {
        let mut place = 0;
        while place < self.count() {
            self.hide_shown(place, id);
            place += 1;
        }
    }

    // Hides the record at this place, if it is a visible one of the id.
    fn hide_shown(&mut self, place: u64, id: &Text)
        requires { place < length self.old.items }
        ensures records { self.new.items ≡ edited (hidden_of id.now) place self.old.items }
        ensures spare { self.new.spare ≡ self.old.spare }
    {
        let record = self.rows.edit(place);
        if is_shown(record, id) {
            record.visible = false;
        }
    }

    /// Makes the record at this place complete.
    pub fn mark_complete(&mut self, place: u64)
        requires { place < length self.old.items }
        ensures records { self.new.items ≡ edited completed place self.old.items }
        ensures spare { self.new.spare ≡ self.old.spare }
    {
        self.rows.edit(place).complete = true;
    }

    /// Takes out the record at this place; the others stay in their order.
    pub fn remove(&mut self, place: u64) -> FormRec
        requires { place < length self.old.items }
        ensures taken { slice_get self.old.items place ≡ Some result }
        ensures records { self.new.items ≡ remove self.old.items place }
        ensures spare { self.old.spare ≤ self.new.spare }
    {
        self.rows.remove(place)
    }
}
