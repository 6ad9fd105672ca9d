// A questionnaire is begun: of a form, from a draft, or as an edit of a finalized instance.
ghost use Rattle.std.specs.Prelude.{◌≡◌, ◌<◌, ◌^◌, IfOk, OnOk, Some, option_map, position, unwrap_or};
ghost use Rattle.field_text.specs.Steps.{Gives};
ghost use Rattle.device_state.specs.State.{plain};
ghost use Rattle.savepoints.specs.Savepoints.{found};
ghost use Rattle.device_state.specs.Changes.{savepoints_changed};
ghost use Rattle.device_rules.specs.Prepared.{Makes, with_parts};
ghost use Rattle.device_rules.specs.Refused.{rule_of};
ghost use Rattle.device_rules.specs.Start.{base_instance, base_record, begun};
ghost use Rattle.device_rules.specs.Start.{blank_record, counts, counted_record, edit_of};
ghost use Rattle.device_rules.specs.Start.{fresh_sheet, has_status, instance_of};
ghost use Rattle.device_rules.specs.Start.{instance_record, is_draft, is_edit_of};
ghost use Rattle.device_rules.specs.Start.{key_base, key_of_source, no_form};
ghost use Rattle.device_rules.specs.Start.{not_edited, opened_with, record_at, right_status};
ghost use Rattle.device_rules.specs.Start.{record_form, refused_by_edit, savepoint_met, savepoints_left, sheet_of};
ghost use Rattle.device_rules.specs.Start.{source_of, start};
ghost use Rattle.device_rules.specs.Tests.{found_or};
ghost use Rattle.device_rules.specs.declared.refused.Refused.TheVariants.{NoForm};
ghost use Rattle.form_store.specs.Forms.{latest};

use crate::answer::Answer;
use crate::prepared::{Parts, not_full};
use crate::refused::Refused;
use device_state::{Changes, EntryChange, OpenEntry, SavepointChange, State};
use entry_form::{Base, How};
use field_text::{NoMemory, Text};
use form_read::FormRefused;
use form_store::{FormRec, FormStore};
use instance_store::{InstanceRec, Status};
use kept_forms::KeptForm;
use question_rules::Sheet;
use savepoints::{Key, KeyBase};
use std::alloc::Global;

/// What a questionnaire begins with, and its form.
#[derive(Debug, Drop)]
pub struct Source {
    pub base: KeyBase,
    pub form: KeptForm,
}

impl Source {
    // Gives up a form with which no questionnaire begins.
    fn discard(self) {}

    fn key(&self, alloc: Global) -> Result<Key, NoMemory>
        ensures { IfOk result (λ key. key ≡ key_of_source self.now) }
    {
        Ok(Key {
            form: self.form.id().copy(alloc)?,
            version: self.form.version().copy(alloc)?,
            base: self.base,
        })
    }
}

pub(crate) fn record_at(forms: &FormStore, place: Option<u64>) -> Option<&FormRec>
    ensures { option_map (λ kept. kept.now) result ≡ record_at forms.now.items place }
{
    match place {
        Some(place) => forms.as_slice().get(place as usize),
        None => None,
    }
}

fn counts(how: How, kept: &FormRec) -> bool
    ensures { result ≡ counts how kept.now }
{
    match how {
        How::Fresh => kept.visible,
        How::Recover | How::Discard => true,
    }
}

fn counted_record(how: How, forms: &FormStore, place: Option<u64>) -> Result<&FormRec, Refused>
    ensures { Gives rule_of (λ kept. kept.now) result (counted_record how (record_at forms.now.items place)) }
{
    let Some(found) = record_at(forms, place) else {
        return Err(Refused::NoVersion);
    };
    if !counts(how, found) {
        return Err(Refused::NoVersion);
    }
    Ok(found)
}

fn latest_record<'a>(forms: &'a FormStore, id: &Text) -> Result<&'a FormRec, Refused>
    ensures { Gives rule_of (λ kept. kept.now) result
        (found_or (record_at forms.now.items (latest id.now forms.now.items)) NoForm) }
{
    match record_at(forms, forms.latest(id)) {
        Some(found) => Ok(found),
        None => Err(Refused::NoForm),
    }
}

fn version_record<'a>(
    forms: &'a FormStore,
    id: &Text,
    version: &Text,
    how: How,
) -> Result<&'a FormRec, Refused>
    ensures { Gives rule_of (λ kept. kept.now) result (blank_record forms.now.items id.now (Some version.now) how) }
{
    if !forms.has_id(id) {
        return Err(Refused::NoForm);
    }
    counted_record(how, forms, forms.exact(id, version))
}

fn blank_record<'a>(
    forms: &'a FormStore,
    id: &Text,
    version: &Option<Text>,
    how: How,
) -> Result<&'a FormRec, Refused>
    ensures { Gives rule_of (λ kept. kept.now) result (blank_record forms.now.items id.now version.now how) }
{
    match version {
        Some(version) => version_record(forms, id, version, how),
        None => latest_record(forms, id),
    }
}

pub(crate) fn instance_of(state: &State, number: u64) -> Option<&InstanceRec>
    ensures { option_map (λ kept. kept.now) result ≡ instance_of (plain state.now) number }
{
    match state.instances.place_of(number) {
        Some(place) => state.instances.as_slice().get(place as usize),
        None => None,
    }
}

fn instance_record(state: &State, number: u64) -> Result<&FormRec, Refused>
    ensures { Gives rule_of (λ kept. kept.now) result (instance_record (plain state.now) number) }
{
    let Some(instance) = instance_of(state, number) else {
        return Err(Refused::NoInstance);
    };
    let place = state.forms.exact(&instance.form, &instance.version);
    match record_at(&state.forms, place) {
        Some(found) => Ok(found),
        None => Err(Refused::NoForm),
    }
}

fn base_record<'a>(state: &'a State, base: &Base, how: How) -> Result<&'a FormRec, Refused>
    ensures { Gives rule_of (λ kept. kept.now) result (base_record (plain state.now) base.now how) }
{
    match base {
        Base::Blank { form, version } => blank_record(&state.forms, form, version, how),
        Base::Draft(number) | Base::Edit(number) => instance_record(state, *number),
    }
}

fn key_base(base: &Base) -> KeyBase
    ensures { result ≡ key_base base.now }
{
    match base {
        Base::Blank { .. } => KeyBase::Blank,
        Base::Draft(number) => KeyBase::Draft(*number),
        Base::Edit(number) => KeyBase::Edit(*number),
    }
}

// Bytes that describe no form count as none.
fn no_form(why: FormRefused) -> Refused
    ensures { result ≡ no_form why }
{
    match why {
        FormRefused::NoMemory => Refused::NoMemory,
        _ => Refused::NoForm,
    }
}

fn record_form(alloc: Global, kept: &FormRec) -> Result<KeptForm, Refused>
    ensures { Gives rule_of (λ form. form) result (record_form kept.now) }
{
    match KeptForm::read(alloc, kept.bytes.copy(alloc)?) {
        Ok(form) => Ok(form),
        Err(why) => Err(no_form(why)),
    }
}

pub(crate) fn source_of(
    alloc: Global,
    state: &State,
    base: &Base,
    how: How,
) -> Result<Source, Refused>
    ensures { Gives rule_of (λ source. source) result (source_of (plain state.now) base.now how) }
{
    let record = base_record(state, base, how)?;
    let form = record_form(alloc, record)?;
    Ok(Source {
        base: key_base(base),
        form,
    })
}

fn savepoint_met(state: &State, how: How, key: &Key) -> Result<(), Refused>
    ensures { Gives rule_of (λ u. u) result (savepoint_met (plain state.now) how key.now) }
{
    let there = state.savepoints.find(key).is_some();
    match how {
        How::Fresh if there => Err(Refused::SavepointThere),
        How::Recover | How::Discard if !there => Err(Refused::NoSavepoint),
        How::Fresh | How::Recover | How::Discard => Ok(()),
    }
}

pub(crate) fn is_draft(status: Status) -> bool
    ensures { result ≡ is_draft status }
{
    matches!(status, Status::Draft | Status::Invalid)
}

fn has_status(base: KeyBase, status: Status) -> bool
    ensures { result ≡ has_status base status }
{
    match base {
        KeyBase::Blank => true,
        KeyBase::Draft(_) => is_draft(status),
        KeyBase::Edit(_) => !is_draft(status),
    }
}

// The instance that a questionnaire stands on.
pub(crate) fn base_instance(state: &State, base: KeyBase) -> Option<&InstanceRec>
    ensures { option_map (λ kept. kept.now) result ≡ base_instance (plain state.now) base }
{
    match base {
        KeyBase::Blank => None,
        KeyBase::Draft(number) | KeyBase::Edit(number) => instance_of(state, number),
    }
}

fn right_status(state: &State, base: KeyBase) -> Result<(), Refused>
    ensures { Gives rule_of (λ u. u) result (right_status (plain state.now) base) }
{
    let Some(instance) = base_instance(state, base) else {
        return Ok(());
    };
    if !has_status(base, instance.status) {
        return Err(Refused::WrongStatus {
            status: instance.status,
        });
    }
    Ok(())
}

fn is_edit_of(instance: &InstanceRec, number: u64) -> bool
    ensures { result ≡ is_edit_of number instance.now }
{
    match instance.edit_of {
        Some(edited) => edited == number,
        None => false,
    }
}

fn edit_place(instances: &[InstanceRec], number: u64) -> Option<usize>
    ensures { result ≡ position (is_edit_of number) instances.now }
{
    instances
        .iter()
        .position(|instance| is_edit_of(instance, number))
}

fn edit_of(instances: &[InstanceRec], number: u64) -> Option<&InstanceRec>
    ensures { option_map (λ edit. edit.now) result ≡ edit_of instances.now number }
{
    match edit_place(instances, number) {
        Some(place) => instances.get(place),
        None => None,
    }
}

// Refuses where an edit of the instance with this number is kept.
fn no_edit_of(state: &State, number: u64) -> Result<(), Refused>
    ensures { Gives rule_of (λ u. u) result (refused_by_edit (edit_of state.now.instances.items number)) }
{
    match edit_of(state.instances.as_slice(), number) {
        Some(edit) => Err(Refused::HasEdit {
            number: edit.number,
        }),
        None => Ok(()),
    }
}

fn not_edited(state: &State, base: KeyBase) -> Result<(), Refused>
    ensures { Gives rule_of (λ u. u) result (not_edited (plain state.now) base) }
{
    match base {
        KeyBase::Blank => Ok(()),
        KeyBase::Draft(number) | KeyBase::Edit(number) => no_edit_of(state, number),
    }
}

fn fresh_sheet(alloc: Global, state: &State, source: &Source) -> Result<Sheet, NoMemory>
    ensures { IfOk result (λ sheet. sheet ≡ fresh_sheet (plain state.now) source.now) }
{
    match base_instance(state, source.base) {
        Some(instance) => source
            .form
            .settled_sheet(alloc, &state.lists, &instance.sheet),
        None => source.form.initial_sheet(alloc, &state.lists),
    }
}

// The sheet of the savepoint where it is gone on with.
fn kept_sheet(alloc: Global, state: &State, source: &Source, key: &Key) -> Result<Sheet, NoMemory>
    ensures { IfOk result (λ sheet. sheet
        ≡ unwrap_or (found key.now state.now.savepoints.items) (fresh_sheet (plain state.now) source.now)) }
{
    match state.savepoints.find(key) {
        Some(sheet) => sheet.copy(alloc),
        None => fresh_sheet(alloc, state, source),
    }
}

fn sheet_of(
    alloc: Global,
    state: &State,
    how: How,
    source: &Source,
    key: &Key,
) -> Result<Sheet, NoMemory>
    requires { key.now ≡ key_of_source source.now }
    ensures { IfOk result (λ sheet. sheet ≡ sheet_of (plain state.now) how source.now) }
{
    match how {
        How::Recover => kept_sheet(alloc, state, source, key),
        How::Fresh | How::Discard => fresh_sheet(alloc, state, source),
    }
}

fn savepoints_change(how: How, key: Key) -> SavepointChange
    ensures { (kept : _) → savepoints_changed result kept ≡ savepoints_left how key kept }
{
    match how {
        How::Fresh | How::Recover => SavepointChange::Keep,
        How::Discard => SavepointChange::Remove(key),
    }
}

// The savepoints' change and the sheet that a questionnaire begins with.
#[derive(Debug, Drop)]
struct Beginning {
    savepoints: SavepointChange,
    sheet: Sheet,
}

fn begun(alloc: Global, state: &State, how: How, source: &Source) -> Result<Beginning, Refused>
    ensures begun { Gives rule_of (λ b. (savepoints_changed b.savepoints state.now.savepoints.items, b.sheet)) result
        (begun (plain state.now) how source.now) }
    ensures room { OnOk result (state.now.counters.position < 2 ^ 62) }
{
    if state.entry.is_some() {
        return Err(Refused::EntryThere);
    }
    let key = source.key(alloc)?;
    savepoint_met(state, how, &key)?;
    right_status(state, source.base)?;
    not_edited(state, source.base)?;
    not_full(state)?;
    let sheet = sheet_of(alloc, state, how, source, &key)?;
    let savepoints = savepoints_change(how, key);
    Ok(Beginning { savepoints, sheet })
}

fn opened_with(state: &State, source: Source, begun: Beginning) -> Parts
    requires { state.now.counters.position < 2 ^ 62 }
    ensures { with_parts (plain state.now) result
        ≡ (
          opened_with (plain state.now) source
              (savepoints_changed begun.savepoints state.now.savepoints.items) begun.sheet,
          Answer.Done,
        ) }
{
    let Source { base, form } = source;
    let Beginning { savepoints, sheet } = begun;
    Parts {
        changes: Changes {
            savepoints,
            entry: EntryChange::Open(OpenEntry { base, form, sheet }),
            ..Changes::counted(state.counters.one_further())
        },
        answer: Answer::Done,
    }
}

pub(crate) fn start(alloc: Global, state: &State, base: &Base, how: How) -> Result<Parts, Refused>
    ensures { Makes (plain state.now) result (start (plain state.now) base.now how) }
{
    let source = source_of(alloc, state, base, how)?;
    match begun(alloc, state, how, &source) {
        Ok(begun) => Ok(opened_with(state, source, begun)),
        Err(why) => {
            source.discard();
            Err(why)
        }
    }
}
