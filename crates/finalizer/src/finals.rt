ghost use Rattle.std.specs.Prelude.{◌≡◌, ◌+◌, ◌<◌, ◌≤◌, ◌^◌, IfOk, IfSome, length};
ghost use Rattle.field_text.specs.Steps.{Gives};
ghost use Rattle.field_ids.specs.Draws.{drawn};
ghost use Rattle.entity_lists.specs.EntityTables.{tables_of};
ghost use Rattle.finalizer.specs.EntityParts.{undrawn};
ghost use Rattle.finalizer.specs.Fits.{Fits};
ghost use Rattle.finalizer.specs.Finals.{complete_sheet, document, fault_of, final_drawn, final_of, instance_id};
ghost use Rattle.finalizer.specs.Finals.{lacking, names_of, next_id, not_written, settled_sheet, with_id_at, with_ids};

use crate::actions::action_of;
use crate::entity_parts::undrawn;
use entity_lists::EntityLists;
use entity_merge::Action;
use field_ids::{Draws, draw};
use field_text::{Blob, NoMemory, Text};
use form_def::FormDef;
use instance_doc::{DocFault, Meta, doc_bytes};
use question_rules::{Cause, Fault, Sheet, first_fault, settle, shown_marks};
use std::alloc::Global;

/// What an instance is finalized with beside its sheet.
#[derive(Debug, Drop)]
pub struct MetaIn {
    pub draws: Draws,
    /// The id of the instance that this one is an edit of.
    pub deprecated: Option<Text>,
}

/// A finalized instance.
#[derive(Debug, Drop)]
pub struct Final {
    /// Its document.
    pub bytes: Blob,
    pub instance_id: Text,
    /// Its sheet, settled, with the entity's id.
    pub sheet: Sheet,
    /// What it does to an entity list, if it does something.
    pub action: Option<Action>,
    /// The draws after its own.
    pub draws: Draws,
}

/// Why an instance isn't finalized.
#[derive(Debug, Drop)]
pub enum NotFinal {
    /// The field of this path is required, and empty.
    Required { path: Text },
    /// The constraint of the field of this path doesn't hold.
    Constraint { path: Text },
    /// The document would have so many bytes, more than one may have.
    TooLong { length: u64 },
    NoMemory,
}

impl From<NoMemory> for NotFinal {
    ghost use Rattle.finalizer.specs.declared.finals.NotFinal.{NotFinal};

    ghost from_gives = { λ _ e. e ≡ NotFinal.NoMemory };

    fn from(_: NoMemory) -> NotFinal {
        NotFinal::NoMemory
    }
}

/// A sheet with drawn ids, and the draws after them.
#[derive(Debug, Drop)]
pub(crate) struct Drawn {
    pub sheet: Sheet,
    pub draws: Draws,
}

fn lacking(fault: Fault) -> NotFinal
    ensures { result ≡ lacking fault.cause fault.path }
{
    let Fault { path, cause } = fault;
    match cause {
        Cause::Required => NotFinal::Required { path },
        Cause::Constraint => NotFinal::Constraint { path },
    }
}

fn settled_sheet(
    alloc: Global,
    form: &FormDef,
    sheet: &Sheet,
    lists: &EntityLists,
) -> Result<Sheet, NoMemory>
    requires { length sheet.now ≡ length form.now.fields }
    ensures texts { IfOk result (λ settled. settled
        ≡ settled_sheet form.now (tables_of lists.now.items) sheet.now) }
    ensures fits { IfOk result (λ settled. length settled ≡ length form.now.fields) }
{
    let mut settled = sheet.copy(alloc)?;
    settle(alloc, form, &mut settled, lists)?;
    Ok(settled)
}

// The settled sheet, if it lacks nothing.
fn complete_sheet(
    alloc: Global,
    form: &FormDef,
    sheet: &Sheet,
    lists: &EntityLists,
) -> Result<Sheet, NotFinal>
    requires { length sheet.now ≡ length form.now.fields }
    ensures texts { Gives fault_of (λ texts. texts) result
        (complete_sheet form.now (tables_of lists.now.items) sheet.now) }
    ensures fits { IfOk result (λ settled. length settled ≡ length form.now.fields) }
{
    let settled = settled_sheet(alloc, form, sheet, lists)?;
    match first_fault(alloc, form, &settled, lists)? {
        Some(fault) => Err(lacking(fault)),
        None => Ok(settled),
    }
}

// The text of the next id.
fn next_id(alloc: Global, draws: Draws) -> Result<Text, NoMemory>
    requires { draws.next < 2 ^ 62 }
    ensures { IfOk result (λ id. id ≡ next_id draws) }
{
    draw(draws.device, draws.next).text(alloc)
}

fn instance_id(alloc: Global, draws: Draws) -> Result<Text, NoMemory>
    requires { draws.next < 2 ^ 62 }
    ensures { IfOk result (λ id. id ≡ instance_id draws) }
{
    let id = next_id(alloc, draws)?;
    let mut text = String::from_str(alloc, "uuid:")?;
    text.push_str(id.as_str())?;
    Ok(Text::from_string(text))
}

fn copy_option(alloc: Global, text: &Option<Text>) -> Result<Option<Text>, NoMemory>
    ensures { IfOk result (λ copy. copy ≡ text.now) }
{
    match text {
        Some(text) => Ok(Some(text.copy(alloc)?)),
        None => Ok(None),
    }
}

// The sheet once the field of a number, if there is one, has a drawn id.
fn with_id_at(
    alloc: Global,
    sheet: Sheet,
    draws: Draws,
    number: Option<u64>,
) -> Result<Drawn, NoMemory>
    requires room { draws.next < 2 ^ 62 }
    requires within { IfSome number (λ n. n < length sheet) }
    ensures made { IfOk result (λ made. made ≡ with_id_at sheet draws number) }
    ensures fits { IfOk result (λ made. length made.sheet ≡ length sheet) }
{
    let Some(number) = number else {
        return Ok(Drawn { sheet, draws });
    };
    let id = next_id(alloc, draws)?;
    let mut sheet = sheet;
    sheet.put_text(number, id);
    Ok(Drawn {
        sheet,
        draws: draws.after(1),
    })
}

fn not_written(fault: DocFault) -> NotFinal
    ensures { result ≡ not_written fault }
{
    match fault {
        DocFault::TooLong { length } => NotFinal::TooLong { length },
        DocFault::NoMemory => NotFinal::NoMemory,
    }
}

// The document of these texts, of which the marked ones are shown.
fn document(
    alloc: Global,
    form: &FormDef,
    texts: &[Text],
    marks: &[bool],
    names: &Meta,
) -> Result<Blob, NotFinal>
    requires texts { length texts.now ≡ length form.now.fields }
    requires marks { length marks.now ≡ length form.now.fields }
    ensures { Gives fault_of (λ bytes. bytes) result (document form.now texts.now marks.now names.now) }
{
    match doc_bytes(alloc, form, texts, marks, names) {
        Ok(bytes) => Ok(bytes),
        Err(fault) => Err(not_written(fault)),
    }
}

fn names_of(alloc: Global, meta: &MetaIn) -> Result<Meta, NoMemory>
    requires { meta.now.draws.next + 2 ≤ 2 ^ 62 }
    ensures { IfOk result (λ names. names ≡ names_of meta.now) }
{
    Ok(Meta {
        instance_id: instance_id(alloc, meta.draws)?,
        deprecated: copy_option(alloc, &meta.deprecated)?,
    })
}

// The sheet once the entity's id is drawn, behind the instance's.
fn with_ids(alloc: Global, form: &FormDef, draws: Draws, sheet: Sheet) -> Result<Drawn, NoMemory>
    requires room { draws.next + 2 ≤ 2 ^ 62 }
    ensures made { IfOk result (λ made. made ≡ with_ids form.now draws sheet) }
    ensures fits { IfOk result (λ made. length made.sheet ≡ length sheet) }
{
    let number = undrawn(alloc, form, sheet.texts())?;
    with_id_at(alloc, sheet, draws.after(1), number)
}

// The finalized instance, by its names and its sheet with drawn ids.
fn final_drawn(
    alloc: Global,
    form: &FormDef,
    lists: &EntityLists,
    names: Meta,
    made: Drawn,
) -> Result<Final, NotFinal>
    requires { length made.sheet ≡ length form.now.fields }
    ensures { Gives fault_of (λ done. done) result (final_drawn form.now lists.now.items names made) }
{
    let marks = shown_marks(alloc, form, &made.sheet, lists)?;
    let texts = made.sheet.texts();
    let bytes = document(alloc, form, texts, marks.as_slice(), &names)?;
    let action = action_of(alloc, form, lists, texts, marks.as_slice())?;
    Ok(Final {
        bytes,
        instance_id: names.instance_id,
        sheet: made.sheet,
        action,
        draws: made.draws,
    })
}

/// Finalizes an instance of a form with this sheet, of which a copy is settled and tested. The sheet must have a text
/// for each field, and there must be room for two draws. A refusal draws nothing.
pub fn finalize(
    alloc: Global,
    form: &FormDef,
    sheet: &Sheet,
    lists: &EntityLists,
    meta: &MetaIn,
) -> Result<Final, NotFinal>
    requires fits { length sheet.now ≡ length form.now.fields }
    requires room { meta.now.draws.next + 2 ≤ 2 ^ 62 }
    ensures done { Gives fault_of (λ done. done) result (final_of form.now sheet.now lists.now.items meta.now) }
    ensures fits { IfOk result (Fits lists.now.items meta.now.draws) }
{
    let complete = complete_sheet(alloc, form, sheet, lists)?;
    let names = names_of(alloc, meta)?;
    let made = with_ids(alloc, form, meta.draws, complete)?;
    final_drawn(alloc, form, lists, names, made)
}
