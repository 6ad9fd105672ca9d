ghost use Rattle.std.specs.Prelude.{◌≡◌, ◌++◌, ◌∷◌, [], IfOk};
ghost use Rattle.std.specs.Option.{option_copied};
ghost use Rattle.form_read.specs.Refusals.{Gives};
ghost use Rattle.form_read.specs.Tables.{has_inner, has_outer, has_table, behind_scheme, before_extension};
ghost use Rattle.form_read.specs.Tables.{list_named, content_taken, source_taken, table_taken, says, entity_id_path};
ghost use Rattle.form_read.specs.Tables.{draws_id, setvalue_taken};

use crate::draft::Draft;
use crate::primary::entity_path;
use crate::slots::slot_of;
use crate::{FormRefused, Scope};
use field_text::{Items, NoMemory, Text};
use form_def::{Cell, InnerTable, OuterTable};
use form_outline::{SetValue, Table, TableContent};
use std::alloc::Global;

fn has_inner(tables: &[InnerTable], name: &Text) -> bool
    ensures { result ≡ has_inner tables.now name.now }
{
    tables
        .iter()
        .any(|table| table.name.bytes() == name.bytes())
}

fn has_outer(tables: &[OuterTable], name: &Text) -> bool
    ensures { result ≡ has_outer tables.now name.now }
{
    tables
        .iter()
        .any(|table| table.name.bytes() == name.bytes())
}

fn has_table(draft: &Draft, name: &Text) -> bool
    ensures { result ≡ has_table draft.now name.now }
{
    has_inner(draft.inner.as_slice(), name) || has_outer(draft.outer.as_slice(), name)
}

fn behind_scheme(source: &str) -> Option<&str>
    ensures { option_copied result ≡ behind_scheme source.now }
{
    source.strip_prefix("jr://file-csv/")
}

fn before_extension(file: &str) -> Option<&str>
    ensures { option_copied result ≡ before_extension file.now }
{
    file.strip_suffix(".csv")
}

/// The entity list that a source names.
fn list_named(source: &str) -> Option<&str>
    ensures { option_copied result ≡ list_named source.now }
{
    let file = behind_scheme(source)?;
    let name = before_extension(file)?;
    if name.is_empty() {
        return None;
    }
    Some(name)
}

fn cells_of(alloc: Global, cells: &[Cell]) -> Result<Items<Cell>, NoMemory>
    ensures { IfOk result (λ copy. copy ≡ cells.now) }
{
    let mut copy = Items::new(alloc);
    for cell in cells {
        copy.push(Cell {
            column: cell.column.copy(alloc)?,
            value: cell.value.copy(alloc)?,
        })?;
    }
    Ok(copy)
}

fn rows_of(alloc: Global, rows: &[Items<Cell>]) -> Result<Items<Items<Cell>>, NoMemory>
    ensures { IfOk result (λ copy. copy ≡ rows.now) }
{
    let mut copy = Items::new(alloc);
    for row in rows {
        copy.push(cells_of(alloc, row.as_slice())?)?;
    }
    Ok(copy)
}

fn source_taken(alloc: Global, draft: Draft, id: Text, source: &Text) -> Result<Draft, FormRefused>
    ensures { Gives (λ x. x) result (source_taken draft id (list_named source.now)) }
{
    let mut next = draft;
    match list_named(source.as_str()) {
        Some(list) => {
            let list = Text::from_string(String::from_str(alloc, list)?);
            next.outer.push(OuterTable { name: id, list })?;
            Ok(next)
        }
        None => Err(FormRefused::UnknownList { name: id }),
    }
}

fn content_taken(
    alloc: Global,
    draft: Draft,
    id: Text,
    content: &TableContent,
) -> Result<Draft, FormRefused>
    ensures { Gives (λ x. x) result (content_taken draft id content.now) }
{
    let mut next = draft;
    match content {
        TableContent::Rows(rows) => {
            let rows = rows_of(alloc, rows.as_slice())?;
            next.inner.push(InnerTable { name: id, rows })?;
            Ok(next)
        }
        TableContent::Nothing => {
            let rows = Items::new(alloc);
            next.inner.push(InnerTable { name: id, rows })?;
            Ok(next)
        }
        TableContent::Source(source) => source_taken(alloc, next, id, source),
    }
}

/// The draft with a secondary instance.
pub fn table_taken(alloc: Global, draft: Draft, table: &Table) -> Result<Draft, FormRefused>
    ensures { Gives (λ x. x) result (table_taken draft table.now) }
{
    if has_table(&draft, &table.id) {
        return Ok(draft);
    }
    let id = table.id.copy(alloc)?;
    content_taken(alloc, draft, id, &table.content)
}

fn says(text: &[u8], value: &Option<Text>) -> bool
    ensures { result ≡ says text.now value.now }
{
    match value {
        Some(value) => value.bytes() == text,
        None => false,
    }
}

fn entity_id_path(alloc: Global, root: &Text) -> Result<Text, NoMemory>
    ensures { IfOk result (λ path. path ≡ entity_id_path root.now) }
{
    let entity = entity_path(alloc, root)?;
    let mut path = String::from_str(alloc, entity.as_str())?;
    path.push_str("/@id")?;
    Ok(Text::from_string(path))
}

/// Whether this sets a fresh id for the entity when an instance begins.
fn draws_id(alloc: Global, scope: &Scope, setvalue: &SetValue) -> Result<bool, NoMemory>
    ensures { IfOk result (λ draws. draws ≡ draws_id scope.now setvalue.now) }
{
    let path = entity_id_path(alloc, &scope.root)?;
    Ok(
        slot_of(scope.slots.as_slice(), path.bytes()).is_some()
            && says(path.bytes(), &setvalue.target)
            && says(b"odk-instance-first-load", &setvalue.event)
            && says(b"uuid()", &setvalue.value),
    )
}

/// The draft with a value that is set.
pub fn setvalue_taken(
    alloc: Global,
    scope: &Scope,
    draft: Draft,
    setvalue: &SetValue,
) -> Result<Draft, FormRefused>
    ensures { Gives (λ x. x) result (setvalue_taken scope.now draft setvalue.now) }
{
    if !draws_id(alloc, scope, setvalue)? {
        return Err(FormRefused::UnknownControl {
            name: Text::from_string(String::from_str(alloc, "setvalue")?),
        });
    }
    let mut next = draft;
    next.draws_id = true;
    Ok(next)
}
