ghost use Rattle.std.specs.Prelude.{◌≡◌, ◌+◌, ◌<◌, ◌^◌, ◌++◌, ◌∷◌, [], fold, map, position, true, false, None};
ghost use Rattle.std.specs.Prelude.{IfOk, OnOk};
ghost use Rattle.std.specs.List.{list_any};
ghost use Rattle.std.specs.Str.{bytes_eq};
ghost use Rattle.field_text.specs.Steps.{Gives};
ghost use Rattle.entity_lists.specs.Entities.{entity_place};
ghost use Rattle.entity_lists.specs.Versions.{is_last};
ghost use Rattle.entity_merge.specs.Branches.{branch_of};
ghost use Rattle.entity_merge.specs.Actions.{acted, acted_rows, created_row, created_rows, draws_after, fault_of};
ghost use Rattle.entity_merge.specs.Actions.{is_acted_on, is_at_end, label_after, put_prop, row_after};
ghost use Rattle.entity_merge.specs.Actions.{updated_row, updated_rows};

use crate::branches::branch_of;
use entity_lists::{Entities, EntityList, EntityRow, Prop, ROW_LIMIT, Version};
use field_ids::Draws;
use field_text::{Items, NoMemory, Text};
use std::alloc::{AllocFailed, Global};

/// What a finalized form does to an entity (ODK Entities).
#[derive(Debug, Drop)]
pub struct Action {
    /// Whether it makes the entity; else it updates it.
    pub create: bool,
    /// The name of the list.
    pub list: Text,
    pub id: Text,
    pub label: Text,
    pub props: Items<Prop>,
}

/// Why an action isn't done.
#[derive(Debug, Drop)]
pub enum ActionRefused {
    /// The list would have so many rows, more than a list holds.
    TooManyRecords { count: u64 },
    /// The version of the entity of this id is the last one.
    AtEnd { id: Text },
    NoMemory,
}

impl From<NoMemory> for ActionRefused {
    ghost use Rattle.entity_merge.specs.declared.actions.ActionRefused.{ActionRefused};

    ghost from_gives = { λ _ e. e ≡ ActionRefused.NoMemory };

    fn from(_: NoMemory) -> ActionRefused {
        ActionRefused::NoMemory
    }
}

impl<T: Drop> From<AllocFailed<T>> for ActionRefused {
    ghost use Rattle.entity_merge.specs.declared.actions.ActionRefused.{ActionRefused};

    ghost from_gives = { λ _ e. e ≡ ActionRefused.NoMemory };

    fn from(_: AllocFailed<T>) -> ActionRefused {
        ActionRefused::NoMemory
    }
}

fn place_of(props: &[Prop], name: &Text) -> Option<usize>
    ensures { result ≡ position (λ p. bytes_eq p.name name.now) props.now }
{
    props
        .iter()
        .position(|prop| prop.name.bytes() == name.bytes())
}

fn put(alloc: Global, props: &mut Items<Prop>, new: &Prop) -> Result<(), NoMemory>
    ensures { OnOk result (props.new ≡ put_prop props.old new.now) }
{
    let copy = new.copy(alloc)?;
    match place_of(props.as_slice(), &new.name) {
        Some(place) => props.set(place, copy),
        None => props.push(copy)?,
    }
    Ok(())
}

fn put_all(alloc: Global, props: &[Prop], new: &[Prop]) -> Result<Items<Prop>, NoMemory>
    ensures { IfOk result (λ v. v ≡ fold put_prop props.now new.now) }
{
    let mut all = Prop::copy_all(alloc, props)?;
    for prop in new {
        put(alloc, &mut all, prop)?;
    }
    Ok(all)
}

fn label_after(alloc: Global, action: &Action, row: &EntityRow) -> Result<Text, NoMemory>
    ensures { IfOk result (λ label. label ≡ label_after action.now row.now) }
{
    if action.label.bytes().is_empty() {
        row.label.copy(alloc)
    } else {
        action.label.copy(alloc)
    }
}

fn updated_row(alloc: Global, action: &Action, row: &EntityRow) -> Result<EntityRow, NoMemory>
    requires { is_last row.now.version ≡ false }
    ensures { IfOk result (λ r. r ≡ updated_row action.now row.now) }
{
    Ok(EntityRow {
        id: row.id.copy(alloc)?,
        label: label_after(alloc, action, row)?,
        version: row.version.next(),
        trunk: row.trunk,
        branch: row.branch.copy(alloc)?,
        online: row.online,
        props: put_all(alloc, row.props.as_slice(), action.props.as_slice())?,
    })
}

fn is_acted_on(action: &Action, row: &EntityRow) -> bool
    ensures { result ≡ is_acted_on action.now row.now }
{
    row.id.bytes() == action.id.bytes()
}

fn is_at_end(action: &Action, row: &EntityRow) -> bool
    ensures { result ≡ is_at_end action.now row.now }
{
    is_acted_on(action, row) && row.version.is_last()
}

fn some_at_end(action: &Action, rows: &[EntityRow]) -> bool
    ensures { result ≡ list_any (is_at_end action.now) rows.now }
{
    rows.iter().any(|row| is_at_end(action, row))
}

fn row_after(alloc: Global, action: &Action, row: &EntityRow) -> Result<EntityRow, NoMemory>
    requires { is_at_end action.now row.now ≡ false }
    ensures { IfOk result (λ r. r ≡ row_after action.now row.now) }
{
    if is_acted_on(action, row) {
        updated_row(alloc, action, row)
    } else {
        row.copy(alloc)
    }
}

fn rows_after(
    alloc: Global,
    action: &Action,
    rows: &[EntityRow],
) -> Result<Items<EntityRow>, NoMemory>
    requires { list_any (is_at_end action.now) rows.now ≡ false }
    ensures { IfOk result (λ v. v ≡ map (row_after action.now) rows.now) }
{
    let mut after = Vec::new(alloc);
    for row in rows {
        after.push(row_after(alloc, action, row)?)?;
    }
    Ok(Items::from_vec(after))
}

fn updated_rows(
    alloc: Global,
    action: &Action,
    rows: &[EntityRow],
) -> Result<Items<EntityRow>, ActionRefused>
    ensures { Gives fault_of (λ v. v) result (updated_rows rows.now action.now) }
{
    if some_at_end(action, rows) {
        let id = action.id.copy(alloc)?;
        return Err(ActionRefused::AtEnd { id });
    }
    Ok(rows_after(alloc, action, rows)?)
}

fn created_row(alloc: Global, action: &Action, draws: Draws) -> Result<EntityRow, NoMemory>
    requires { draws.next < 2 ^ 62 }
    ensures { IfOk result (λ row. row ≡ created_row action.now (branch_of draws)) }
{
    Ok(EntityRow {
        id: action.id.copy(alloc)?,
        label: action.label.copy(alloc)?,
        version: Version::first(),
        trunk: None,
        branch: branch_of(alloc, draws)?,
        online: false,
        props: Prop::copy_all(alloc, action.props.as_slice())?,
    })
}

fn with_created(
    alloc: Global,
    action: &Action,
    rows: &[EntityRow],
    draws: Draws,
) -> Result<Items<EntityRow>, NoMemory>
    requires { draws.next < 2 ^ 62 }
    ensures { IfOk result (λ v. v ≡ rows.now ++ created_row action.now (branch_of draws) ∷ []) }
{
    let mut all = EntityRow::copy_all(alloc, rows)?;
    all.push(created_row(alloc, action, draws)?)?;
    Ok(all)
}

fn created_rows(
    alloc: Global,
    action: &Action,
    rows: &[EntityRow],
    draws: Draws,
) -> Result<Items<EntityRow>, ActionRefused>
    requires { draws.next < 2 ^ 62 }
    ensures { Gives fault_of (λ v. v) result (created_rows rows.now action.now (branch_of draws)) }
{
    let count = rows.len() as u64 + 1;
    if count > ROW_LIMIT {
        return Err(ActionRefused::TooManyRecords { count });
    }
    Ok(with_created(alloc, action, rows, draws)?)
}

// The rows after an action.
fn acted_rows(
    alloc: Global,
    action: &Action,
    rows: &[EntityRow],
    draws: Draws,
) -> Result<Items<EntityRow>, ActionRefused>
    requires { draws.next < 2 ^ 62 }
    ensures { Gives fault_of (λ v. v) result (acted_rows rows.now action.now draws) }
{
    if action.create {
        created_rows(alloc, action, rows, draws)
    } else {
        updated_rows(alloc, action, rows)
    }
}

fn draws_after(action: &Action, draws: Draws) -> Draws
    requires { draws.next < 2 ^ 62 }
    ensures { result ≡ draws_after action.now draws }
{
    if action.create { draws.after(1) } else { draws }
}

/// The list after an action of a form, and the draws after that. A creation takes a draw, for its branch.
///
/// An update of an id that the list lacks changes nothing.
pub fn apply_action(
    alloc: Global,
    list: &EntityList,
    action: &Action,
    draws: Draws,
) -> Result<(EntityList, Draws), ActionRefused>
    requires room { draws.next < 2 ^ 62 }
    requires absent { action.now.create ≡ true → entity_place action.now.id list.now.rows ≡ None }
    ensures { Gives fault_of (λ after. after) result (acted list.now action.now draws) }
{
    let rows = acted_rows(alloc, action, list.rows.as_slice(), draws)?;
    let after = list.with_rows(alloc, Entities::from_items(rows))?;
    Ok((after, draws_after(action, draws)))
}
