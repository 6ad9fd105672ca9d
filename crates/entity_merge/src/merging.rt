ghost use Rattle.std.specs.Prelude.{◌≡◌, ◌+◌, ◌<◌, ◌≤◌, ◌^◌, ◌&&◌, length, position, is_none, not, IfOk};
ghost use Rattle.std.specs.List.{list_any};
ghost use Rattle.std.specs.Option.{option_copied};
ghost use Rattle.std.specs.Str.{bytes_eq};
ghost use Rattle.field_text.specs.Steps.{Gives};
ghost use Rattle.entity_merge.specs.Merging.{branch_by, contents, drawing_rows, draws_branch, fault_of, is_trunk};
ghost use Rattle.entity_merge.specs.Merging.{kept_rows, local_row, merged, merged_row, merged_rows, new_rows};
ghost use Rattle.entity_merge.specs.Merging.{seen_row, server_row, server_wins, taken_row, unseen_row, within_limit};

use crate::branches::branch_of;
use entity_lists::{Entities, EntityList, EntityRow, Prop, ROW_LIMIT, ServerRow, Version};
use field_ids::Draws;
use field_text::{Items, NoMemory, Text};
use std::alloc::Global;

/// Why a server's list isn't merged.
#[derive(Clone, Copy, Debug, PartialEq, Eq)]
pub enum MergeRefused {
    /// The list after it would have so many rows, more than a list holds.
    TooManyRecords { count: u64 },
    NoMemory,
}

impl From<NoMemory> for MergeRefused {
    ghost use Rattle.entity_merge.specs.declared.merging.MergeRefused.{MergeRefused};

    ghost from_gives = { λ _ e. e ≡ MergeRefused.NoMemory };

    fn from(_: NoMemory) -> MergeRefused {
        MergeRefused::NoMemory
    }
}

fn local_of<'l>(locals: &'l [EntityRow], id: &Text) -> Option<&'l EntityRow>
    ensures { option_copied result ≡ local_row locals.now id.now }
{
    locals.iter().find(|local| local.id.bytes() == id.bytes())
}

// The first row of an id.
fn server_of<'s>(rows: &'s [ServerRow], id: &Text) -> Option<&'s ServerRow>
    ensures { option_copied result ≡ server_row rows.now id.now }
{
    rows.iter().find(|row| row.id.bytes() == id.bytes())
}

fn is_among(rows: &[ServerRow], id: &Text) -> bool
    ensures { result ≡ list_any (λ s. bytes_eq s.id id.now) rows.now }
{
    rows.iter().any(|row| row.id.bytes() == id.bytes())
}

fn is_trunk(trunk: Option<Version>, version: Version) -> bool
    ensures { result ≡ is_trunk trunk version }
{
    match trunk {
        Some(trunk) => trunk.number() == version.number(),
        None => false,
    }
}

fn server_wins(local: &EntityRow, server: &ServerRow) -> bool
    ensures { result ≡ server_wins local.now server.now }
{
    let (old, new) = (local.version.number(), server.version.number());
    old < new || (old == new && !is_trunk(local.trunk, server.version))
}

fn starts_branch(locals: &[EntityRow], server: &ServerRow) -> bool
    ensures { result ≡ draws_branch (local_row locals.now server.now.id) server.now }
{
    match local_of(locals, &server.id) {
        Some(local) => server_wins(local, server),
        None => true,
    }
}

// Whether a row behind these is the first of its id and starts a branch.
fn draws_here(locals: &[EntityRow], before: &[ServerRow], row: &ServerRow) -> bool
    ensures { result ≡ (not (list_any (λ s. bytes_eq s.id row.now.id) before.now)
        && draws_branch (local_row locals.now row.now.id) row.now) }
{
    !is_among(before, &row.id) && starts_branch(locals, row)
}

fn is_unknown(locals: &[EntityRow], row: &ServerRow) -> bool
    ensures { result ≡ is_none (local_row locals.now row.now.id) }
{
    local_of(locals, &row.id).is_none()
}

// The rows that start a branch.
fn drawing<'s>(
    alloc: Global,
    locals: &[EntityRow],
    rows: &'s [ServerRow],
) -> Result<Vec<&'s ServerRow>, NoMemory>
    ensures { IfOk result (λ v. contents v.items ≡ drawing_rows locals.now rows.entry.now) }
{
    let mut drawing = Vec::new(alloc);
    for (place, row) in rows.iter().enumerate() {
        if draws_here(locals, &rows[..place], row) {
            drawing.push(row)?;
        }
    }
    Ok(drawing)
}

fn place_in(drawing: &[&ServerRow], id: &Text) -> Option<usize>
    ensures { result ≡ position (λ s. bytes_eq s.now.id id.now) drawing.now }
{
    drawing.iter().position(|row| row.id.bytes() == id.bytes())
}

// The branch that a row starts.
fn branch_by(
    alloc: Global,
    drawing: &[&ServerRow],
    draws: Draws,
    server: &ServerRow,
) -> Result<Text, NoMemory>
    requires room { draws.next < 2 ^ 62 }
    requires rooms { draws.next + length drawing.now ≤ 2 ^ 62 }
    ensures { IfOk result (λ branch. branch ≡ branch_by (contents drawing.now) draws server.now) }
{
    let place = place_in(drawing, &server.id).unwrap_or(0) as u64;
    branch_of(alloc, draws.after(place))
}

fn taken_row(
    alloc: Global,
    drawing: &[&ServerRow],
    draws: Draws,
    server: &ServerRow,
) -> Result<EntityRow, NoMemory>
    requires room { draws.next < 2 ^ 62 }
    requires rooms { draws.next + length drawing.now ≤ 2 ^ 62 }
    ensures { IfOk result (λ row. row ≡ taken_row server.now (branch_by (contents drawing.now) draws server.now)) }
{
    Ok(EntityRow {
        id: server.id.copy(alloc)?,
        label: server.label.copy(alloc)?,
        version: server.version,
        trunk: Some(server.version),
        branch: branch_by(alloc, drawing, draws, server)?,
        online: true,
        props: Prop::copy_all(alloc, server.props.as_slice())?,
    })
}

fn seen_row(alloc: Global, local: &EntityRow) -> Result<EntityRow, NoMemory>
    ensures { IfOk result (λ row. row ≡ seen_row local.now) }
{
    let mut row = local.copy(alloc)?;
    row.online = true;
    Ok(row)
}

fn unseen_row(alloc: Global, local: &EntityRow) -> Result<Option<EntityRow>, NoMemory>
    ensures { IfOk result (λ row. row ≡ unseen_row local.now) }
{
    if local.online {
        Ok(None)
    } else {
        Ok(Some(local.copy(alloc)?))
    }
}

// What becomes of a local row.
fn merged_row(
    alloc: Global,
    rows: &[ServerRow],
    drawing: &[&ServerRow],
    draws: Draws,
    local: &EntityRow,
) -> Result<Option<EntityRow>, NoMemory>
    requires room { draws.next + length rows.now ≤ 2 ^ 62 }
    requires rooms { draws.next + length drawing.now ≤ 2 ^ 62 }
    ensures { IfOk result (λ row. row
        ≡ merged_row (branch_by (contents drawing.now) draws) local.now (server_row rows.now local.now.id)) }
{
    match server_of(rows, &local.id) {
        Some(server) => {
            if server_wins(local, server) {
                Ok(Some(taken_row(alloc, drawing, draws, server)?))
            } else {
                Ok(Some(seen_row(alloc, local)?))
            }
        }
        None => unseen_row(alloc, local),
    }
}

// The local rows that stay, in their order.
fn kept_rows(
    alloc: Global,
    locals: &[EntityRow],
    rows: &[ServerRow],
    drawing: &[&ServerRow],
    draws: Draws,
) -> Result<Vec<EntityRow>, NoMemory>
    requires room { draws.next + length rows.now ≤ 2 ^ 62 }
    requires rooms { draws.next + length drawing.now ≤ 2 ^ 62 }
    ensures { IfOk result (λ v. v.items
        ≡ kept_rows locals.now rows.now (branch_by (contents drawing.now) draws)) }
{
    let mut kept = Vec::new(alloc);
    for local in locals {
        if let Some(row) = merged_row(alloc, rows, drawing, draws, local)? {
            kept.push(row)?;
        }
    }
    Ok(kept)
}

// The rows that the local list lacks, in their order: each of them starts a branch.
fn new_rows(
    alloc: Global,
    locals: &[EntityRow],
    drawing: &[&ServerRow],
    draws: Draws,
) -> Result<Vec<EntityRow>, NoMemory>
    requires { draws.next + length drawing.now ≤ 2 ^ 62 }
    ensures { IfOk result (λ v. v.items
        ≡ new_rows locals.now (contents drawing.now) (branch_by (contents drawing.now) draws)) }
{
    let mut new = Vec::new(alloc);
    for row in drawing {
        if is_unknown(locals, row) {
            new.push(taken_row(alloc, drawing, draws, row)?)?;
        }
    }
    Ok(new)
}

fn merged_rows(
    alloc: Global,
    locals: &[EntityRow],
    rows: &[ServerRow],
    drawing: &[&ServerRow],
    draws: Draws,
) -> Result<Vec<EntityRow>, NoMemory>
    requires room { draws.next + length rows.now ≤ 2 ^ 62 }
    requires drawing { contents drawing.now ≡ drawing_rows locals.now rows.now }
    ensures { IfOk result (λ v. v.items ≡ merged_rows locals.now rows.now draws) }
{
    let mut merged = kept_rows(alloc, locals, rows, drawing, draws)?;
    let mut new = new_rows(alloc, locals, drawing, draws)?;
    merged.append(&mut new)?;
    Ok(merged)
}

fn within_limit(rows: Vec<EntityRow>) -> Result<Items<EntityRow>, MergeRefused>
    ensures { Gives fault_of (λ v. v) result (within_limit rows.items) }
{
    let count = rows.len() as u64;
    if count > ROW_LIMIT {
        return Err(MergeRefused::TooManyRecords { count });
    }
    Ok(Items::from_vec(rows))
}

/// The list after the server's rows were merged into it, and the draws after that.
///
/// Of several rows of an id the first counts. A row that starts a branch takes the next draw, in the order of the rows.
pub fn merge(
    alloc: Global,
    list: &EntityList,
    rows: &[ServerRow],
    draws: Draws,
) -> Result<(EntityList, Draws), MergeRefused>
    requires { draws.next + length rows.now ≤ 2 ^ 62 }
    ensures { Gives fault_of (λ after. after) result (merged list.now rows.now draws) }
{
    let locals = list.rows.as_slice();
    let drawing = drawing(alloc, locals, rows)?;
    let all = merged_rows(alloc, locals, rows, drawing.as_slice(), draws)?;
    let all = within_limit(all)?;
    let after = list.with_rows(alloc, Entities::from_items(all))?;
    Ok((after, draws.after(drawing.len() as u64)))
}
