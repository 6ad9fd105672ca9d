ghost use Rattle.std.specs.Prelude.{◌≡◌, ◌++◌, map, IfOk, OnOk};
ghost use Rattle.field_text.specs.Tables.{table_rows, text_in};
ghost use Rattle.expr_values.specs.Rows.{columns_of, outer_rows, rows_named};
ghost use Rattle.expr_values.specs.Seen.{columns_seen, surroundings_seen};
ghost use Rattle.expr_values.specs.Evaluation.{row_holds as filter_holds, offer, offers as offered, is_offered};

use crate::evaluation::{Scope, holds};
use crate::rows::{Row, cell, inner_table, is_in_cell, outer_table};
use field_text::{Items, NoMemory, Tables, Text};
use form_def::{Cell, Expr};
use std::alloc::Global;

fn row_holds<T: Tables>(
    alloc: Global,
    scope: &Scope<'_, T>,
    row: &Row<'_>,
    filter: &Option<Expr>,
) -> Result<bool, NoMemory>
    ensures { IfOk result (λ holds. holds
        ≡ filter_holds (surroundings_seen (T.tables scope.now.tables.now) scope.now) filter.now
        (columns_seen (T.tables scope.now.tables.now) row.now)) }
{
    match filter {
        Some(filter) => holds(alloc, scope, row, filter),
        None => Ok(true),
    }
}

/// Appends the column of a row, where the filter holds.
fn push_offer<T: Tables>(
    alloc: Global,
    scope: &Scope<'_, T>,
    row: &Row<'_>,
    filter: &Option<Expr>,
    column: &Text,
    values: &mut Vec<Text>,
) -> Result<(), NoMemory>
    ensures { OnOk result (values.new.items
        ≡ values.old.items ++ offer (surroundings_seen (T.tables scope.now.tables.now) scope.now) filter.now
        column.now (columns_seen (T.tables scope.now.tables.now) row.now)) }
{
    if row_holds(alloc, scope, row, filter)? {
        values.push(cell(alloc, scope.tables, row, column)?)?;
    }
    Ok(())
}

fn inner_offers<T: Tables>(
    alloc: Global,
    scope: &Scope<'_, T>,
    rows: &[Items<Cell>],
    filter: &Option<Expr>,
    column: &Text,
) -> Result<Vec<Text>, NoMemory>
    ensures { IfOk result (λ values. values.items
        ≡ offered (surroundings_seen (T.tables scope.now.tables.now) scope.now) filter.now column.now
        (map columns_of rows.now)) }
{
    let mut values = Vec::new(alloc);
    for cells in rows {
        let row = Row::Inner(cells.as_slice());
        push_offer(alloc, scope, &row, filter, column, &mut values)?;
    }
    Ok(values)
}

fn outer_offers<T: Tables>(
    alloc: Global,
    scope: &Scope<'_, T>,
    list: &Text,
    filter: &Option<Expr>,
    column: &Text,
) -> Result<Vec<Text>, NoMemory>
    ensures { IfOk result (λ values. values.items
        ≡ offered (surroundings_seen (T.tables scope.now.tables.now) scope.now) filter.now column.now
        (map text_in (table_rows (T.tables scope.now.tables.now) list.now))) }
{
    let mut values = Vec::new(alloc);
    for number in 0..scope.tables.rows(list) {
        let row = Row::Outer(list, number);
        push_offer(alloc, scope, &row, filter, column, &mut values)?;
    }
    Ok(values)
}

fn named_offers<T: Tables>(
    alloc: Global,
    scope: &Scope<'_, T>,
    table: &Text,
    filter: &Option<Expr>,
    column: &Text,
) -> Result<Vec<Text>, NoMemory>
    ensures { IfOk result (λ values. values.items
        ≡ offered (surroundings_seen (T.tables scope.now.tables.now) scope.now) filter.now column.now
        (outer_rows scope.now.form.now.outer (T.tables scope.now.tables.now) table.now)) }
{
    match outer_table(scope.form.outer.as_slice(), table) {
        Some(outer) => outer_offers(alloc, scope, &outer.list, filter, column),
        None => Ok(Vec::new(alloc)),
    }
}

/// The column of each row of a table for which the filter holds, or of all rows where there is none.
pub fn offers<T: Tables>(
    alloc: Global,
    scope: &Scope<'_, T>,
    table: &Text,
    filter: &Option<Expr>,
    column: &Text,
) -> Result<Vec<Text>, NoMemory>
    ensures { IfOk result (λ values. values.items
        ≡ offered (surroundings_seen (T.tables scope.now.tables.now) scope.now) filter.now column.now
        (rows_named scope.now.form.now (T.tables scope.now.tables.now) table.now)) }
{
    match inner_table(scope.form.inner.as_slice(), table) {
        Some(inner) => inner_offers(alloc, scope, inner.rows.as_slice(), filter, column),
        None => named_offers(alloc, scope, table, filter, column),
    }
}

/// Whether a row offers the choice: it stands in the column, and the filter holds.
fn row_offers<T: Tables>(
    alloc: Global,
    scope: &Scope<'_, T>,
    row: &Row<'_>,
    filter: &Option<Expr>,
    column: &Text,
    choice: &[u8],
) -> Result<bool, NoMemory>
    ensures { IfOk result (λ found. found
        ≡ is_offered (offer (surroundings_seen (T.tables scope.now.tables.now) scope.now)
        filter.now column.now (columns_seen (T.tables scope.now.tables.now) row.now)) choice.now) }
{
    if !is_in_cell(alloc, scope.tables, row, column, choice)? {
        return Ok(false);
    }
    row_holds(alloc, scope, row, filter)
}

fn inner_offers_choice<T: Tables>(
    alloc: Global,
    scope: &Scope<'_, T>,
    rows: &[Items<Cell>],
    filter: &Option<Expr>,
    column: &Text,
    choice: &[u8],
) -> Result<bool, NoMemory>
    ensures { IfOk result (λ found. found
        ≡ is_offered (offered (surroundings_seen (T.tables scope.now.tables.now) scope.now)
        filter.now column.now (map columns_of rows.now)) choice.now) }
{
    let mut rest = rows;
    while let Some((first, others)) = rest.split_first() {
        let row = Row::Inner(first.as_slice());
        if row_offers(alloc, scope, &row, filter, column, choice)? {
            return Ok(true);
        }
        rest = others;
    }
    Ok(false)
}

fn outer_offers_choice<T: Tables>(
    alloc: Global,
    scope: &Scope<'_, T>,
    list: &Text,
    filter: &Option<Expr>,
    column: &Text,
    choice: &[u8],
) -> Result<bool, NoMemory>
    ensures { IfOk result (λ found. found
        ≡ is_offered (offered (surroundings_seen (T.tables scope.now.tables.now) scope.now)
        filter.now column.now (map text_in (table_rows (T.tables scope.now.tables.now) list.now))) choice.now) }
{
    for number in 0..scope.tables.rows(list) {
        let row = Row::Outer(list, number);
        if row_offers(alloc, scope, &row, filter, column, choice)? {
            return Ok(true);
        }
    }
    Ok(false)
}

fn named_offers_choice<T: Tables>(
    alloc: Global,
    scope: &Scope<'_, T>,
    table: &Text,
    filter: &Option<Expr>,
    column: &Text,
    choice: &[u8],
) -> Result<bool, NoMemory>
    ensures { IfOk result (λ found. found
        ≡ is_offered (offered (surroundings_seen (T.tables scope.now.tables.now) scope.now)
        filter.now column.now (outer_rows scope.now.form.now.outer (T.tables scope.now.tables.now) table.now))
        choice.now) }
{
    match outer_table(scope.form.outer.as_slice(), table) {
        Some(outer) => outer_offers_choice(alloc, scope, &outer.list, filter, column, choice),
        None => Ok(false),
    }
}

/// Whether a row of a table offers the choice. The first one that does is the last one that is looked at.
pub fn offers_choice<T: Tables>(
    alloc: Global,
    scope: &Scope<'_, T>,
    table: &Text,
    filter: &Option<Expr>,
    column: &Text,
    choice: &[u8],
) -> Result<bool, NoMemory>
    ensures { IfOk result (λ found. found
        ≡ is_offered (offered (surroundings_seen (T.tables scope.now.tables.now) scope.now)
        filter.now column.now (rows_named scope.now.form.now (T.tables scope.now.tables.now) table.now)) choice.now) }
{
    match inner_table(scope.form.inner.as_slice(), table) {
        Some(inner) => inner_offers_choice(
            alloc,
            scope,
            inner.rows.as_slice(),
            filter,
            column,
            choice,
        ),
        None => named_offers_choice(alloc, scope, table, filter, column, choice),
    }
}
