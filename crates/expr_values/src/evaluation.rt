ghost use Rattle.std.specs.Prelude.{◌≡◌, IfOk, map, ℕ, List};
ghost use Rattle.std.specs.List.{list_any};
ghost use Rattle.field_text.specs.Tables.{NamedTable, table_rows, text_in};
ghost use Rattle.expr_values.specs.Rows.{Columns, no_columns, columns_of, outer_rows, rows_named};
ghost use Rattle.expr_values.specs.Values.{truth_of};
ghost use Rattle.expr_values.specs.Seen.{columns_seen, surroundings_seen};
ghost use Rattle.expr_values.specs.Evaluation.{looked_up, value_in, text_read};

use crate::functions::call;
use crate::operators::{negative, pair};
use crate::rows::{Row, cell, inner_table, outer_table};
use crate::value::Value;
use field_text::{Items, NoMemory, Tables, Text};
use form_def::{Cell, Expr, FormDef, is_marked};
use std::alloc::Global;

/// What the expressions of a field read: the form, the text of each field and whether it is shown, the tables of the
/// device, and the field's own number.
#[derive(Drop)]
pub struct Scope<'a, T> {
    pub form: &'a FormDef,
    pub texts: &'a [Text],
    pub marks: &'a [bool],
    pub tables: &'a T,
    pub own: u64,
}

/// The text of a field as expressions read it: none where the field isn't shown.
pub fn read_text(
    alloc: Global,
    texts: &[Text],
    marks: &[bool],
    number: u64,
) -> Result<Text, NoMemory>
    ensures { IfOk result (λ text. text ≡ text_read texts.now marks.now number) }
{
    if !is_marked(marks, number) {
        return Ok(Text::from_string(String::new(alloc)));
    }
    match texts.get(number as usize) {
        Some(text) => text.copy(alloc),
        None => Ok(Text::from_string(String::new(alloc))),
    }
}

/// The value of an expression, in a row where it stands in a filter.
#[cycle(evaluation)]
pub fn evaluate<T: Tables>(
    alloc: Global,
    scope: &Scope<'_, T>,
    row: &Row<'_>,
    expr: &Expr,
) -> Result<Value, NoMemory>
    ensures { IfOk result (λ value. value
        ≡ value_in (surroundings_seen (T.tables scope.now.tables.now) scope.now) expr.now
        (columns_seen (T.tables scope.now.tables.now) row.now)) }
{
    match expr {
        Expr::Number(number) => Ok(Value::whole(*number)),
        Expr::Words(text) => Ok(Value::Words(text.copy(alloc)?)),
        Expr::Own => Ok(Value::Words(read_text(alloc, scope.texts, scope.marks, scope.own)?)),
        Expr::FieldAt(number) => Ok(Value::Words(read_text(
            alloc,
            scope.texts,
            scope.marks,
            *number,
        )?)),
        Expr::Column(column) => Ok(Value::Words(cell(alloc, scope.tables, row, column)?)),
        Expr::Item {
            table,
            filter,
            column,
        } => Ok(Value::Words(look_up(alloc, scope, table, filter.get(), column)?)),
        Expr::Call { func, args } => {
            let values = evaluate_all(alloc, scope, row, args.as_slice())?;
            call(alloc, *func, values.as_slice())
        }
        Expr::Pair { op, left, right } => {
            let left = evaluate(alloc, scope, row, left.get())?;
            let right = evaluate(alloc, scope, row, right.get())?;
            Ok(pair(*op, &left, &right))
        }
        Expr::Negative(negated) => Ok(negative(&evaluate(alloc, scope, row, negated.get())?)),
    }
}

#[cycle(evaluation)]
fn evaluate_all<T: Tables>(
    alloc: Global,
    scope: &Scope<'_, T>,
    row: &Row<'_>,
    exprs: &[Expr],
) -> Result<Vec<Value>, NoMemory>
    ensures { IfOk result (λ values. values.items
        ≡ map (λ expr. value_in (surroundings_seen (T.tables scope.now.tables.now) scope.now) expr
        (columns_seen (T.tables scope.now.tables.now) row.now)) exprs.now) }
{
    let mut values = Vec::new(alloc);
    for expr in exprs {
        values.push(evaluate(alloc, scope, row, expr)?)?;
    }
    Ok(values)
}

/// Whether an expression holds: its value as a truth.
#[cycle(evaluation)]
pub fn holds<T: Tables>(
    alloc: Global,
    scope: &Scope<'_, T>,
    row: &Row<'_>,
    expr: &Expr,
) -> Result<bool, NoMemory>
    ensures { IfOk result (λ holds. holds
        ≡ truth_of (value_in (surroundings_seen (T.tables scope.now.tables.now) scope.now) expr.now
        (columns_seen (T.tables scope.now.tables.now) row.now))) }
{
    let value = evaluate(alloc, scope, row, expr)?;
    Ok(value.truth())
}

/// The column of the first row of a table for which the filter holds.
#[cycle(evaluation)]
fn look_up<T: Tables>(
    alloc: Global,
    scope: &Scope<'_, T>,
    table: &Text,
    filter: &Expr,
    column: &Text,
) -> Result<Text, NoMemory>
    ensures { IfOk result (λ text. text ≡ looked_up
        (value_in (surroundings_seen (T.tables scope.now.tables.now) scope.now) filter.now) column.now
        (rows_named scope.now.form.now (T.tables scope.now.tables.now) table.now)) }
{
    match inner_table(scope.form.inner.as_slice(), table) {
        Some(inner) => look_up_inner(alloc, scope, inner.rows.as_slice(), filter, column),
        None => look_up_named(alloc, scope, table, filter, column),
    }
}

#[cycle(evaluation)]
fn look_up_named<T: Tables>(
    alloc: Global,
    scope: &Scope<'_, T>,
    table: &Text,
    filter: &Expr,
    column: &Text,
) -> Result<Text, NoMemory>
    ensures { IfOk result (λ text. text ≡ looked_up
        (value_in (surroundings_seen (T.tables scope.now.tables.now) scope.now) filter.now) column.now
        (outer_rows scope.now.form.now.outer (T.tables scope.now.tables.now) table.now)) }
{
    match outer_table(scope.form.outer.as_slice(), table) {
        Some(outer) => look_up_outer(alloc, scope, &outer.list, filter, column),
        None => Ok(Text::from_string(String::new(alloc))),
    }
}

#[cycle(evaluation)]
fn look_up_inner<T: Tables>(
    alloc: Global,
    scope: &Scope<'_, T>,
    rows: &[Items<Cell>],
    filter: &Expr,
    column: &Text,
) -> Result<Text, NoMemory>
    ensures { IfOk result (λ text. text ≡ looked_up
        (value_in (surroundings_seen (T.tables scope.now.tables.now) scope.now) filter.now) column.now
        (map columns_of rows.now)) }
{
    let mut rest = rows;
    while let Some((first, others)) = rest.split_first() {
        let row = Row::Inner(first.as_slice());
        if holds(alloc, scope, &row, filter)? {
            return cell(alloc, scope.tables, &row, column);
        }
        rest = others;
    }
    Ok(Text::from_string(String::new(alloc)))
}

#[cycle(evaluation)]
fn look_up_outer<T: Tables>(
    alloc: Global,
    scope: &Scope<'_, T>,
    list: &Text,
    filter: &Expr,
    column: &Text,
) -> Result<Text, NoMemory>
    ensures { IfOk result (λ text. text ≡ looked_up
        (value_in (surroundings_seen (T.tables scope.now.tables.now) scope.now) filter.now) column.now
        (map text_in (table_rows (T.tables scope.now.tables.now) list.now))) }
{
    for number in 0..scope.tables.rows(list) {
        let row = Row::Outer(list, number);
        if holds(alloc, scope, &row, filter)? {
            return cell(alloc, scope.tables, &row, column);
        }
    }
    Ok(Text::from_string(String::new(alloc)))
}
