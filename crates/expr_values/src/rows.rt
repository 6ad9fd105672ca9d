ghost use Rattle.std.specs.Prelude.{◌≡◌, ℕ, List, [], IfOk, find, Option, Some, None};
ghost use Rattle.std.specs.Option.{option_copied};
ghost use Rattle.std.specs.Str.{bytes_eq};
ghost use Rattle.field_text.specs.Tables.{NamedTable, cell_text};
ghost use Rattle.expr_values.specs.Rows.{Columns, columns_of};
ghost use Rattle.expr_values.specs.Seen.{columns_seen};

use field_text::{NoMemory, Tables, Text};
use form_def::{Cell, InnerTable, OuterTable};
use std::alloc::Global;

/// The row of a table that a filter is asked of.
#[derive(Clone, Copy)]
pub enum Row<'a> {
    /// Outside any filter.
    Absent,
    /// A row of a table in the form.
    Inner(&'a [Cell]),
    /// The row of this number of a list.
    Outer(&'a Text, u64),
}

fn find_cell<'a>(cells: &'a [Cell], column: &Text) -> Option<&'a Cell>
    ensures { option_copied result ≡ find (λ cell. bytes_eq cell.column column.now) cells.now }
{
    cells
        .iter()
        .find(|cell| cell.column.bytes() == column.bytes())
}

/// The text in a column of a row in the form, empty where the row lacks it.
pub fn inner_cell(alloc: Global, cells: &[Cell], column: &Text) -> Result<Text, NoMemory>
    ensures { IfOk result (λ text. text ≡ columns_of cells.now column.now) }
{
    match find_cell(cells, column) {
        Some(cell) => cell.value.copy(alloc),
        None => Ok(Text::from_string(String::new(alloc))),
    }
}

/// The text in a column of a row, empty where the row lacks it.
pub fn cell<T: Tables>(
    alloc: Global,
    tables: &T,
    row: &Row<'_>,
    column: &Text,
) -> Result<Text, NoMemory>
    ensures { IfOk result (λ text. text ≡ columns_seen (T.tables tables.now) row.now column.now) }
{
    match row {
        Row::Absent => Ok(Text::from_string(String::new(alloc))),
        Row::Inner(cells) => inner_cell(alloc, cells, column),
        Row::Outer(list, number) => tables.cell(alloc, list, *number, column),
    }
}

/// Whether the text in a column of a row in the form is this one.
fn is_in_inner_cell(cells: &[Cell], column: &Text, text: &[u8]) -> bool
    ensures { result ≡ bytes_eq (columns_of cells.now column.now) text.now }
{
    match find_cell(cells, column) {
        Some(cell) => cell.value.bytes() == text,
        None => text.is_empty(),
    }
}

/// Whether the text in a column of a row is this one.
pub fn is_in_cell<T: Tables>(
    alloc: Global,
    tables: &T,
    row: &Row<'_>,
    column: &Text,
    text: &[u8],
) -> Result<bool, NoMemory>
    ensures { IfOk result (λ is. is ≡ bytes_eq (columns_seen (T.tables tables.now) row.now column.now) text.now) }
{
    match row {
        Row::Absent => Ok(text.is_empty()),
        Row::Inner(cells) => Ok(is_in_inner_cell(cells, column, text)),
        Row::Outer(list, number) => {
            let cell = tables.cell(alloc, list, *number, column)?;
            Ok(cell.bytes() == text)
        }
    }
}

/// The first table of a name in the form.
pub fn inner_table<'a>(tables: &'a [InnerTable], name: &Text) -> Option<&'a InnerTable>
    ensures { option_copied result ≡ find (λ table. bytes_eq table.name name.now) tables.now }
{
    tables
        .iter()
        .find(|table| table.name.bytes() == name.bytes())
}

/// The first name of this kind for a list of the device.
pub fn outer_table<'a>(tables: &'a [OuterTable], name: &Text) -> Option<&'a OuterTable>
    ensures { option_copied result ≡ find (λ table. bytes_eq table.name name.now) tables.now }
{
    tables
        .iter()
        .find(|table| table.name.bytes() == name.bytes())
}
