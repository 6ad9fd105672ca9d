ghost use Rattle.std.specs.Prelude.{◌≡◌, ◌++◌, OnOk, string_bytes};
ghost use Rattle.std.specs.List.{flat_map};
ghost use Rattle.case_lines.specs.Cells.{cell_printed, cells_printed, further_cell_printed, row_printed};

use crate::pieces::push_all;
use crate::prints::{Prints, print_all};
use field_text::Items;
use form_def::Cell;
use std::alloc::AllocError;

/// Prints the rows of tables.
pub struct RowPrinter;

fn print_cell(out: &mut String, cell: &Cell) -> Result<(), AllocError>
    ensures { OnOk result (string_bytes out.new ≡ string_bytes out.old ++ cell_printed cell.now) }
{
    push_all(out, &[cell.column.as_str(), "=[", cell.value.as_str(), "]"])
}

impl Prints<Cell> for RowPrinter {
    ghost printed = { further_cell_printed };

    fn print(out: &mut String, value: &Cell) -> Result<(), AllocError> {
        out.push_str(" ")?;
        print_cell(out, value)
    }
}

fn print_cells(out: &mut String, cells: &[Cell]) -> Result<(), AllocError>
    ensures { OnOk result (string_bytes out.new ≡ string_bytes out.old ++ cells_printed cells.now) }
{
    let Some((first, further)) = cells.split_first() else {
        return Ok(());
    };
    print_cell(out, first)?;
    print_all::<_, RowPrinter>(out, further)
}

impl Prints<Items<Cell>> for RowPrinter {
    ghost printed = { row_printed };

    fn print(out: &mut String, value: &Items<Cell>) -> Result<(), AllocError> {
        out.push_str(" (")?;
        print_cells(out, value.as_slice())?;
        out.push_str(")")
    }
}
