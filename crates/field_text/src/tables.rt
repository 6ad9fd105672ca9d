ghost use Rattle.std.specs.Prelude.{◌≡◌, List, IfOk};
ghost use Rattle.field_text.specs.Tables.{NamedTable, row_count, cell_text};

use crate::{NoMemory, Text};
use std::alloc::Global;

/// Named tables of texts. Of one name the first table counts, and of one column of a row the first cell.
pub trait Tables {
    /// The tables in their order.
    ghost tables: { Self → List NamedTable };

    /// The number of rows of a table, 0 where there is none of that name.
    fn rows(&self, list: &Text) -> u64
        ensures { result ≡ row_count (tables self.now) list.now };

    /// The text in a column of a row counted from 0, empty where there is none.
    fn cell(&self, alloc: Global, list: &Text, row: u64, column: &Text) -> Result<Text, NoMemory>
        ensures { IfOk result (λ text. text ≡ cell_text (tables self.now) list.now row column.now) };
}
