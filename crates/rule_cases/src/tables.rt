ghost use Rattle.std.specs.Prelude.{◌≡◌, map, [], ◌∷◌};
ghost use Rattle.std.specs.Str.{bytes_eq};

use expr_values::inner_cell;
use field_text::{Items, NoMemory, Tables, Text};
use form_def::Cell;
use std::alloc::Global;

/// One list with its rows.
#[derive(Drop)]
pub struct OneList {
    pub name: Text,
    pub rows: Items<Items<Cell>>,
}

impl OneList {
    fn is_named(&self, list: &Text) -> bool
        ensures { result ≡ bytes_eq self.now.name list.now }
    {
        self.name.bytes() == list.bytes()
    }
}

impl Tables for OneList {
    ghost tables = { λ list. record {
      name = list.name;
      rows = map (map (λ cell. record { column = cell.column; text = cell.value })) list.rows;
    } ∷ [] };

    fn rows(&self, list: &Text) -> u64 {
        if self.is_named(list) {
            self.rows.len() as u64
        } else {
            0
        }
    }

    fn cell(&self, alloc: Global, list: &Text, row: u64, column: &Text) -> Result<Text, NoMemory> {
        if !self.is_named(list) {
            return Ok(Text::from_string(String::new(alloc)));
        }
        match self.rows.get(row as usize) {
            Some(cells) => inner_cell(alloc, cells.as_slice(), column),
            None => Ok(Text::from_string(String::new(alloc))),
        }
    }
}

pub fn text(alloc: Global, text: &str) -> Result<Text, NoMemory> {
    Ok(Text::from_string(String::from_str(alloc, text)?))
}

fn push_cell(alloc: Global, cells: &mut Items<Cell>, spelled: &str) -> Result<(), NoMemory> {
    if let Some((column, value)) = spelled.split_once('=') {
        cells.push(Cell {
            column: text(alloc, column)?,
            value: text(alloc, value)?,
        })?;
    }
    Ok(())
}

/// Cells spelled as columns and values with a sign between, and a space between two of them.
fn cells(alloc: Global, spelled: &str) -> Result<Items<Cell>, NoMemory> {
    let mut cells = Items::new(alloc);
    for cell in spelled.split(' ') {
        push_cell(alloc, &mut cells, cell)?;
    }
    Ok(cells)
}

/// The list of trees in a forest: three rows, one with a column twice.
pub fn forest(alloc: Global) -> Result<OneList, NoMemory> {
    let mut rows = Items::new(alloc);
    rows.push(cells(alloc, "name=t1 girth=30 girth=99")?)?;
    rows.push(cells(alloc, "name=t2 girth=45")?)?;
    rows.push(cells(alloc, "name=t3")?)?;
    Ok(OneList {
        name: text(alloc, "forest")?,
        rows,
    })
}
