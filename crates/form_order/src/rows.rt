ghost use Rattle.std.specs.Prelude.{◌≡◌, IfOk};
ghost use Rattle.form_order.specs.Rows.{rows_of, row as row_at};

use field_text::{Items, NoMemory};
use form_def::{Field, dependencies};
use std::alloc::Global;

/// What each field depends on, a row a field.
pub fn rows_of(alloc: Global, fields: &[Field]) -> Result<Items<Items<u64>>, NoMemory>
    ensures { IfOk result (λ rows. rows ≡ rows_of fields.now) }
{
    let mut rows = Items::new(alloc);
    let mut number = 0;
    let mut rest = fields;
    while let Some((field, others)) = rest.split_first() {
        let numbers = dependencies(alloc, fields, number, field)?;
        rows.push(Items::from_vec(numbers))?;
        number += 1;
        rest = others;
    }
    Ok(rows)
}

/// The row of a field.
pub fn row(rows: &[Items<u64>], number: u64) -> &[u64]
    ensures { result.now ≡ row_at rows.now number }
{
    match rows.get(number as usize) {
        Some(row) => row.as_slice(),
        None => &[],
    }
}
