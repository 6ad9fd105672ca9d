ghost use Rattle.std.specs.Prelude.{◌≡◌, true, IfOk, IfErr, OnOk, MatchOption, length};
ghost use Rattle.form_def.specs.Fields.{are_within};
ghost use Rattle.form_def.specs.Order.{is_order};
ghost use Rattle.form_order.specs.Cycles.{NoCycle, Refuses};
ghost use Rattle.form_order.specs.Rows.{row as row_at, AreWithin};
ghost use Rattle.form_order.specs.Walks.{HasCycle, IsOrder};

use crate::fault::OrderFault;
use crate::reach::first_cycle;
use crate::rows::rows_of;
use crate::walk::Walk;
use field_text::{Items, NoMemory};
use form_def::Field;
use std::alloc::Global;

/// An order by these rows, none if a number leads to itself.
fn walk_all(alloc: Global, rows: &[Items<u64>]) -> Result<Option<Items<u64>>, NoMemory>
    requires { AreWithin rows.now }
    ensures { IfOk result (λ found. MatchOption found (HasCycle (row_at rows.now))
        (λ order. IsOrder (row_at rows.now) (length rows.now) order)) }
{
    let mut walk = Walk::new(alloc, rows.len())?;
    for number in 0..rows.len() as u64 {
        if !walk.visit(rows, number)? {
            return Ok(None);
        }
    }
    Ok(Some(walk.into_order()))
}

/// The numbers of all fields, each once, each behind those that its field depends on: its parent, and
/// what its relevance and its calculation read. The fields go by number, in document order from 0.
///
/// The walk takes a step for each field and each of its dependencies; to find a field's parent looks
/// through the paths of all fields. Only where there is a cycle, what a field leads to is looked for
/// from each field, in document order, up to the first that depends on itself.
pub fn order_of(alloc: Global, fields: &[Field]) -> Result<Items<u64>, OrderFault>
    requires { are_within (length fields.now) 0 fields.now ≡ true }
    ensures order { IfOk result (λ order. is_order fields.now order ≡ true) }
    ensures no_cycle { OnOk result (NoCycle fields.now) }
    ensures refused { IfErr result (λ fault. Refuses fields.now fault) }
{
    let rows = rows_of(alloc, fields)?;
    match walk_all(alloc, rows.as_slice())? {
        Some(order) => Ok(order),
        None => {
            let field = first_cycle(alloc, rows.as_slice())?;
            Err(OrderFault::Cycle { field })
        }
    }
}
