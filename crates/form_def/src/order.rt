ghost use Rattle.std.specs.Prelude.{◌≡◌, IfOk, length};
ghost use Rattle.std.specs.List.{list_all};
ghost use Rattle.form_def.specs.Order.{dependencies as dependencies_of, dependencies_at, may_come, is_order, is_marked};

use crate::field::Field;
use crate::fields::parent_of;
use crate::reads::push_reads_of;
use field_text::NoMemory;
use std::alloc::Global;

/// Whether the field of a number is marked.
pub fn is_marked(marks: &[bool], number: u64) -> bool
    ensures { result ≡ is_marked marks.now number }
{
    marks.get(number as usize).copied().unwrap_or(false)
}

fn are_marked(marks: &[bool], numbers: &[u64]) -> bool
    ensures { result ≡ list_all (is_marked marks.now) numbers.now }
{
    numbers.iter().all(|number| is_marked(marks, *number))
}

/// The numbers of the fields that a field depends on: its parent, and what its relevance and its
/// calculation read.
pub fn dependencies(
    alloc: Global,
    fields: &[Field],
    own: u64,
    field: &Field,
) -> Result<Vec<u64>, NoMemory>
    ensures { IfOk result (λ numbers. numbers.items ≡ dependencies_of fields.now own field.now) }
{
    let mut numbers = Vec::new(alloc);
    if let Some(parent) = parent_of(fields, field.path.bytes()) {
        numbers.push(parent)?;
    }
    push_reads_of(&field.relevant, own, &mut numbers)?;
    push_reads_of(&field.calculate, own, &mut numbers)?;
    Ok(numbers)
}

/// Whether the field of this number may come next behind those that are marked.
fn may_come(alloc: Global, fields: &[Field], placed: &[bool], number: u64) -> Result<bool, NoMemory>
    ensures { IfOk result (λ may. may ≡ may_come (length fields.now) (dependencies_at fields.now)
        (is_marked placed.now) number) }
{
    let Some(field) = fields.get(number as usize) else {
        return Ok(false);
    };
    if is_marked(placed, number) {
        return Ok(false);
    }
    let numbers = dependencies(alloc, fields, number, field)?;
    Ok(are_marked(placed, numbers.as_slice()))
}

/// Whether these are all fields, each once, each behind those that it depends on.
pub fn is_order(alloc: Global, fields: &[Field], order: &[u64]) -> Result<bool, NoMemory>
    ensures { IfOk result (λ is. is ≡ is_order fields.now order.now) }
{
    if order.len() != fields.len() {
        return Ok(false);
    }
    let mut placed = vec![in alloc; false; fields.len()]?;
    let mut rest = order;
    while let Some((number, others)) = rest.split_first() {
        if !may_come(alloc, fields, placed.as_slice(), *number)? {
            return Ok(false);
        }
        placed[*number as usize] = true;
        rest = others;
    }
    Ok(true)
}
