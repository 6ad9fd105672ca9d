ghost use Rattle.std.specs.Prelude.{◌≡◌, ◌<◌, ◌↔◌, IsTrue, IfOk, OnOk, length};
ghost use Rattle.form_def.specs.Order.{is_marked};
ghost use Rattle.form_order.specs.Rows.{row as row_at, AreWithin};
ghost use Rattle.form_order.specs.Cycles.{Leads, IsFirstCycle};
ghost use Rattle.form_order.specs.Walks.{HasCycle};

use crate::rows::row;
use field_text::{Items, NoMemory};
use std::alloc::Global;

fn is_marked(marks: &[bool], number: u64) -> bool
    ensures { result ≡ is_marked marks.now number }
{
    marks.get(number as usize).copied().unwrap_or(false)
}

/// The fields found from one, each once.
#[derive(Debug, Drop)]
pub struct Reach {
    marks: Items<bool>,
    found: Items<u64>,
}

impl Reach {
    ghost use Rattle.std.specs.Prelude.{◌<◌, IfOk, OnOk, length, All};
    ghost use Rattle.form_order.specs.Reached.{unreached, with_found, with_all_found};

    fn new(alloc: Global, count: usize) -> Result<Reach, NoMemory>
        ensures { IfOk result (λ reach. reach ≡ unreached count) }
    {
        Ok(Reach {
            marks: Items::from_vec(vec![in alloc; false; count]?),
            found: Items::new(alloc),
        })
    }

    /// Adds a field, unless it was found before.
    fn add(&mut self, number: u64) -> Result<(), NoMemory>
        requires { number < length self.old.marks }
        ensures { OnOk result (self.new ≡ with_found self.old number) }
    {
        if is_marked(self.marks.as_slice(), number) {
            return Ok(());
        }
        self.found.push(number)?;
        self.marks.set(number as usize, true);
        Ok(())
    }

    /// Adds those of the fields that weren't found before.
    fn add_all(&mut self, numbers: &[u64]) -> Result<(), NoMemory>
        requires { All (λ k. k < length self.old.marks) numbers.now }
        ensures { OnOk result (self.new ≡ with_all_found self.old numbers.now) }
    {
        for number in numbers {
            self.add(*number)?;
        }
        Ok(())
    }
}

/// Whether a field depends on itself.
fn leads_to_itself(alloc: Global, rows: &[Items<u64>], number: u64) -> Result<bool, NoMemory>
    requires { AreWithin rows.now }
    ensures { IfOk result (λ leads. IsTrue leads ↔ Leads (row_at rows.now) number number) }
{
    let mut reach = Reach::new(alloc, rows.len())?;
    reach.add_all(row(rows, number))?;
    let mut next = 0;
    while let Some(found) = reach.found.get(next).copied() {
        reach.add_all(row(rows, found))?;
        next += 1;
    }
    Ok(is_marked(reach.marks.as_slice(), number))
}

/// Of the fields that depend on themselves, the one of the least number, where there are any.
pub fn first_cycle(alloc: Global, rows: &[Items<u64>]) -> Result<u64, NoMemory>
    requires within { AreWithin rows.now }
    requires cycle { HasCycle (row_at rows.now) }
    ensures { IfOk result (λ number. IsFirstCycle (row_at rows.now) (length rows.now) number) }
{
    for number in 0..rows.len() as u64 {
        if leads_to_itself(alloc, rows, number)? {
            return Ok(number);
        }
    }
    unreachable!()
}
