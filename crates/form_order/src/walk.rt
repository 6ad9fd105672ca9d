ghost use Rattle.std.specs.Prelude.{◌≡◌, ◌<◌, ◌≤◌, ℕ, true, false, MatchOption, length, slice_index};
ghost use Rattle.form_order.specs.Walks.{mark_at, is_placed, is_placed_at};

use crate::rows::row;
use field_text::{Items, NoMemory};
use std::alloc::Global;

/// Where a walk stands with a field.
#[derive(Clone, Copy, Debug, PartialEq, Eq)]
pub enum Mark {
    New,
    /// On the path from the field with which the walk began.
    OnPath,
    /// In the order, behind all that it depends on.
    Placed,
}

fn is_placed(mark: Mark) -> bool
    ensures { result ≡ is_placed mark }
{
    match mark {
        Mark::New | Mark::OnPath => false,
        Mark::Placed => true,
    }
}

fn mark_at(marks: &[Mark], number: u64) -> Mark
    ensures { result ≡ mark_at marks.now number }
{
    marks.get(number as usize).copied().unwrap_or(Mark::New)
}

/// From a place on, where the first of the numbers stands that isn't placed.
fn first_open(marks: &[Mark], numbers: &[u64], from: usize) -> Option<usize>
    ensures { MatchOption result
        ((k : ℕ) → from ≤ k → k < length numbers.now → is_placed_at marks.now numbers.now k ≡ true)
        (λ place. (place < length numbers.now) × (is_placed_at marks.now numbers.now place ≡ false)
        × ((k : ℕ) → from ≤ k → k < place → is_placed_at marks.now numbers.now k ≡ true)) }
{
    for place in from..numbers.len() {
        if !is_placed(mark_at(marks, numbers[place])) {
            return Some(place);
        }
    }
    None
}

fn passed_at(passed: &[usize], number: u64) -> usize
    ensures { result ≡ slice_index passed.now number }
{
    passed.get(number as usize).copied().unwrap_or(0)
}

/// A walk from fields to those that they depend on, depth first.
#[derive(Debug, Drop)]
pub struct Walk {
    marks: Items<Mark>,
    path: Items<u64>,
    order: Items<u64>,
    /// How many of each row's first numbers are known to be placed.
    passed: Items<usize>,
}

impl Walk {
    ghost use Rattle.std.specs.Prelude.{[], IfOk, OnOk, MatchBool, Contains};
    ghost use Rattle.form_order.specs.Rows.{row as row_at, AreWithin};
    ghost use Rattle.form_order.specs.Walks.{unwalked, entered, placed, with_last, IsWalk, HasCycle, TakesTurn};
    ghost use Rattle.form_order.specs.Walks.{Finishes, Visits};

    pub fn new(alloc: Global, count: usize) -> Result<Walk, NoMemory>
        ensures { IfOk result (λ walk. walk ≡ unwalked count) }
    {
        Ok(Walk {
            marks: Items::from_vec(vec![in alloc; Mark::New; count]?),
            path: Items::new(alloc),
            order: Items::new(alloc),
            passed: Items::from_vec(vec![in alloc; 0; count]?),
        })
    }

    /// Puts a field at the end of the path.
    fn enter(&mut self, number: u64) -> Result<(), NoMemory>
        requires { number < length self.old.marks }
        ensures { OnOk result (self.new ≡ entered self.old number) }
    {
        self.path.push(number)?;
        self.marks.set(number as usize, Mark::OnPath);
        Ok(())
    }

    /// Puts a field at the end of the order.
    fn place(&mut self, number: u64) -> Result<(), NoMemory>
        requires { number < length self.old.marks }
        ensures { OnOk result (self.new ≡ placed self.old number) }
    {
        self.order.push(number)?;
        self.marks.set(number as usize, Mark::Placed);
        Ok(())
    }

    /// Goes from the field at the path's end, which was taken from it, to one that it needs, unless
    /// that is on the path; whether it isn't.
    fn follow(&mut self, rows: &[Items<u64>], number: u64, next: u64) -> Result<bool, NoMemory>
        requires within { AreWithin rows.now }
        requires walk { IsWalk (row_at rows.now) (length rows.now) (with_last self.old number) }
        requires needed { Contains (row_at rows.now number) next }
        requires unplaced { is_placed (mark_at self.old.marks next) ≡ false }
        ensures { IfOk result (λ on. MatchBool on (TakesTurn (row_at rows.now) (length rows.now) self.old self.new)
            (HasCycle (row_at rows.now))) }
    {
        if mark_at(self.marks.as_slice(), next) == Mark::OnPath {
            return Ok(false);
        }
        self.path.push(number)?;
        self.enter(next)?;
        Ok(true)
    }

    /// A turn at the field at the path's end, which was taken from it; whether it met no cycle.
    fn turn(&mut self, rows: &[Items<u64>], number: u64) -> Result<bool, NoMemory>
        requires within { AreWithin rows.now }
        requires walk { IsWalk (row_at rows.now) (length rows.now) (with_last self.old number) }
        ensures { IfOk result (λ on. MatchBool on (TakesTurn (row_at rows.now) (length rows.now) self.old self.new)
            (HasCycle (row_at rows.now))) }
    {
        let numbers = row(rows, number);
        let from = passed_at(self.passed.as_slice(), number);
        match first_open(self.marks.as_slice(), numbers, from) {
            Some(place) => {
                self.passed.set(number as usize, place);
                self.follow(rows, number, numbers[place])
            }
            None => {
                self.place(number)?;
                Ok(true)
            }
        }
    }

    /// Takes turns until no path is left; whether it met no cycle.
    fn finish(&mut self, rows: &[Items<u64>]) -> Result<bool, NoMemory>
        requires within { AreWithin rows.now }
        requires walk { IsWalk (row_at rows.now) (length rows.now) self.old }
        ensures { IfOk result (λ on. MatchBool on (Finishes (row_at rows.now) (length rows.now) self.old self.new)
            (HasCycle (row_at rows.now))) }
    {
        while let Some(number) = self.path.pop() {
            if !self.turn(rows, number)? {
                return Ok(false);
            }
        }
        Ok(true)
    }

    /// Places a field and all that it depends on; whether it met no cycle.
    pub fn visit(&mut self, rows: &[Items<u64>], number: u64) -> Result<bool, NoMemory>
        requires within { AreWithin rows.now }
        requires walk { IsWalk (row_at rows.now) (length rows.now) self.old }
        requires no_path { self.old.path ≡ [] }
        requires field { number < length rows.now }
        ensures { IfOk result (λ on. MatchBool on (Visits (row_at rows.now)
            (length rows.now) number self.old self.new) (HasCycle (row_at rows.now))) }
    {
        if mark_at(self.marks.as_slice(), number) != Mark::New {
            return Ok(true);
        }
        self.enter(number)?;
        self.finish(rows)
    }

    pub fn into_order(self) -> Items<u64>
        ensures { result ≡ self.order }
    {
        self.order
    }
}
