ghost use Rattle.std.specs.Prelude.{◌≡◌, [], ◌∷◌, ◌++◌, ◌+◌, ◌<◌, ◌≤◌, length, remove, slice_get, Some, OnOk, OnErr};
ghost use Rattle.std.specs.Borrow.{sem};
ghost use Rattle.field_rows.specs.Lending.{LendsRow};

use field_text::NoMemory;
use std::alloc::Global;
use std::marker::Model;

/// Rows in their order, and room for some more.
#[derive(Debug, Drop)]
pub struct Rows<T> {
    rows: Vec<T>,
}

impl<T> Model for Rows<T> {
    ghost use Rattle.std.specs.Prelude.{◌-◌, vec_len};
    ghost use Rattle.std.specs.Vec.{vec_capacity};
    ghost use Rattle.field_rows.specs.Kept.{Kept, kept_code};

    ghost Value = { Kept T };

    ghost coded = { kept_code T.code };

    ghost view = { λ r. record { items = r.rows.items; spare = vec_capacity r.rows - vec_len r.rows } };
}

impl<T> Rows<T> {
    /// No rows, and no room.
    pub fn make(alloc: Global) -> Rows<T>
        ensures items { result.items ≡ [] }
        ensures spare { result.spare ≡ 0 }
    {
        Rows {
            rows: Vec::new(alloc),
        }
    }

    /// Takes room for one more row, where there is none.
    pub fn reserve(&mut self) -> Result<(), NoMemory>
        ensures items { self.new.items ≡ self.old.items }
        ensures ok { OnOk result (1 ≤ self.new.spare) }
        ensures kept { self.old.spare ≤ self.new.spare }
        ensures err { OnErr result (self.new.spare ≡ 0) }
    {
        Ok(self.rows.reserve(1)?)
    }

    pub fn count(&self) -> u64
        ensures { result ≡ length self.now.items }
    {
        self.rows.len() as u64
    }

    pub fn as_slice(&self) -> &[T]
        ensures { result.now ≡ self.now.items }
    {
        self.rows.as_slice()
    }

    /// The row at this place, counted from 0.
    pub fn at(&self, place: u64) -> &T
        requires { place < length self.now.items }
        ensures { slice_get self.now.items place ≡ Some result.now }
    {
        &self.rows[place as usize]
    }

    /// The row at this place, for writing.
    pub fn edit(&mut self, place: u64) -> &mut T
        requires { place < length self.old.items }
        ensures* writes_back { sem 𝓛 (LendsRow T.row self.entry place result) }
        ensures row { slice_get self.old.items place ≡ Some result.now }
    {
        &mut self.rows[place as usize]
    }

    pub fn push(&mut self, row: T)
        requires room { 0 < self.old.spare }
        ensures items { self.new.items ≡ self.old.items ++ row ∷ [] }
        ensures spare { self.new.spare + 1 ≡ self.old.spare }
    {
        self.rows.push_reserved(row);
    }

    /// Takes out the row at this place; those behind it move down.
    pub fn remove(&mut self, place: u64) -> T
        requires { place < length self.old.items }
        ensures row { slice_get self.old.items place ≡ Some result }
        ensures items { self.new.items ≡ remove self.old.items place }
        ensures spare { self.new.spare ≡ self.old.spare + 1 }
    {
        self.rows.remove(place as usize)
    }
}
