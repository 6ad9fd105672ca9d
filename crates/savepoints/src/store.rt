ghost use Rattle.std.specs.Prelude.{◌≡◌, [], ◌+◌, ◌<◌, ◌≤◌, None, option_map, OnOk};
ghost use Rattle.savepoints.specs.Savepoints.{found, is_at, place_of, put, removed, removed_on, sheet_at, stands_on};

use crate::keys::same_key;
use crate::{Key, KeyBase};
use field_rows::Rows;
use field_text::NoMemory;
use question_rules::Sheet;
use std::alloc::Global;
use std::marker::Model;

/// The sheet that an entry had last.
#[derive(Debug, Drop)]
pub struct Savepoint {
    pub key: Key,
    pub sheet: Sheet,
}

/// Savepoints by their keys, and room for some more.
#[derive(Debug, Drop)]
pub struct Savepoints {
    rows: Rows<Savepoint>,
}

impl Model for Savepoints {
    ghost use Rattle.field_rows.specs.Kept.{Kept};
    ghost use Rattle.savepoints.specs.declared.store.Savepoint.{Savepoint};

    ghost Value = { Kept Savepoint };

    ghost view = { λ s. s.rows };
}

fn place_of(savepoints: &[Savepoint], key: &Key) -> Option<usize>
    ensures { result ≡ place_of key.now savepoints.now }
{
    savepoints
        .iter()
        .position(|savepoint| same_key(key, &savepoint.key))
}

fn stands_on(savepoint: &Savepoint, number: u64) -> bool
    ensures { result ≡ stands_on number savepoint.now }
{
    match savepoint.key.base {
        KeyBase::Blank => false,
        KeyBase::Draft(base) | KeyBase::Edit(base) => base == number,
    }
}

impl Savepoints {
    /// No savepoints, and no room.
    pub fn make(alloc: Global) -> Savepoints
        ensures savepoints { result.items ≡ [] }
        ensures spare { result.spare ≡ 0 }
    {
        Savepoints {
            rows: Rows::make(alloc),
        }
    }

    /// The sheet of this key.
    pub fn find(&self, key: &Key) -> Option<&Sheet>
        ensures { option_map (λ sheet. sheet.now) result ≡ found key.now self.now.items }
    {
        let savepoints = self.rows.as_slice();
        match place_of(savepoints, key) {
            Some(place) => Some(&savepoints[place].sheet),
            None => None,
        }
    }

    pub fn as_slice(&self) -> &[Savepoint]
        ensures { result.now ≡ self.now.items }
    {
        self.rows.as_slice()
    }

    /// Takes room for one more savepoint, where there is none.
    pub fn reserve(&mut self) -> Result<(), NoMemory>
        ensures savepoints { self.new.items ≡ self.old.items }
        ensures ok { OnOk result (1 ≤ self.new.spare) }
        ensures kept { self.old.spare ≤ self.new.spare }
    {
        self.rows.reserve()
    }

    /// Puts the sheet of a key, and gives the one that it had.
    pub fn put(&mut self, key: Key, sheet: Sheet) -> Option<Sheet>
        requires room { place_of key self.old.items ≡ None → 0 < self.old.spare }
        ensures old { result ≡ found key self.old.items }
        ensures savepoints { self.new.items ≡ put key sheet self.old.items }
        ensures spare { self.old.spare ≤ self.new.spare + 1 }
    {
        match place_of(self.rows.as_slice(), &key) {
            Some(place) => Some(std::mem::replace(&mut self.rows.edit(place as u64).sheet, sheet)),
            None => {
                self.rows.push(Savepoint { key, sheet });
                None
            }
        }
    }

    /// Takes out each savepoint that stands on the instance with this number; the others stay in their order.
    pub fn remove_on(&mut self, number: u64)
        ensures savepoints { self.new.items ≡ removed_on number self.old.items }
        ensures spare { self.old.spare ≤ self.new.spare }
    {
        let mut place = 0;
        while place < self.rows.count() {
            if stands_on(self.rows.at(place), number) {
                self.rows.remove(place);
            } else {
                place += 1;
            }
        }
    }

    /// Takes out the savepoint of a key, and gives its sheet; the others stay in their order.
    pub fn remove(&mut self, key: &Key) -> Option<Sheet>
        ensures old { result ≡ found key.now self.old.items }
        ensures savepoints { self.new.items ≡ removed key.now self.old.items }
        ensures spare { self.old.spare ≤ self.new.spare }
    {
        match place_of(self.rows.as_slice(), key) {
            Some(place) => Some(self.rows.remove(place as u64).sheet),
            None => None,
        }
    }
}
