ghost use Rattle.std.specs.Prelude.{All, ◌≡◌, [], ◌∷◌, ◌++◌, ◌+◌, ◌<◌, ◌≤◌, length, remove, slice_get, Some, OnOk};
ghost use Rattle.std.specs.Prelude.{option_map, slice_set};
ghost use Rattle.field_rows.specs.Edited.{edited};
ghost use Rattle.instance_store.specs.Instances.{has_number, instance_limit, place_of, with_status, with_tried};

use crate::{InstanceRec, Status};
use field_rows::Rows;
use field_text::NoMemory;
use std::alloc::Global;
use std::marker::Model;

/// How many instances a store keeps.
pub const INSTANCE_LIMIT: u64 = 10_000;

/// The instances that a device keeps, in the order of their numbers, with room for some more. Places are counted from
/// 0.
#[derive(Debug, Drop)]
pub struct InstanceStore {
    rows: Rows<InstanceRec>,
}

impl Model for InstanceStore {
    ghost use Rattle.field_rows.specs.Kept.{Kept};
    ghost use Rattle.instance_store.specs.declared.records.InstanceRec.{InstanceRec};

    ghost Value = { Kept InstanceRec };

    ghost view = { λ s. s.rows };
}

fn place_of(records: &[InstanceRec], number: u64) -> Option<usize>
    ensures { result ≡ place_of number records.now }
{
    records.iter().position(|kept| kept.number == number)
}

impl InstanceStore {
    /// No instances, and no room.
    pub fn make(alloc: Global) -> InstanceStore
        ensures records { result.items ≡ [] }
        ensures spare { result.spare ≡ 0 }
    {
        InstanceStore {
            rows: Rows::make(alloc),
        }
    }

    pub fn as_slice(&self) -> &[InstanceRec]
        ensures { result.now ≡ self.now.items }
    {
        self.rows.as_slice()
    }

    /// The place of the instance with this number.
    pub fn place_of(&self, number: u64) -> Option<u64>
        ensures { result ≡ place_of number self.now.items }
    {
        match place_of(self.rows.as_slice(), number) {
            Some(place) => Some(place as u64),
            None => None,
        }
    }

    /// Takes room for one more instance, where there is none.
    pub fn reserve(&mut self) -> Result<(), NoMemory>
        ensures records { self.new.items ≡ self.old.items }
        ensures ok { OnOk result (1 ≤ self.new.spare) }
        ensures kept { self.old.spare ≤ self.new.spare }
    {
        self.rows.reserve()
    }

    /// Adds an instance behind the others.
    pub fn add(&mut self, item: InstanceRec)
        requires room { 0 < self.old.spare }
        requires limit { length self.old.items < instance_limit }
        requires greatest { All (λ kept. kept.number < item.number) self.old.items }
        ensures records { self.new.items ≡ self.old.items ++ item ∷ [] }
        ensures spare { self.new.spare + 1 ≡ self.old.spare }
    {
        self.rows.push(item);
    }

    /// Puts a record with the same number in the place of one, and gives that one.
    pub fn replace(&mut self, place: u64, item: InstanceRec) -> InstanceRec
        requires number { option_map (λ kept. kept.number) (slice_get self.old.items place) ≡ Some item.number }
        requires within { place < length self.old.items }
        ensures taken { slice_get self.old.items place ≡ Some result }
        ensures records { self.new.items ≡ slice_set self.old.items place item }
        ensures spare { self.new.spare ≡ self.old.spare }
    {
        std::mem::replace(self.rows.edit(place), item)
    }

    pub fn set_status(&mut self, place: u64, status: Status)
        requires { place < length self.old.items }
        ensures records { self.new.items ≡ edited (with_status status) place self.old.items }
        ensures spare { self.new.spare ≡ self.old.spare }
    {
        self.rows.edit(place).status = status;
    }

    /// Notes the position of the entry that sent the instance last.
    pub fn set_tried(&mut self, place: u64, position: u64)
        requires { place < length self.old.items }
        ensures records { self.new.items ≡ edited (with_tried position) place self.old.items }
        ensures spare { self.new.spare ≡ self.old.spare }
    {
        self.rows.edit(place).tried = position;
    }

    /// Takes out the record at this place; the others stay in their order.
    pub fn remove(&mut self, place: u64) -> InstanceRec
        requires { place < length self.old.items }
        ensures taken { slice_get self.old.items place ≡ Some result }
        ensures records { self.new.items ≡ remove self.old.items place }
        ensures spare { self.old.spare ≤ self.new.spare }
    {
        self.rows.remove(place)
    }
}
