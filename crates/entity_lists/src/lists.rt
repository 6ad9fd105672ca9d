ghost use Rattle.std.specs.Prelude.{◌≡◌, [], ◌∷◌, ◌++◌, ◌+◌, ◌<◌, ◌≤◌, find, length, slice_get, slice_set};
ghost use Rattle.std.specs.Prelude.{Some, None, IfOk, IfSome, OnOk};
ghost use Rattle.std.specs.Option.{option_copied};
ghost use Rattle.std.specs.Str.{bytes_eq};
ghost use Rattle.entity_lists.specs.Lists.{NamesDiffer, list_place, put, with_url_at};

use crate::entity_list::EntityList;
use field_rows::Rows;
use field_text::{NoMemory, Tables, Text};
use std::alloc::Global;
use std::marker::Model;

/// The entity lists of a device, whose names differ, as a list with room for some more. Places are counted from 0.
#[derive(Debug, Drop)]
pub struct EntityLists {
    lists: Rows<EntityList>,
}

impl Model for EntityLists {
    ghost use Rattle.field_rows.specs.Kept.{Kept};
    ghost use Rattle.entity_lists.specs.declared.entity_list.EntityList.{EntityList};
    ghost use Rattle.entity_lists.specs.Lists.{NamesDiffer};

    ghost Value = { Kept EntityList };

    ghost view = { λ s. s.lists };

    ghost invariant = { λ s. NamesDiffer s.lists.items };
}

fn place_of(lists: &[EntityList], name: &Text) -> Option<usize>
    ensures { result ≡ list_place name.now lists.now }
{
    lists
        .iter()
        .position(|list| list.name.bytes() == name.bytes())
}

fn copy_lists(alloc: Global, lists: &[EntityList]) -> Result<Rows<EntityList>, NoMemory>
    ensures { IfOk result (λ copy. copy.items ≡ lists.now) }
{
    let mut copy = Rows::make(alloc);
    for list in lists {
        copy.reserve()?;
        copy.push(list.copy(alloc)?);
    }
    Ok(copy)
}

impl EntityLists {
    /// No lists, and no room.
    pub fn make(alloc: Global) -> EntityLists
        ensures lists { result.items ≡ [] }
        ensures spare { result.spare ≡ 0 }
    {
        EntityLists {
            lists: Rows::make(alloc),
        }
    }

    /// Takes room for one more list, where there is none.
    pub fn reserve(&mut self) -> Result<(), NoMemory>
        ensures lists { self.new.items ≡ self.old.items }
        ensures ok { OnOk result (1 ≤ self.new.spare) }
        ensures kept { self.old.spare ≤ self.new.spare }
    {
        self.lists.reserve()
    }

    pub fn copy(&self, alloc: Global) -> Result<EntityLists, NoMemory>
        ensures { IfOk result (λ copy. copy.items ≡ self.now.items) }
    {
        let lists = copy_lists(alloc, self.lists.as_slice())?;
        Ok(EntityLists { lists })
    }

    pub fn count(&self) -> u64
        ensures { result ≡ length self.now.items }
    {
        self.lists.count()
    }

    pub fn as_slice(&self) -> &[EntityList]
        ensures lists { result.now ≡ self.now.items }
        ensures names_differ { NamesDiffer self.now.items }
    {
        self.lists.as_slice()
    }

    /// The list at this place.
    pub fn get(&self, place: u64) -> &EntityList
        requires { place < length self.now.items }
        ensures { slice_get self.now.items place ≡ Some result.now }
    {
        self.lists.at(place)
    }

    /// The place of the list of this name.
    pub fn find(&self, name: &Text) -> Option<u64>
        ensures { result ≡ list_place name.now self.now.items }
    {
        match place_of(self.lists.as_slice(), name) {
            Some(place) => Some(place as u64),
            None => None,
        }
    }

    // The list of a name.
    fn named(&self, name: &Text) -> Option<&EntityList>
        ensures { option_copied result ≡ find (λ l. bytes_eq l.name name.now) self.now.items }
    {
        self.lists
            .as_slice()
            .iter()
            .find(|list| list.name.bytes() == name.bytes())
    }

    /// Puts a list behind the others, none of which has its name.
    pub fn push(&mut self, list: EntityList)
        requires new { list_place list.name self.old.items ≡ None }
        requires room { 0 < self.old.spare }
        ensures lists { self.new.items ≡ self.old.items ++ list ∷ [] }
        ensures spare { self.new.spare + 1 ≡ self.old.spare }
    {
        self.lists.push(list);
    }

    /// Puts a list in the place of one of the same name.
    pub fn replace(&mut self, place: u64, list: EntityList)
        requires within { place < length self.old.items }
        requires same_name { IfSome (slice_get self.old.items place) (λ old. old.name ≡ list.name) }
        ensures lists { self.new.items ≡ slice_set self.old.items place list }
        ensures spare { self.new.spare ≡ self.old.spare }
    {
        *self.lists.edit(place) = list;
    }

    /// Puts a list in the place of the one of its name, or else behind the others.
    pub fn put(&mut self, list: EntityList)
        requires room { list_place list.name self.old.items ≡ None → 0 < self.old.spare }
        ensures lists { self.new.items ≡ put list self.old.items }
        ensures spare { self.old.spare ≤ self.new.spare + 1 }
    {
        match self.find(&list.name) {
            Some(place) => self.replace(place, list),
            None => self.push(list),
        }
    }

    /// Sets the address of the list at this place.
    pub fn set_url(&mut self, place: u64, url: Option<Text>)
        requires { place < length self.old.items }
        ensures lists { self.new.items ≡ with_url_at url place self.old.items }
        ensures spare { self.new.spare ≡ self.old.spare }
    {
        self.lists.edit(place).url = url;
    }
}

impl Tables for EntityLists {
    ghost use Rattle.entity_lists.specs.EntityTables.{tables_of};

    ghost tables = { λ lists. tables_of lists.items };

    fn rows(&self, list: &Text) -> u64 {
        match self.named(list) {
            Some(list) => list.rows.count(),
            None => 0,
        }
    }

    fn cell(&self, alloc: Global, list: &Text, row: u64, column: &Text) -> Result<Text, NoMemory> {
        let Some(list) = self.named(list) else {
            return Ok(Text::from_string(String::new(alloc)));
        };
        match list.rows.get(row) {
            Some(row) => row.cell(alloc, column),
            None => Ok(Text::from_string(String::new(alloc))),
        }
    }
}
