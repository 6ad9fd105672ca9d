ghost use Rattle.std.specs.Prelude.{◌≡◌, [], IfOk, length, slice_get};
ghost use Rattle.std.specs.Option.{option_copied};
ghost use Rattle.entity_lists.specs.Entities.{IdsDiffer, entity_place};
ghost use Rattle.entity_lists.specs.Lists.{with_rows};

use crate::entities::EntityRow;
use field_text::{Items, NoMemory, Text};
use std::alloc::Global;
use std::marker::Model;

/// Entities in their order whose ids differ, which contracts see as a list. Places are counted from 0.
#[derive(Debug, Drop)]
pub struct Entities {
    rows: Items<EntityRow>,
}

impl Model for Entities {
    ghost use Rattle.std.specs.Prelude.{List};
    ghost use Rattle.entity_lists.specs.declared.entities.EntityRow.{EntityRow};
    ghost use Rattle.entity_lists.specs.Entities.{IdsDiffer};

    ghost Value = { List EntityRow };

    ghost view = { λ e. e.rows };

    ghost invariant = { λ e. IdsDiffer e.rows };
}

/// A list of entities.
#[derive(Debug, Drop)]
pub struct EntityList {
    pub name: Text,
    /// Where the server's list is.
    pub url: Option<Text>,
    pub rows: Entities,
}

fn copy_url(alloc: Global, url: &Option<Text>) -> Result<Option<Text>, NoMemory>
    ensures { IfOk result (λ copy. copy ≡ url.now) }
{
    match url {
        Some(url) => Ok(Some(url.copy(alloc)?)),
        None => Ok(None),
    }
}

impl Entities {
    pub fn new(alloc: Global) -> Entities
        ensures { result ≡ [] }
    {
        Entities {
            rows: Items::new(alloc),
        }
    }

    /// The entities in this order.
    pub fn from_items(rows: Items<EntityRow>) -> Entities
        requires { IdsDiffer rows }
        ensures { result ≡ rows }
    {
        Entities { rows }
    }

    pub fn copy(&self, alloc: Global) -> Result<Entities, NoMemory>
        ensures { IfOk result (λ copy. copy ≡ self.now) }
    {
        Ok(Entities {
            rows: EntityRow::copy_all(alloc, self.rows.as_slice())?,
        })
    }

    pub fn as_slice(&self) -> &[EntityRow]
        ensures rows { result.now ≡ self.now }
        ensures ids_differ { IdsDiffer self.now }
    {
        self.rows.as_slice()
    }

    pub fn count(&self) -> u64
        ensures { result ≡ length self.now }
    {
        self.rows.len() as u64
    }

    /// The entity at this place, if there is one.
    pub fn get(&self, place: u64) -> Option<&EntityRow>
        ensures { option_copied result ≡ slice_get self.now place }
    {
        self.rows.get(place as usize)
    }

    /// The place of the entity of this id.
    pub fn find(&self, id: &Text) -> Option<u64>
        ensures { result ≡ entity_place id.now self.now }
    {
        match place_of(self.rows.as_slice(), id) {
            Some(place) => Some(place as u64),
            None => None,
        }
    }
}

fn place_of(rows: &[EntityRow], id: &Text) -> Option<usize>
    ensures { result ≡ entity_place id.now rows.now }
{
    rows.iter().position(|row| row.id.bytes() == id.bytes())
}

impl EntityList {
    pub fn copy(&self, alloc: Global) -> Result<EntityList, NoMemory>
        ensures { IfOk result (λ copy. copy ≡ self.now) }
    {
        Ok(EntityList {
            name: self.name.copy(alloc)?,
            url: copy_url(alloc, &self.url)?,
            rows: self.rows.copy(alloc)?,
        })
    }

    /// A list of the same name and address that has other rows.
    pub fn with_rows(&self, alloc: Global, rows: Entities) -> Result<EntityList, NoMemory>
        ensures { IfOk result (λ list. list ≡ with_rows self.now rows) }
    {
        Ok(EntityList {
            name: self.name.copy(alloc)?,
            url: copy_url(alloc, &self.url)?,
            rows,
        })
    }
}
