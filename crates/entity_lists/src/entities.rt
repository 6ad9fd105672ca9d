ghost use Rattle.std.specs.Prelude.{◌≡◌, IfOk, find, map};
ghost use Rattle.std.specs.Option.{option_copied};
ghost use Rattle.std.specs.Str.{bytes_eq};
ghost use Rattle.field_text.specs.Tables.{text_in};
ghost use Rattle.entity_lists.specs.EntityTables.{entity_cells, prop_cell, trunk_text};

use crate::versions::Version;
use field_text::{Items, NoMemory, Text, decimal_text};
use std::alloc::Global;

/// A property of an entity.
#[derive(Debug, Drop)]
pub struct Prop {
    pub name: Text,
    pub value: Text,
}

/// An entity as a device keeps it (ODK Entities).
#[derive(Debug, Drop)]
pub struct EntityRow {
    pub id: Text,
    pub label: Text,
    pub version: Version,
    /// The version that the server last gave.
    pub trunk: Option<Version>,
    /// The id of the branch of changes since then.
    pub branch: Text,
    /// Whether the server's list had the entity.
    pub online: bool,
    pub props: Items<Prop>,
}

/// An entity of a server's list.
#[derive(Debug, Drop)]
pub struct ServerRow {
    pub id: Text,
    pub label: Text,
    pub version: Version,
    pub props: Items<Prop>,
}

impl Prop {
    pub fn copy(&self, alloc: Global) -> Result<Prop, NoMemory>
        ensures { IfOk result (λ copy. copy ≡ self.now) }
    {
        Ok(Prop {
            name: self.name.copy(alloc)?,
            value: self.value.copy(alloc)?,
        })
    }

    /// A copy of some properties.
    pub fn copy_all(alloc: Global, props: &[Prop]) -> Result<Items<Prop>, NoMemory>
        ensures { IfOk result (λ copy. copy ≡ props.now) }
    {
        let mut copy = Vec::new(alloc);
        for prop in props {
            copy.push(prop.copy(alloc)?)?;
        }
        Ok(Items::from_vec(copy))
    }
}

impl EntityRow {
    pub fn copy(&self, alloc: Global) -> Result<EntityRow, NoMemory>
        ensures { IfOk result (λ copy. copy ≡ self.now) }
    {
        Ok(EntityRow {
            id: self.id.copy(alloc)?,
            label: self.label.copy(alloc)?,
            version: self.version,
            trunk: self.trunk,
            branch: self.branch.copy(alloc)?,
            online: self.online,
            props: Prop::copy_all(alloc, self.props.as_slice())?,
        })
    }

    /// A copy of some entities.
    pub fn copy_all(alloc: Global, rows: &[EntityRow]) -> Result<Items<EntityRow>, NoMemory>
        ensures { IfOk result (λ copy. copy ≡ rows.now) }
    {
        let mut copy = Vec::new(alloc);
        for row in rows {
            copy.push(row.copy(alloc)?)?;
        }
        Ok(Items::from_vec(copy))
    }

    /// The text of a column, empty where there is none.
    pub fn cell(&self, alloc: Global, column: &Text) -> Result<Text, NoMemory>
        ensures { IfOk result (λ text. text ≡ text_in (entity_cells self.now) column.now) }
    {
        let name = column.as_str();
        if name == "name" {
            self.id.copy(alloc)
        } else if name == "label" {
            self.label.copy(alloc)
        } else if name == "__version" {
            decimal_text(alloc, self.version.number())
        } else if name == "__trunkVersion" {
            self.trunk_text(alloc)
        } else if name == "__branchId" {
            self.branch.copy(alloc)
        } else {
            self.property(alloc, name.as_bytes())
        }
    }

    fn trunk_text(&self, alloc: Global) -> Result<Text, NoMemory>
        ensures { IfOk result (λ text. text ≡ trunk_text self.now.trunk) }
    {
        match self.trunk {
            Some(version) => decimal_text(alloc, version.number()),
            None => Ok(Text::from_string(String::new(alloc))),
        }
    }

    // The first property of a name.
    fn prop(&self, name: &[u8]) -> Option<&Prop>
        ensures { option_copied result ≡ find (λ p. bytes_eq p.name name.now) self.now.props }
    {
        self.props
            .as_slice()
            .iter()
            .find(|prop| prop.name.bytes() == name)
    }

    fn property(&self, alloc: Global, name: &[u8]) -> Result<Text, NoMemory>
        ensures { IfOk result (λ text. text ≡ text_in (map prop_cell self.now.props) name.now) }
    {
        match self.prop(name) {
            Some(prop) => prop.value.copy(alloc),
            None => Ok(Text::from_string(String::new(alloc))),
        }
    }
}
