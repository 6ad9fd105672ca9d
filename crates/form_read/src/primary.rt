ghost use Rattle.std.specs.Prelude.{◌≡◌, IfOk};
ghost use Rattle.form_read.specs.Refusals.{Gives};
ghost use Rattle.form_read.specs.Primary.{has_path, path_taken, paths_taken, entity_path, is_no_entity, field_taken};
ghost use Rattle.form_read.specs.Primary.{entity_taken, part_taken, parts_taken, nothing_seen};

use crate::FormRefused;
use field_text::{Items, NoMemory, Text};
use form_outline::{EntityPart, PrimaryField, PrimaryPart};
use std::alloc::Global;

/// What was seen of a primary instance.
#[derive(Debug, Drop)]
pub struct Seen {
    pub paths: Items<Text>,
    pub has_entity: bool,
}

fn has_path(paths: &[Text], path: &Text) -> bool
    ensures { result ≡ has_path paths.now path.now }
{
    paths.iter().any(|other| other.bytes() == path.bytes())
}

/// The paths with this one, which must be new.
fn path_taken(alloc: Global, paths: Items<Text>, path: &Text) -> Result<Items<Text>, FormRefused>
    ensures { Gives (λ x. x) result (path_taken paths path.now) }
{
    let path_again = path.copy(alloc)?;
    if has_path(paths.as_slice(), path) {
        return Err(FormRefused::UnknownPath { path: path_again });
    }
    let mut more = paths;
    more.push(path_again)?;
    Ok(more)
}

fn paths_taken(
    alloc: Global,
    paths: Items<Text>,
    fields: &[PrimaryField],
) -> Result<Items<Text>, FormRefused>
    ensures { Gives (λ x. x) result (paths_taken paths fields.now) }
{
    let mut more = paths;
    let mut rest = fields;
    while let Some((field, others)) = rest.split_first() {
        more = path_taken(alloc, more, &field.path)?;
        rest = others;
    }
    Ok(more)
}

/// The path of the entity below this root.
pub fn entity_path(alloc: Global, root: &Text) -> Result<Text, NoMemory>
    ensures { IfOk result (λ path. path ≡ entity_path root.now) }
{
    let mut path = String::from_str(alloc, "/")?;
    path.push_str(root.as_str())?;
    path.push_str("/meta/entity")?;
    Ok(Text::from_string(path))
}

fn is_no_entity(has_entity: bool, dataset: &Option<Text>) -> bool
    ensures { result ≡ is_no_entity has_entity dataset.now }
{
    match dataset {
        Some(_) => has_entity,
        None => true,
    }
}

fn field_taken(alloc: Global, seen: Seen, field: &PrimaryField) -> Result<Seen, FormRefused>
    ensures { Gives (λ x. x) result (field_taken seen field.now) }
{
    let Seen { paths, has_entity } = seen;
    let paths = path_taken(alloc, paths, &field.path)?;
    Ok(Seen { paths, has_entity })
}

fn entity_taken(
    alloc: Global,
    root: &Text,
    seen: Seen,
    entity: &EntityPart,
) -> Result<Seen, FormRefused>
    ensures { Gives (λ x. x) result (entity_taken root.now seen entity.now) }
{
    let Seen { paths, has_entity } = seen;
    if is_no_entity(has_entity, &entity.dataset) {
        return Err(FormRefused::BadEntity {
            path: entity_path(alloc, root)?,
        });
    }
    let paths = paths_taken(alloc, paths, entity.fields.as_slice())?;
    Ok(Seen {
        paths,
        has_entity: true,
    })
}

fn part_taken(
    alloc: Global,
    root: &Text,
    seen: Seen,
    part: &PrimaryPart,
) -> Result<Seen, FormRefused>
    ensures { Gives (λ x. x) result (part_taken root.now seen part.now) }
{
    match part {
        PrimaryPart::Field(field) | PrimaryPart::Meta(field) => field_taken(alloc, seen, field),
        PrimaryPart::Entity(entity) => entity_taken(alloc, root, seen, entity),
    }
}

/// What is seen of a primary instance with these parts.
pub fn parts_taken(alloc: Global, root: &Text, parts: &[PrimaryPart]) -> Result<Seen, FormRefused>
    ensures { Gives (λ x. x) result (parts_taken root.now nothing_seen parts.now) }
{
    let mut seen = Seen {
        paths: Items::new(alloc),
        has_entity: false,
    };
    let mut rest = parts;
    while let Some((part, others)) = rest.split_first() {
        seen = part_taken(alloc, root, seen, part)?;
        rest = others;
    }
    Ok(seen)
}
