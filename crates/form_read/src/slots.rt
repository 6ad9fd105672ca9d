ghost use Rattle.std.specs.Prelude.{◌≡◌, ◌++◌, [], ◌∷◌, false, IfOk, OnOk};
ghost use Rattle.std.specs.List.{flat_map};
ghost use Rattle.form_read.specs.Slots.{outside_meta, inside_meta, is_entity, meta_slots, slots_of, slot_of};

use field_text::{Items, NoMemory};
use form_outline::{PrimaryField, PrimaryPart};
use std::alloc::Global;

fn copy_of(alloc: Global, field: &PrimaryField) -> Result<PrimaryField, NoMemory>
    ensures { IfOk result (λ copy. copy ≡ field.now) }
{
    Ok(PrimaryField {
        path: field.path.copy(alloc)?,
        initial: field.initial.copy(alloc)?,
        is_group: field.is_group,
    })
}

fn push_copies(
    alloc: Global,
    fields: &[PrimaryField],
    slots: &mut Items<PrimaryField>,
) -> Result<(), NoMemory>
    ensures { OnOk result (slots.new ≡ slots.old ++ fields.now) }
{
    for field in fields {
        slots.push(copy_of(alloc, field)?)?;
    }
    Ok(())
}

/// Appends the field that a part is outside `meta`.
fn push_outside_meta(
    alloc: Global,
    part: &PrimaryPart,
    slots: &mut Items<PrimaryField>,
) -> Result<(), NoMemory>
    ensures { OnOk result (slots.new ≡ slots.old ++ outside_meta part.now) }
{
    match part {
        PrimaryPart::Field(field) => Ok(slots.push(copy_of(alloc, field)?)?),
        PrimaryPart::Meta(_) | PrimaryPart::Entity(_) => Ok(()),
    }
}

fn push_all_outside_meta(
    alloc: Global,
    parts: &[PrimaryPart],
    slots: &mut Items<PrimaryField>,
) -> Result<(), NoMemory>
    ensures { OnOk result (slots.new ≡ slots.old ++ flat_map outside_meta parts.now) }
{
    for part in parts {
        push_outside_meta(alloc, part, slots)?;
    }
    Ok(())
}

/// Appends the fields that a part gives inside `meta`.
fn push_inside_meta(
    alloc: Global,
    has_entity: bool,
    part: &PrimaryPart,
    slots: &mut Items<PrimaryField>,
) -> Result<(), NoMemory>
    ensures { OnOk result (slots.new ≡ slots.old ++ inside_meta has_entity part.now) }
{
    match part {
        PrimaryPart::Field(_) => Ok(()),
        PrimaryPart::Meta(field) => Ok(slots.push(copy_of(alloc, field)?)?),
        PrimaryPart::Entity(entity) => {
            if has_entity {
                return Ok(());
            }
            push_copies(alloc, entity.fields.as_slice(), slots)
        }
    }
}

fn is_entity(part: &PrimaryPart) -> bool
    ensures { result ≡ is_entity part.now }
{
    match part {
        PrimaryPart::Field(_) | PrimaryPart::Meta(_) => false,
        PrimaryPart::Entity(_) => true,
    }
}

fn push_meta(
    alloc: Global,
    parts: &[PrimaryPart],
    slots: &mut Items<PrimaryField>,
) -> Result<(), NoMemory>
    ensures { OnOk result (slots.new ≡ slots.old ++ meta_slots false parts.now) }
{
    let mut has_entity = false;
    let mut rest = parts;
    while let Some((part, others)) = rest.split_first() {
        push_inside_meta(alloc, has_entity, part, slots)?;
        has_entity = has_entity || is_entity(part);
        rest = others;
    }
    Ok(())
}

/// The fields that a form has, by number.
pub fn slots_of(alloc: Global, parts: &[PrimaryPart]) -> Result<Items<PrimaryField>, NoMemory>
    ensures { IfOk result (λ slots. slots ≡ slots_of parts.now) }
{
    let mut slots = Items::new(alloc);
    push_all_outside_meta(alloc, parts, &mut slots)?;
    push_meta(alloc, parts, &mut slots)?;
    Ok(slots)
}

/// The number of the field of a path.
pub fn slot_of(slots: &[PrimaryField], path: &[u8]) -> Option<usize>
    ensures { result ≡ slot_of slots.now path.now }
{
    slots.iter().position(|slot| slot.path.bytes() == path)
}
