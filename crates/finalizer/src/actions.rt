ghost use Rattle.std.specs.Prelude.{◌≡◌, [], find, IfOk};
ghost use Rattle.std.specs.List.{slice_index_or};
ghost use Rattle.std.specs.Option.{option_copied};
ghost use Rattle.std.specs.Str.{bytes_eq};
ghost use Rattle.finalizer.specs.Actions.{action_of, creation, has_entity, saved, saved_from};
ghost use Rattle.finalizer.specs.EntityParts.{is_asked};
ghost use Rattle.finalizer.specs.declared.entity_parts.Part.TheVariants.{Create, Update};

use crate::entity_parts::{Part, entity_id, entity_label, is_asked};
use entity_lists::{EntityList, EntityLists, Prop};
use entity_merge::Action;
use field_text::{Items, NoMemory, Text};
use form_def::{Field, FormDef, is_marked};
use std::alloc::Global;

fn named<'a>(lists: &'a [EntityList], name: &Text) -> Option<&'a EntityList>
    ensures { option_copied result ≡ find (λ list. bytes_eq list.name name.now) lists.now }
{
    lists.iter().find(|list| list.name.bytes() == name.bytes())
}

fn has_entity(lists: &EntityLists, name: &Text, id: &Text) -> bool
    ensures { result ≡ has_entity lists.now.items name.now id.now }
{
    match named(lists.as_slice(), name) {
        Some(list) => list.rows.find(id).is_some(),
        None => false,
    }
}

// Whether the entity is made, or else updated.
fn creation(
    alloc: Global,
    form: &FormDef,
    texts: &[Text],
    there: bool,
) -> Result<Option<bool>, NoMemory>
    ensures { IfOk result (λ create. create
        ≡ creation (is_asked form.now texts.now Create) (is_asked form.now texts.now Update) there) }
{
    if is_asked(alloc, form, texts, Part::Create)? && !there {
        return Ok(Some(true));
    }
    if is_asked(alloc, form, texts, Part::Update)? && there {
        return Ok(Some(false));
    }
    Ok(None)
}

fn text_at(alloc: Global, texts: &[Text], number: u64) -> Result<Text, NoMemory>
    ensures { IfOk result (λ text. text ≡ slice_index_or texts.now number []) }
{
    match texts.get(number as usize) {
        Some(text) => text.copy(alloc),
        None => Ok(Text::from_string(String::new(alloc))),
    }
}

// The property that a field is saved to, if it is shown and saved to one.
fn saved(
    alloc: Global,
    texts: &[Text],
    marks: &[bool],
    number: u64,
    field: &Field,
) -> Result<Option<Prop>, NoMemory>
    ensures { IfOk result (λ prop. prop ≡ saved texts.now marks.now number field.now) }
{
    if !is_marked(marks, number) {
        return Ok(None);
    }
    let Some(name) = &field.saveto else {
        return Ok(None);
    };
    Ok(Some(Prop {
        name: name.copy(alloc)?,
        value: text_at(alloc, texts, number)?,
    }))
}

// The properties that the shown fields are saved to.
fn saved_from(
    alloc: Global,
    texts: &[Text],
    marks: &[bool],
    fields: &[Field],
) -> Result<Items<Prop>, NoMemory>
    ensures { IfOk result (λ props. props ≡ saved_from texts.now marks.now 0 fields.now) }
{
    let mut props = Items::new(alloc);
    let mut number = 0;
    let mut rest = fields;
    while let Some((field, others)) = rest.split_first() {
        if let Some(prop) = saved(alloc, texts, marks, number, field)? {
            props.push(prop)?;
        }
        number += 1;
        rest = others;
    }
    Ok(props)
}

/// What an instance with these texts, of which the marked ones are shown, does to an entity list.
pub(crate) fn action_of(
    alloc: Global,
    form: &FormDef,
    lists: &EntityLists,
    texts: &[Text],
    marks: &[bool],
) -> Result<Option<Action>, NoMemory>
    ensures { IfOk result (λ action. action ≡ action_of form.now lists.now.items texts.now marks.now) }
{
    let Some(entity) = &form.entity else {
        return Ok(None);
    };
    let Some(id) = entity_id(alloc, form, texts)? else {
        return Ok(None);
    };
    let there = has_entity(lists, &entity.dataset, id);
    let Some(create) = creation(alloc, form, texts, there)? else {
        return Ok(None);
    };
    Ok(Some(Action {
        create,
        list: entity.dataset.copy(alloc)?,
        id: id.copy(alloc)?,
        label: entity_label(alloc, form, texts)?,
        props: saved_from(alloc, texts, marks, form.fields.as_slice())?,
    }))
}
