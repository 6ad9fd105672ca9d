ghost use Rattle.std.specs.Prelude.{◌≡◌, ◌<◌, length, option_map, IfOk, IfSome};
ghost use Rattle.form_def.specs.Fields.{number_of};
ghost use Rattle.instance_doc.specs.Rows.{meta_path};
ghost use Rattle.finalizer.specs.EntityParts.{entity_id, entity_label, id_to_draw, if_empty, is_asked, is_yes};
ghost use Rattle.finalizer.specs.EntityParts.{part_number, part_text, path_of, undrawn};

use field_text::{NoMemory, Text};
use form_def::{EntityDef, Field, FormDef};
use std::alloc::Global;

/// A part of the entity in a form's `meta`.
#[derive(Clone, Copy, Debug, PartialEq, Eq)]
pub(crate) enum Part {
    Id,
    Create,
    Update,
    Label,
}

impl Part {
    // Its path in `meta`.
    fn path(self) -> &'static str
        ensures { result.now ≡ path_of self }
    {
        match self {
            Part::Id => "entity/@id",
            Part::Create => "entity/@create",
            Part::Update => "entity/@update",
            Part::Label => "entity/label",
        }
    }
}

// The path of what has this path in `meta`.
fn meta_path(alloc: Global, root: &Text, path: &str) -> Result<Text, NoMemory>
    ensures { IfOk result (λ whole. whole ≡ meta_path root.now path.now) }
{
    let mut whole = String::from_str(alloc, "/")?;
    whole.push_str(root.as_str())?;
    whole.push_str("/meta/")?;
    whole.push_str(path)?;
    Ok(Text::from_string(whole))
}

fn place_of(fields: &[Field], path: &Text) -> Option<usize>
    ensures { result ≡ number_of fields.now path.now }
{
    fields
        .iter()
        .position(|field| field.path.bytes() == path.bytes())
}

fn part_number(alloc: Global, form: &FormDef, part: Part) -> Result<Option<u64>, NoMemory>
    ensures { IfOk result (λ number. number ≡ part_number form.now part) }
{
    let path = meta_path(alloc, &form.root, part.path())?;
    match place_of(form.fields.as_slice(), &path) {
        Some(place) => Ok(Some(place as u64)),
        None => Ok(None),
    }
}

fn part_text<'a>(
    alloc: Global,
    form: &FormDef,
    texts: &'a [Text],
    part: Part,
) -> Result<Option<&'a Text>, NoMemory>
    ensures { IfOk result (λ text. option_map (λ t. t.now) text ≡ part_text form.now texts.now part) }
{
    match part_number(alloc, form, part)? {
        Some(number) => Ok(texts.get(number as usize)),
        None => Ok(None),
    }
}

fn is_yes(text: &Text) -> bool
    ensures { result ≡ is_yes text.now }
{
    text.as_str() == "1" || text.as_str() == "true"
}

/// Whether an attribute asks for something.
pub(crate) fn is_asked(
    alloc: Global,
    form: &FormDef,
    texts: &[Text],
    part: Part,
) -> Result<bool, NoMemory>
    ensures { IfOk result (λ asked. asked ≡ is_asked form.now texts.now part) }
{
    match part_text(alloc, form, texts, part)? {
        Some(text) => Ok(is_yes(text)),
        None => Ok(false),
    }
}

/// The entity's id, if it has one.
pub(crate) fn entity_id<'a>(
    alloc: Global,
    form: &FormDef,
    texts: &'a [Text],
) -> Result<Option<&'a Text>, NoMemory>
    ensures { IfOk result (λ id. option_map (λ t. t.now) id ≡ entity_id form.now texts.now) }
{
    match part_text(alloc, form, texts, Part::Id)? {
        Some(text) if !text.bytes().is_empty() => Ok(Some(text)),
        Some(_) | None => Ok(None),
    }
}

/// The entity's label, empty where the form has none.
pub(crate) fn entity_label(alloc: Global, form: &FormDef, texts: &[Text]) -> Result<Text, NoMemory>
    ensures { IfOk result (λ label. label ≡ entity_label form.now texts.now) }
{
    match part_text(alloc, form, texts, Part::Label)? {
        Some(text) => text.copy(alloc),
        None => Ok(Text::from_string(String::new(alloc))),
    }
}

// The number, if the field of it has an empty text.
fn if_empty(texts: &[Text], number: u64) -> Option<u64>
    ensures empty { result ≡ if_empty texts.now number }
    ensures within { IfSome result (λ number. number < length texts.now) }
{
    match texts.get(number as usize) {
        Some(text) if text.bytes().is_empty() => Some(number),
        Some(_) | None => None,
    }
}

fn id_to_draw(alloc: Global, form: &FormDef, entity: &EntityDef) -> Result<Option<u64>, NoMemory>
    ensures { IfOk result (λ number. number ≡ id_to_draw form.now entity.now) }
{
    if entity.draws_id {
        part_number(alloc, form, Part::Id)
    } else {
        Ok(None)
    }
}

/// The number of the field that gets a drawn id: the entity's, where the form asks for one and the texts have none.
pub(crate) fn undrawn(
    alloc: Global,
    form: &FormDef,
    texts: &[Text],
) -> Result<Option<u64>, NoMemory>
    ensures number { IfOk result (λ number. number ≡ undrawn form.now texts.now) }
    ensures within { IfOk result (λ number. IfSome number (λ n. n < length texts.now)) }
{
    let Some(entity) = &form.entity else {
        return Ok(None);
    };
    match id_to_draw(alloc, form, entity)? {
        Some(number) => Ok(if_empty(texts, number)),
        None => Ok(None),
    }
}
