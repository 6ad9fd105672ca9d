ghost use Rattle.std.specs.Prelude.{◌≡◌, [], IfOk};
ghost use Rattle.std.specs.List.{slice_index_or};
ghost use Rattle.kept_forms.specs.KeptForms.{is_group, line_of, lines_from, lines_in};

use crate::sheets::fits_form;
use field_text::{Items, NoMemory, Tables, Text};
use form_def::{Field, FormDef, Kind, is_marked};
use question_rules::{Sheet, shown_marks};
use std::alloc::Global;

/// A field of an entry, as it is shown.
#[derive(Debug, Drop)]
pub struct FieldLine {
    pub path: Text,
    /// The sheet's text, whether the field is shown or not.
    pub value: Text,
    /// Whether the field is relevant.
    pub shown: bool,
}

fn is_group(kind: Kind) -> bool
    ensures { result ≡ is_group kind }
{
    matches!(kind, Kind::Group)
}

/// The text of the field of a number, empty where there is none.
fn text_at(alloc: Global, texts: &[Text], number: u64) -> Result<Text, NoMemory>
    ensures { IfOk result (λ text. text ≡ slice_index_or texts.now number []) }
{
    match texts.get(number as usize) {
        Some(text) => text.copy(alloc),
        None => Ok(Text::from_string(String::new(alloc))),
    }
}

/// The line of the field of a number.
fn line_of(
    alloc: Global,
    texts: &[Text],
    marks: &[bool],
    number: u64,
    field: &Field,
) -> Result<FieldLine, NoMemory>
    ensures { IfOk result (λ line. line ≡ line_of texts.now marks.now number field.now) }
{
    Ok(FieldLine {
        path: field.path.copy(alloc)?,
        value: text_at(alloc, texts, number)?,
        shown: is_marked(marks, number),
    })
}

/// The lines of a form's fields.
fn lines_from(
    alloc: Global,
    texts: &[Text],
    marks: &[bool],
    fields: &[Field],
) -> Result<Items<FieldLine>, NoMemory>
    ensures { IfOk result (λ lines. lines ≡ lines_from texts.now marks.now 0 fields.now) }
{
    let mut lines = Items::new(alloc);
    let mut number = 0;
    let mut rest = fields;
    while let Some((field, others)) = rest.split_first() {
        if !is_group(field.kind) {
            lines.push(line_of(alloc, texts, marks, number, field)?)?;
        }
        number += 1;
        rest = others;
    }
    Ok(lines)
}

/// The lines of a sheet that fits a form; another has none.
pub fn lines_in<T: Tables>(
    alloc: Global,
    tables: &T,
    sheet: &Sheet,
    form: &FormDef,
) -> Result<Items<FieldLine>, NoMemory>
    ensures { IfOk result (λ lines. lines ≡ lines_in (T.tables tables.now) sheet.now form.now) }
{
    if !fits_form(form, sheet) {
        return Ok(Items::new(alloc));
    }
    let marks = shown_marks(alloc, form, sheet, tables)?;
    lines_from(
        alloc,
        sheet.texts(),
        marks.as_slice(),
        form.fields.as_slice(),
    )
}
