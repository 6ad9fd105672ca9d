ghost use Rattle.std.specs.Prelude.{◌≡◌, length, slice_set, unwrap_or, IfOk, OnOk, OnErr};
ghost use Rattle.question_rules.specs.Fields.{text_at};
ghost use Rattle.question_rules.specs.Settled.{IsSettled};
ghost use Rattle.question_rules.specs.Along.{mark_at as mark_of, text_made, marks_with, texts_with, made_along};
ghost use Rattle.question_rules.specs.Along.{unmarked, settled};

use crate::marks::{mark_at, put_mark};
use crate::sheet::{Sheet, copy_texts};
use expr_values::{Row, Scope, evaluate};
use field_text::{NoMemory, Tables, Text};
use form_def::FormDef;
use std::alloc::Global;

/// The text that a field is calculated to, if it is calculated.
fn calculated<T: Tables>(
    alloc: Global,
    form: &FormDef,
    tables: &T,
    texts: &[Text],
    marks: &[bool],
    number: u64,
) -> Result<Option<Text>, NoMemory>
    ensures { IfOk result (λ text. unwrap_or text (text_at texts.now number)
        ≡ text_made form.now (T.tables tables.now) (λ field. field.calculate) texts.now marks.now number) }
{
    let Some(field) = form.fields.get(number as usize) else {
        return Ok(None);
    };
    let Some(expr) = &field.calculate else {
        return Ok(None);
    };
    let scope = Scope {
        form,
        texts,
        marks,
        tables,
        own: number,
    };
    let value = evaluate(alloc, &scope, &Row::Absent, expr)?;
    Ok(Some(value.calculated_text(alloc)?))
}

/// Stores the text of a field, where the form has one of this number.
pub fn put_text(texts: &mut [Text], number: u64, text: Text)
    ensures { texts.new ≡ slice_set texts.old number text }
{
    if (number as usize) < texts.len() {
        texts[number as usize] = text;
    }
}

/// Stores the text of a field, if there is one.
fn put_calculated(texts: &mut [Text], number: u64, text: Option<Text>)
    ensures { texts.new ≡ slice_set texts.old number (unwrap_or text (text_at texts.old number)) }
{
    if let Some(text) = text {
        put_text(texts, number, text);
    }
}

fn settle_field<T: Tables>(
    alloc: Global,
    form: &FormDef,
    tables: &T,
    texts: &mut Vec<Text>,
    marks: &mut Vec<bool>,
    number: u64,
) -> Result<(), NoMemory>
    ensures marks { OnOk result (marks.new.items
        ≡ marks_with form.now (T.tables tables.now) texts.old.items marks.old.items number) }
    ensures texts { OnOk result (texts.new.items
        ≡ texts_with form.now (T.tables tables.now) (λ field. field.calculate) texts.old.items
        (marks_with form.now (T.tables tables.now) texts.old.items marks.old.items number) number) }
{
    let mark = mark_at(
        alloc,
        form,
        tables,
        texts.as_slice(),
        marks.as_slice(),
        number,
    )?;
    put_mark(marks, number, mark);
    let text = calculated(
        alloc,
        form,
        tables,
        texts.as_slice(),
        marks.as_slice(),
        number,
    )?;
    put_calculated(texts, number, text);
    Ok(())
}

/// These texts once they are settled.
pub fn settled_texts<T: Tables>(
    alloc: Global,
    form: &FormDef,
    tables: &T,
    mut texts: Vec<Text>,
) -> Result<Vec<Text>, NoMemory>
    ensures { IfOk result (λ after. after.items ≡ (settled form.now (T.tables tables.now) texts.items).texts) }
{
    let mut marks = vec![in alloc; false; form.fields.len()]?;
    let mut rest = form.order.as_slice();
    while let Some((number, others)) = rest.split_first() {
        settle_field(alloc, form, tables, &mut texts, &mut marks, *number)?;
        rest = others;
    }
    Ok(texts)
}

/// Gives every calculated field its value.
pub fn settle<T: Tables>(
    alloc: Global,
    form: &FormDef,
    sheet: &mut Sheet,
    tables: &T,
) -> Result<(), NoMemory>
    requires { length sheet.old ≡ length form.now.fields }
    ensures settled { OnOk result (IsSettled form.now (T.tables tables.now) sheet.old sheet.new) }
    ensures texts { OnOk result (sheet.new ≡ (settled form.now (T.tables tables.now) sheet.old).texts) }
    ensures unchanged { OnErr result (sheet.new ≡ sheet.old) }
{
    let texts = settled_texts(alloc, form, tables, copy_texts(alloc, sheet.texts())?)?;
    *sheet = Sheet::from_texts(texts);
    Ok(())
}
