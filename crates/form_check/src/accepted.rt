// What is told of a form: its id and version, and a line for each field.
ghost use Rattle.std.specs.Prelude.{◌≡◌, ◌++◌, IfOk, OnOk};
ghost use Rattle.form_check.specs.Accepted.{choices_words, field_line, flags, form_text, head_line, kind_word};
ghost use Rattle.form_check.specs.Accepted.{value_words, word_if};

use collect_text::print_text;
use field_text::{NoMemory, Text};
use form_def::{Choices, Field, FormDef, Kind};
use std::alloc::Global;

fn kind_word(kind: Kind) -> &'static str
    ensures { result.now ≡ kind_word kind }
{
    match kind {
        Kind::Words => " text",
        Kind::Whole => " whole",
        Kind::One => " one",
        Kind::Many => " many",
        Kind::Group => " group",
        Kind::Plain => " plain",
    }
}

fn push_word_if(is_there: bool, word: &'static str, out: &mut Vec<u8>) -> Result<(), NoMemory>
    ensures { OnOk result (out.new.items ≡ out.old.items ++ word_if is_there word.now) }
{
    if is_there {
        out.extend_from_slice(word.as_bytes())?;
    }
    Ok(())
}

fn push_flags(field: &Field, out: &mut Vec<u8>) -> Result<(), NoMemory>
    ensures { OnOk result (out.new.items ≡ out.old.items ++ flags field.now) }
{
    push_word_if(field.relevant.is_some(), " relevant", out)?;
    push_word_if(field.required.is_some(), " required", out)?;
    push_word_if(field.readonly.is_some(), " readonly", out)?;
    push_word_if(field.constraint.is_some(), " constraint", out)?;
    push_word_if(field.calculate.is_some(), " calculate", out)
}

fn push_values(values: &[Text], out: &mut Vec<u8>) -> Result<(), NoMemory>
    ensures { OnOk result (out.new.items ≡ out.old.items ++ value_words values.now) }
{
    for value in values {
        out.push(b' ')?;
        print_text(value, out)?;
    }
    Ok(())
}

fn push_choices(choices: &Choices, out: &mut Vec<u8>) -> Result<(), NoMemory>
    ensures { OnOk result (out.new.items ≡ out.old.items ++ choices_words choices.now) }
{
    match choices {
        Choices::Nothing => Ok(()),
        Choices::Fixed(values) => {
            out.extend_from_slice(b" of")?;
            push_values(values.as_slice(), out)
        }
        Choices::Rows { table, filter, .. } => {
            out.extend_from_slice(b" of rows ")?;
            print_text(table, out)?;
            push_word_if(filter.is_some(), " filtered", out)
        }
    }
}

fn push_field(field: &Field, out: &mut Vec<u8>) -> Result<(), NoMemory>
    ensures { OnOk result (out.new.items ≡ out.old.items ++ field_line field.now) }
{
    print_text(&field.path, out)?;
    out.extend_from_slice(kind_word(field.kind).as_bytes())?;
    push_choices(&field.choices, out)?;
    push_flags(field, out)?;
    Ok(out.push(b'\n')?)
}

fn push_head(form: &FormDef, out: &mut Vec<u8>) -> Result<(), NoMemory>
    ensures { OnOk result (out.new.items ≡ out.old.items ++ head_line form.now) }
{
    out.extend_from_slice(b"form ")?;
    print_text(&form.id, out)?;
    out.extend_from_slice(b" version ")?;
    print_text(&form.version, out)?;
    Ok(out.push(b'\n')?)
}

pub fn form_text(alloc: Global, form: &FormDef) -> Result<Vec<u8>, NoMemory>
    ensures { IfOk result (λ text. text.items ≡ form_text form.now) }
{
    let mut out = Vec::new(alloc);
    push_head(form, &mut out)?;
    for field in form.fields.as_slice() {
        push_field(field, &mut out)?;
    }
    Ok(out)
}
