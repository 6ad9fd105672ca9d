ghost use Rattle.std.specs.Prelude.{◌≡◌, ◌++◌, OnOk, string_bytes};
ghost use Rattle.rule_cases.specs.Values.{truth_printed, value_printed};

use crate::forms::{document, form_or_refusal};
use crate::tables::{OneList, forest};
use case_lines::{push_all, push_number, text_of};
use expr_values::{Row, Scope, Value, evaluate};
use field_text::{NoMemory, Text};
use form_def::FormDef;
use question_rules::{Sheet, shown_marks};
use rosa_doc::write_attr;
use std::alloc::{AllocError, Global};

/// The fields, and the children of the model up to the expression, which is the constraint of the first field.
const FIELDS: &str =
    "<a>5</a><b>oak fir</b><c>secret</c><d/><e> 12\\n</e><f>\\{4000:x}</f><g>\\{4000:\u{E9}}</g> | ";

const MODEL: &str = "
<instance id='kinds'><root>
<item><name>oak</name><label>Oak</label><label>Second</label></item>
<item><name>fir</name><label>Fir</label></item>
<item><name>oak</name><label>Later</label></item>
</root></instance>
<instance id='kinds'><root>
<item><name>elm</name><label>Wrong</label></item>
</root></instance>
<instance id='trees' src='jr://file-csv/forest.csv'/>
<instance id='trees' src='jr://file-csv/desert.csv'/>
<instance id='others' src='jr://file-csv/desert.csv'/>
<bind nodeset='/d/c' relevant='false()'/>
<bind nodeset='/d/a' constraint=\"";

/// A form that keeps the expression.
fn form_with(alloc: Global, line: &str) -> Result<Vec<u8>, NoMemory> {
    let expr = Text::from_string(text_of(alloc, line)?);
    let mut value = Vec::new(alloc);
    write_attr(&expr, &mut value)?;
    let mut case = String::new(alloc);
    case.push_str(FIELDS)?;
    case.push_str(MODEL)?;
    if let Ok(value) = std::str::from_utf8(value.as_slice()) {
        case.push_str(value)?;
    }
    case.push_str("\"/>")?;
    Ok(document(alloc, case.as_str())?)
}

pub fn print_truth(out: &mut String, truth: bool) -> Result<(), AllocError>
    ensures { OnOk result (string_bytes out.new ≡ string_bytes out.old ++ truth_printed truth) }
{
    out.push_str(if truth { "true" } else { "false" })
}

/// The kind of a value, and the value as a text.
fn print_value(out: &mut String, value: &Value) -> Result<(), AllocError>
    ensures { OnOk result (string_bytes out.new ≡ string_bytes out.old ++ value_printed value.now) }
{
    match value {
        Value::Truth(truth) => {
            out.push_str("truth ")?;
            print_truth(out, *truth)
        }
        Value::Number(number) => {
            out.push_str("number ")?;
            push_number(out, *number)
        }
        Value::NotANumber => out.push_str("NaN"),
        Value::Words(text) => push_all(out, &["words ", text.as_str()]),
    }
}

fn marks_of(
    alloc: Global,
    form: &FormDef,
    sheet: &Sheet,
    tables: &OneList,
) -> Result<Vec<bool>, NoMemory> {
    if sheet.texts().len() != form.fields.len() {
        return Err(NoMemory);
    }
    shown_marks(alloc, form, sheet, tables)
}

/// The value of the constraint of the first field.
fn constraint_value(
    alloc: Global,
    form: &FormDef,
    texts: &[Text],
    marks: &[bool],
    tables: &OneList,
) -> Result<Value, NoMemory> {
    let Some(field) = form.fields.get(0) else {
        return Ok(Value::NotANumber);
    };
    let Some(expr) = &field.constraint else {
        return Ok(Value::NotANumber);
    };
    let scope = Scope {
        form,
        texts,
        marks,
        tables,
        own: 0,
    };
    evaluate(alloc, &scope, &Row::Absent, expr)
}

fn print_constraint(alloc: Global, out: &mut String, form: &FormDef) -> Result<(), NoMemory> {
    let sheet = Sheet::initial(alloc, form)?;
    let tables = forest(alloc)?;
    let marks = marks_of(alloc, form, &sheet, &tables)?;
    let value = constraint_value(alloc, form, sheet.texts(), marks.as_slice(), &tables)?;
    Ok(print_value(out, &value)?)
}

/// The value of an expression of the field `/d/a` of a form with some fields, tables and a list.
pub fn answer(alloc: Global, line: &str) -> Result<String, NoMemory> {
    let document = form_with(alloc, line)?;
    let mut out = String::new(alloc);
    if let Some(form) = form_or_refusal(alloc, document.as_slice(), &mut out)? {
        print_constraint(alloc, &mut out, &form)?;
    }
    Ok(out)
}
