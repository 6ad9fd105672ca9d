ghost use Rattle.std.specs.Prelude.{◌≡◌, ◌<◌, ◌≤◌, ℕ, true, false, None, length, slice_get, slice_set, IfOk};
ghost use Rattle.std.specs.Option.{option_map_or};
ghost use Rattle.form_def.specs.Fields.{parent_of};
ghost use Rattle.form_def.specs.Order.{is_marked as marked};
ghost use Rattle.expr_values.specs.Evaluation.{text_read};
ghost use Rattle.question_rules.specs.Fields.{holds_or as expression_holds_or, text_at};
ghost use Rattle.question_rules.specs.Shown.{is_parent_shown as parent_shown, IsShown, IsShownAt, ReadsAs};
ghost use Rattle.question_rules.specs.Along.{mark_at as mark_of, marked_along, unmarked, shown_marks as marks_of};

use crate::sheet::Sheet;
use expr_values::{Row, Scope, holds, read_text};
use field_text::{NoMemory, Tables, Text};
use form_def::{Expr, FormDef, is_marked};
use std::alloc::Global;

/// Marks the field of a number, if there is one, or takes its mark away.
pub fn put_mark(marks: &mut [bool], number: u64, mark: bool)
    ensures { marks.new ≡ slice_set marks.old number mark }
{
    if (number as usize) < marks.len() {
        marks[number as usize] = mark;
    }
}

/// Whether an expression holds, or what counts where it is absent.
pub fn holds_or<T: Tables>(
    alloc: Global,
    scope: &Scope<'_, T>,
    absent: bool,
    expr: &Option<Expr>,
) -> Result<bool, NoMemory>
    ensures { IfOk result (λ holds. holds
        ≡ expression_holds_or absent scope.now.form.now (T.tables scope.now.tables.now) scope.now.texts.now
        scope.now.marks.now scope.now.own expr.now) }
{
    match expr {
        Some(expr) => holds(alloc, scope, &Row::Absent, expr),
        None => Ok(absent),
    }
}

/// The parent of the field of a number.
fn parent_at(form: &FormDef, number: u64) -> Option<u64>
    ensures { result ≡ option_map_or (λ field. parent_of form.now.fields field.path)
        (slice_get form.now.fields number) None }
{
    form.parents.get(number as usize).copied().unwrap_or(None)
}

fn is_parent_shown(marks: &[bool], parent: Option<u64>) -> bool
    ensures { result ≡ parent_shown marks.now parent }
{
    match parent {
        Some(parent) => is_marked(marks, parent),
        None => true,
    }
}

/// Whether a field is shown, by the marks of those that it depends on.
pub fn mark_at<T: Tables>(
    alloc: Global,
    form: &FormDef,
    tables: &T,
    texts: &[Text],
    marks: &[bool],
    number: u64,
) -> Result<bool, NoMemory>
    ensures { IfOk result (λ mark. mark ≡ mark_of form.now (T.tables tables.now) texts.now marks.now number) }
{
    let Some(field) = form.fields.get(number as usize) else {
        return Ok(false);
    };
    if !is_parent_shown(marks, parent_at(form, number)) {
        return Ok(false);
    }
    let scope = Scope {
        form,
        texts,
        marks,
        tables,
        own: number,
    };
    holds_or(alloc, &scope, true, &field.relevant)
}

/// Of each field whether it is shown, with these texts.
pub fn marks_along<T: Tables>(
    alloc: Global,
    form: &FormDef,
    tables: &T,
    texts: &[Text],
) -> Result<Vec<bool>, NoMemory>
    ensures { IfOk result (λ marks. marks.items ≡ marks_of form.now (T.tables tables.now) texts.now) }
{
    let mut marks = vec![in alloc; false; form.fields.len()]?;
    let mut rest = form.order.as_slice();
    while let Some((number, others)) = rest.split_first() {
        let mark = mark_at(alloc, form, tables, texts, marks.as_slice(), *number)?;
        put_mark(&mut marks, *number, mark);
        rest = others;
    }
    Ok(marks)
}

/// Of each field whether it is shown.
pub fn shown_marks<T: Tables>(
    alloc: Global,
    form: &FormDef,
    sheet: &Sheet,
    tables: &T,
) -> Result<Vec<bool>, NoMemory>
    requires { length sheet.now ≡ length form.now.fields }
    ensures shown { IfOk result (λ marks. IsShown form.now (T.tables tables.now) sheet.now marks.items) }
    ensures marks { IfOk result (λ marks. marks.items ≡ marks_of form.now (T.tables tables.now) sheet.now) }
{
    marks_along(alloc, form, tables, sheet.texts())
}

/// Whether a field is shown.
pub fn shown<T: Tables>(
    alloc: Global,
    form: &FormDef,
    sheet: &Sheet,
    tables: &T,
    field: u64,
) -> Result<bool, NoMemory>
    requires sheet { length sheet.now ≡ length form.now.fields }
    requires within { field < length form.now.fields }
    ensures shown { IfOk result (λ shown. IsShownAt form.now (T.tables tables.now) sheet.now field shown) }
    ensures mark { IfOk result (λ shown. shown ≡ marked (marks_of form.now (T.tables tables.now) sheet.now) field) }
{
    let marks = shown_marks(alloc, form, sheet, tables)?;
    Ok(is_marked(marks.as_slice(), field))
}

/// The text of a field as expressions read it: none where it isn't shown.
pub fn read_field<T: Tables>(
    alloc: Global,
    form: &FormDef,
    sheet: &Sheet,
    tables: &T,
    field: u64,
) -> Result<Text, NoMemory>
    requires sheet { length sheet.now ≡ length form.now.fields }
    requires within { field < length form.now.fields }
    ensures reads { IfOk result (λ text. ReadsAs form.now (T.tables tables.now) sheet.now field text) }
    ensures text { IfOk result (λ text. text
        ≡ text_read sheet.now (marks_of form.now (T.tables tables.now) sheet.now) field) }
{
    let marks = shown_marks(alloc, form, sheet, tables)?;
    read_text(alloc, sheet.texts(), marks.as_slice(), field)
}
