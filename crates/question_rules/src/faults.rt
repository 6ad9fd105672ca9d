ghost use Rattle.std.specs.Prelude.{◌≡◌, IfOk, length, not};
ghost use Rattle.expr_values.specs.Functions.{is_some_text};
ghost use Rattle.question_rules.specs.Fields.{text_at};
ghost use Rattle.question_rules.specs.Faults.{fault_at as cause_of, fault_from, first_fault_of, IsFirstFault};

use crate::marks::{holds_or, shown_marks};
use crate::sheet::Sheet;
use expr_values::Scope;
use field_text::{NoMemory, Tables, Text};
use form_def::{Field, FormDef, is_marked};
use std::alloc::Global;

/// What a field lacks.
#[derive(Clone, Copy, Debug, PartialEq, Eq)]
pub enum Cause {
    /// It is required, and empty.
    Required,
    /// Its constraint doesn't hold.
    Constraint,
}

/// A field that lacks something.
#[derive(Debug, Drop)]
pub struct Fault {
    pub path: Text,
    pub cause: Cause,
}

fn is_empty_at(texts: &[Text], number: u64) -> bool
    ensures { result ≡ not (is_some_text (text_at texts.now number)) }
{
    match texts.get(number as usize) {
        Some(text) => text.bytes().is_empty(),
        None => true,
    }
}

/// What a field lacks, if it is shown and lacks something.
fn cause_at<T: Tables>(
    alloc: Global,
    scope: &Scope<'_, T>,
    field: &Field,
) -> Result<Option<Cause>, NoMemory>
    ensures { IfOk result (λ cause. cause
        ≡ cause_of scope.now.form.now (T.tables scope.now.tables.now) scope.now.texts.now scope.now.marks.now
        scope.now.own field.now) }
{
    if !is_marked(scope.marks, scope.own) {
        return Ok(None);
    }
    if is_empty_at(scope.texts, scope.own) {
        let required = holds_or(alloc, scope, false, &field.required)?;
        return Ok(if required {
            Some(Cause::Required)
        } else {
            None
        });
    }
    let right = holds_or(alloc, scope, true, &field.constraint)?;
    Ok(if right { None } else { Some(Cause::Constraint) })
}

/// The first fault of the fields, from the scope's own field on.
fn first_fault_in<T: Tables>(
    alloc: Global,
    form: &FormDef,
    tables: &T,
    texts: &[Text],
    marks: &[bool],
) -> Result<Option<Fault>, NoMemory>
    ensures { IfOk result (λ fault. fault
        ≡ fault_from form.now (T.tables tables.now) texts.now marks.now 0 form.now.fields) }
{
    let mut own = 0;
    let mut rest = form.fields.as_slice();
    while let Some((field, others)) = rest.split_first() {
        let scope = Scope {
            form,
            texts,
            marks,
            tables,
            own,
        };
        if let Some(cause) = cause_at(alloc, &scope, field)? {
            let path = field.path.copy(alloc)?;
            return Ok(Some(Fault { path, cause }));
        }
        own += 1;
        rest = others;
    }
    Ok(None)
}

/// The first field in the order of the document that is shown and lacks something.
pub fn first_fault<T: Tables>(
    alloc: Global,
    form: &FormDef,
    sheet: &Sheet,
    tables: &T,
) -> Result<Option<Fault>, NoMemory>
    requires { length sheet.now ≡ length form.now.fields }
    ensures first { IfOk result (λ fault. IsFirstFault form.now (T.tables tables.now) sheet.now fault) }
    ensures fault { IfOk result (λ fault. fault ≡ first_fault_of form.now (T.tables tables.now) sheet.now) }
{
    let marks = shown_marks(alloc, form, sheet, tables)?;
    first_fault_in(alloc, form, tables, sheet.texts(), marks.as_slice())
}
