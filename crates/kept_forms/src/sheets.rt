ghost use Rattle.std.specs.Prelude.{◌≡◌, IfOk};
ghost use Rattle.field_text.specs.Steps.{Gives};
ghost use Rattle.question_rules.specs.Answered.{fault_of};
ghost use Rattle.kept_forms.specs.KeptForms.{filled_in, fits_form, initial_in, settled_in};

use field_text::{NoMemory, Tables, Text};
use form_def::FormDef;
use question_rules::{AnswerRefused, Sheet, fill, settle};
use std::alloc::Global;

/// Whether a sheet has a text for each field of a form.
pub fn fits_form(form: &FormDef, sheet: &Sheet) -> bool
    ensures { result ≡ fits_form form.now sheet.now }
{
    form.fields.len() == sheet.texts().len()
}

/// The first values of a form's fields, settled.
pub fn initial_in<T: Tables>(alloc: Global, tables: &T, form: &FormDef) -> Result<Sheet, NoMemory>
    ensures { IfOk result (λ sheet. sheet ≡ initial_in (T.tables tables.now) form.now) }
{
    let mut sheet = Sheet::initial(alloc, form)?;
    settle(alloc, form, &mut sheet, tables)?;
    Ok(sheet)
}

/// A sheet that fits a form, settled; another as it is.
pub fn settled_in<T: Tables>(
    alloc: Global,
    tables: &T,
    sheet: &Sheet,
    form: &FormDef,
) -> Result<Sheet, NoMemory>
    ensures { IfOk result (λ settled. settled ≡ settled_in (T.tables tables.now) sheet.now form.now) }
{
    let mut settled = sheet.copy(alloc)?;
    if !fits_form(form, sheet) {
        return Ok(settled);
    }
    settle(alloc, form, &mut settled, tables)?;
    Ok(settled)
}

/// A sheet that fits a form behind an answer, settled; another takes no answer.
pub fn filled_in<T: Tables>(
    alloc: Global,
    tables: &T,
    sheet: &Sheet,
    path: &Text,
    value: &Text,
    form: &FormDef,
) -> Result<Sheet, AnswerRefused>
    ensures { Gives fault_of (λ filled. filled) result
        (filled_in (T.tables tables.now) sheet.now path.now value.now form.now) }
{
    if !fits_form(form, sheet) {
        return Err(AnswerRefused::NoQuestion);
    }
    let mut filled = sheet.copy(alloc)?;
    fill(alloc, form, &mut filled, tables, path, value)?;
    Ok(filled)
}
