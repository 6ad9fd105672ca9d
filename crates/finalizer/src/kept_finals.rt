ghost use Rattle.std.specs.Prelude.{◌+◌, ◌≤◌, ◌^◌, IfOk};
ghost use Rattle.field_text.specs.Steps.{Gives};
ghost use Rattle.finalizer.specs.Finals.{fault_of};
ghost use Rattle.finalizer.specs.Fits.{Fits};
ghost use Rattle.finalizer.specs.KeptFinals.{finalized_in, finalized_of};

use crate::finals::{Final, MetaIn, NotFinal, finalize};
use entity_lists::EntityLists;
use field_text::Text;
use form_def::FormDef;
use kept_forms::{KeptForm, fits_form};
use question_rules::Sheet;
use std::alloc::Global;

// Finalizes an instance whose sheet fits the form; another lacks what is required.
fn finalized_in(
    alloc: Global,
    sheet: &Sheet,
    lists: &EntityLists,
    meta: &MetaIn,
    form: &FormDef,
) -> Result<Final, NotFinal>
    requires { meta.now.draws.next + 2 ≤ 2 ^ 62 }
    ensures done { Gives fault_of (λ done. done) result
        (finalized_in sheet.now lists.now.items meta.now form.now) }
    ensures fits { IfOk result (Fits lists.now.items meta.now.draws) }
{
    if !fits_form(form, sheet) {
        let path = Text::from_string(String::new(alloc));
        return Err(NotFinal::Required { path });
    }
    finalize(alloc, form, sheet, lists, meta)
}

/// Finalizes an instance of a kept form. There must be room for two draws, and a refusal draws nothing.
///
/// A sheet with another number of texts than the form has fields is refused as required, with an empty path.
pub fn finalized(
    alloc: Global,
    form: &KeptForm,
    sheet: &Sheet,
    lists: &EntityLists,
    meta: &MetaIn,
) -> Result<Final, NotFinal>
    requires { meta.now.draws.next + 2 ≤ 2 ^ 62 }
    ensures done { Gives fault_of (λ done. done) result
        (finalized_of form.now sheet.now lists.now.items meta.now) }
    ensures fits { IfOk result (Fits lists.now.items meta.now.draws) }
{
    finalized_in(alloc, sheet, lists, meta, form.definition())
}
