ghost use Rattle.std.specs.Prelude.{◌≡◌, IfOk};
ghost use Rattle.form_store.specs.Forms.{is_shown};
ghost use Rattle.update_modes.specs.Plans.{gone, is_asked, is_followed, is_gone, is_had, is_listed, is_same};
ghost use Rattle.update_modes.specs.Plans.{is_there, is_wanted, plan};

use crate::places::{Test, places};
use field_ids::same_hash;
use field_text::{Items, Mode, NoMemory, Text};
use form_list::Listed;
use form_store::{FormRec, FormStore};
use std::alloc::Global;

fn is_shown(kept: &FormRec, id: &Text) -> bool
    ensures { result ≡ is_shown id.now kept.now }
{
    kept.visible && kept.id.bytes() == id.bytes()
}

fn is_same(form: &Listed, kept: &FormRec) -> bool
    ensures { result ≡ is_same form.now kept.now }
{
    is_shown(kept, &form.form_id) && kept.complete && same_hash(&kept.hash, &form.hash)
}

fn is_there(forms: &[FormRec], form: &Listed) -> bool
    ensures { result ≡ is_there forms.now form.now }
{
    forms.iter().any(|record| is_same(form, record))
}

fn is_had(forms: &[FormRec], form: &Listed) -> bool
    ensures { result ≡ is_had forms.now form.now }
{
    forms.iter().any(|record| is_shown(record, &form.form_id))
}

fn is_asked(asked: &[Text], form: &Listed) -> bool
    ensures { result ≡ is_asked asked.now form.now }
{
    asked.iter().any(|id| id.bytes() == form.form_id.bytes())
}

fn is_followed(mode: Mode, asked: &[Text], forms: &[FormRec], form: &Listed) -> bool
    ensures { result ≡ is_followed mode asked.now forms.now form.now }
{
    match mode {
        Mode::Manual => is_asked(asked, form),
        Mode::Previous => is_had(forms, form),
        Mode::Exact => true,
    }
}

// What the mode wants of the forms that are asked for and kept.
#[derive(Drop)]
struct Wanted<'a> {
    mode: Mode,
    asked: &'a [Text],
    forms: &'a [FormRec],
}

impl<'a> Test<Listed> for Wanted<'a> {
    ghost test = { λ w form. is_wanted w.mode w.asked.now w.forms.now form };

    fn passes(&self, form: &Listed) -> bool {
        !is_there(self.forms, form) && is_followed(self.mode, self.asked, self.forms, form)
    }
}

/// The places of the listed forms that are wanted, in the order of the list. A form is missing where no visible and
/// complete record has its id and its hash. Exact wants each missing form, Previous each one whose id some visible
/// record has, and Manual each one whose id was asked for.
pub fn plan(
    alloc: Global,
    mode: Mode,
    listed: &[Listed],
    asked: &[Text],
    forms: &FormStore,
) -> Result<Items<u64>, NoMemory>
    ensures { IfOk result (λ wanted. wanted ≡ plan mode listed.now asked.now forms.now.items) }
{
    let forms = forms.as_slice();
    places(alloc, &Wanted { mode, asked, forms }, listed)
}

fn is_listed(listed: &[Listed], kept: &FormRec) -> bool
    ensures { result ≡ is_listed listed.now kept.now }
{
    listed
        .iter()
        .any(|form| form.form_id.bytes() == kept.id.bytes())
}

// What a form list lacks.
#[derive(Drop)]
struct Unlisted<'a> {
    listed: &'a [Listed],
}

impl<'a> Test<FormRec> for Unlisted<'a> {
    ghost test = { λ u form. is_gone u.listed.now form };

    fn passes(&self, kept: &FormRec) -> bool {
        kept.visible && !is_listed(self.listed, kept)
    }
}

/// The places of the visible records whose id isn't listed, in their order; none in another mode than Exact.
pub fn gone(
    alloc: Global,
    mode: Mode,
    listed: &[Listed],
    forms: &FormStore,
) -> Result<Items<u64>, NoMemory>
    ensures { IfOk result (λ places. places ≡ gone mode listed.now forms.now.items) }
{
    match mode {
        Mode::Manual | Mode::Previous => Ok(Items::new(alloc)),
        Mode::Exact => places(alloc, &Unlisted { listed }, forms.as_slice()),
    }
}
