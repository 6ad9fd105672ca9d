// A form is loaded from its document: it is kept, visible and complete. No other hand may hold the forms.
ghost use Rattle.std.specs.Prelude.{◌≡◌, IfOk};
ghost use Rattle.field_text.specs.Steps.{Gives};
ghost use Rattle.device_state.specs.State.{plain};
ghost use Rattle.device_rules.specs.Load.{form_record, hash_at, load, load_form, load_read, other_bytes, put_form};
ghost use Rattle.device_rules.specs.Load.{read_form};
ghost use Rattle.device_rules.specs.Prepared.{Makes};
ghost use Rattle.device_rules.specs.Refused.{rule_of};

use crate::answer::Answer;
use crate::holders::free_for;
use crate::prepared::{Parts, not_full};
use crate::refused::{Refused, Which};
use device_state::{Changes, FormChange, State};
use entry_form::{Hand, Lock};
use field_ids::hash_text;
use field_text::{Blob, NoMemory, Text};
use form_store::{Check, FORM_LIMIT, FormRec};
use kept_forms::KeptForm;
use std::alloc::Global;

fn read_form(alloc: Global, bytes: &Blob) -> Result<KeptForm, Refused>
    ensures { Gives rule_of (λ form. form) result (read_form bytes.now) }
{
    Ok(KeptForm::read(alloc, bytes.copy(alloc)?)?)
}

// The hash of the form that is kept at this place.
fn hash_at(alloc: Global, state: &State, place: u64) -> Result<Text, NoMemory>
    ensures { IfOk result (λ hash. hash ≡ hash_at (plain state.now) place) }
{
    match state.forms.as_slice().get(place as usize) {
        Some(record) => record.hash.copy(alloc),
        None => Ok(Text::from_string(String::new(alloc))),
    }
}

fn form_record(alloc: Global, form: KeptForm, put_at: u64) -> Result<FormRec, NoMemory>
    ensures { IfOk result (λ record_made. record_made ≡ form_record form put_at) }
{
    let id = form.id().copy(alloc)?;
    let version = form.version().copy(alloc)?;
    let hash = hash_text(alloc, form.document().bytes())?;
    let auto = form.auto_send();
    Ok(FormRec {
        id,
        version,
        bytes: form.into_document(),
        hash,
        auto,
        put_at,
        visible: true,
        complete: true,
    })
}

fn put_form(alloc: Global, state: &State, form: KeptForm) -> Result<Parts, Refused>
    ensures { Makes (plain state.now) result (put_form (plain state.now) form) }
{
    not_full(state)?;
    let record = form_record(alloc, form, state.counters.position + 1)?;
    Ok(Parts {
        changes: Changes {
            forms: FormChange::Put(record),
            ..Changes::counted(state.counters.one_further())
        },
        answer: Answer::Done,
    })
}

// The refusal of a form where the one at this place has its id and version, and other bytes.
fn other_bytes(
    alloc: Global,
    state: &State,
    form: &KeptForm,
    place: u64,
) -> Result<Refused, NoMemory>
    ensures { IfOk result (λ why. why ≡ other_bytes (plain state.now) form.now place) }
{
    Ok(Refused::OtherBytes {
        kept: hash_at(alloc, state, place)?,
        new: hash_text(alloc, form.document().bytes())?,
    })
}

fn load_form(alloc: Global, state: &State, form: KeptForm) -> Result<Parts, Refused>
    ensures { Makes (plain state.now) result (load_form (plain state.now) form) }
{
    match state
        .forms
        .check(form.id(), form.version(), form.document().bytes())
    {
        Check::Fresh | Check::Same(_) => put_form(alloc, state, form),
        Check::OtherBytes(place) => Err(other_bytes(alloc, state, &form, place)?),
        Check::Full => Err(Refused::Limit {
            which: Which::Forms,
            number: FORM_LIMIT,
        }),
    }
}

fn load_read(alloc: Global, state: &State, bytes: &Blob) -> Result<Parts, Refused>
    ensures { Makes (plain state.now) result (load_read (plain state.now) bytes.now) }
{
    let form = read_form(alloc, bytes)?;
    load_form(alloc, state, form)
}

pub(crate) fn load(alloc: Global, state: &State, hand: Hand, bytes: &Blob) -> Result<Parts, Refused>
    ensures { Makes (plain state.now) result (load (plain state.now) hand bytes.now) }
{
    free_for(state.locks.holder(Lock::Forms), hand)?;
    load_read(alloc, state, bytes)
}
