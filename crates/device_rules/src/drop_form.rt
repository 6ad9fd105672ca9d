// The visible forms of an id are hidden. What names one keeps it. No other hand may hold the forms.
ghost use Rattle.device_state.specs.State.{plain};
ghost use Rattle.device_rules.specs.DropForm.{drop_form};
ghost use Rattle.device_rules.specs.Prepared.{Makes};

use crate::answer::Answer;
use crate::holders::free_for;
use crate::prepared::{Parts, not_full};
use crate::refused::Refused;
use device_state::{Changes, FormChange, State};
use entry_form::{Hand, Lock};
use field_text::Text;
use std::alloc::Global;

pub(crate) fn drop_form(
    alloc: Global,
    state: &State,
    hand: Hand,
    id: &Text,
) -> Result<Parts, Refused>
    ensures { Makes (plain state.now) result (drop_form (plain state.now) hand id.now) }
{
    free_for(state.locks.holder(Lock::Forms), hand)?;
    if !state.forms.has_shown(id) {
        return Err(Refused::NoForm);
    }
    not_full(state)?;
    let id = id.copy(alloc)?;
    Ok(Parts {
        changes: Changes {
            forms: FormChange::Hide(id),
            ..Changes::counted(state.counters.one_further())
        },
        answer: Answer::Done,
    })
}
