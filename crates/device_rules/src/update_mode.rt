// How forms are kept up to date with the server.
ghost use Rattle.device_state.specs.State.{plain};
ghost use Rattle.device_rules.specs.Prepared.{Makes};
ghost use Rattle.device_rules.specs.UpdateMode.{update_mode};

use crate::answer::Answer;
use crate::prepared::{Parts, not_full};
use crate::refused::Refused;
use device_state::{Changes, Settings, State};
use field_text::Mode;

pub(crate) fn update_mode(state: &State, mode: Mode) -> Result<Parts, Refused>
    ensures { Makes (plain state.now) result (update_mode (plain state.now) mode) }
{
    not_full(state)?;
    Ok(Parts {
        changes: Changes {
            settings: Some(Settings {
                mode,
                ..state.settings
            }),
            ..Changes::counted(state.counters.one_further())
        },
        answer: Answer::Done,
    })
}
