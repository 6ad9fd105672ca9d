// Whether finalized instances are sent without being asked.
ghost use Rattle.device_state.specs.State.{plain};
ghost use Rattle.device_rules.specs.AutoSend.{auto_send};
ghost use Rattle.device_rules.specs.Prepared.{Makes};

use crate::answer::Answer;
use crate::prepared::{Parts, not_full};
use crate::refused::Refused;
use device_state::{Changes, Settings, State};

pub(crate) fn auto_send(state: &State, on: bool) -> Result<Parts, Refused>
    ensures { Makes (plain state.now) result (auto_send (plain state.now) on) }
{
    not_full(state)?;
    Ok(Parts {
        changes: Changes {
            settings: Some(Settings {
                auto_send: on,
                ..state.settings
            }),
            ..Changes::counted(state.counters.one_further())
        },
        answer: Answer::Done,
    })
}
