// An answer is given to a question of the open questionnaire, and its savepoint is kept.
ghost use Rattle.std.specs.Prelude.{◌≡◌};
ghost use Rattle.field_text.specs.Steps.{Gives};
ghost use Rattle.device_state.specs.State.{plain};
ghost use Rattle.entity_lists.specs.EntityTables.{tables_of};
ghost use Rattle.device_rules.specs.Fill.{fill, filled};
ghost use Rattle.device_rules.specs.Prepared.{Makes};
ghost use Rattle.device_rules.specs.Refused.{rule_of};

use crate::answer::Answer;
use crate::prepared::{Parts, not_full};
use crate::refused::Refused;
use device_state::{Changes, EntryChange, OpenEntry, SavepointChange, State};
use entity_lists::EntityLists;
use field_text::Text;
use question_rules::Sheet;
use savepoints::Savepoint;
use std::alloc::Global;

// The sheet of the open questionnaire behind an answer.
fn filled(
    alloc: Global,
    lists: &EntityLists,
    entry: &OpenEntry,
    path: &Text,
    value: &Text,
) -> Result<Sheet, Refused>
    ensures { Gives rule_of (λ sheet. sheet) result
        (filled (tables_of lists.now.items) entry.now path.now value.now) }
{
    Ok(
        entry
            .form
            .filled_sheet(alloc, lists, &entry.sheet, path, value)?,
    )
}

pub(crate) fn fill(
    alloc: Global,
    state: &State,
    path: &Text,
    value: &Text,
) -> Result<Parts, Refused>
    ensures { Makes (plain state.now) result (fill (plain state.now) path.now value.now) }
{
    let Some(entry) = &state.entry else {
        return Err(Refused::NoEntry);
    };
    let sheet = filled(alloc, &state.lists, entry, path, value)?;
    not_full(state)?;
    let savepoint = Savepoint {
        key: entry.key(alloc)?,
        sheet: sheet.copy(alloc)?,
    };
    Ok(Parts {
        changes: Changes {
            savepoints: SavepointChange::Put(savepoint),
            entry: EntryChange::Fill(sheet),
            ..Changes::counted(state.counters.one_further())
        },
        answer: Answer::Done,
    })
}
