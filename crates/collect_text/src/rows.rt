// The lines of fixed words. To add a line is to add a row.
ghost use Rattle.std.specs.Prelude.{◌≡◌, map, IfOk};
ghost use Rattle.collect_text.specs.Rows.{LineRow, rows, line_of, words_meaning, same_words};

use crate::Line;
use crate::arguments::with_arguments;
use device_rules::Query;
use entry_form::Command;
use field_text::{Mode, NoMemory, Text};
use std::alloc::Global;

/// What the words of a line ask for.
#[derive(Clone, Copy, Debug, PartialEq, Eq)]
pub enum Asked {
    Quit,
    NotBuilt,
    Send,
    ShowSettings,
    ShowForms,
    ShowInstances,
    ShowEntry,
    AutoSend(bool),
    UpdateMode(Mode),
    Tick,
    Save,
    Leave,
    Finalize,
    FinalizeAll,
}

static ROWS: [(&[&str], Asked); 19] = [
    (&["quit"], Asked::Quit),
    (&["show", "settings"], Asked::ShowSettings),
    (&["show", "forms"], Asked::ShowForms),
    (&["show", "instances"], Asked::ShowInstances),
    (&["show", "entry"], Asked::ShowEntry),
    (&["set", "autosend", "on"], Asked::AutoSend(true)),
    (&["set", "autosend", "off"], Asked::AutoSend(false)),
    (&["set", "mode", "manual"], Asked::UpdateMode(Mode::Manual)),
    (
        &["set", "mode", "previous"],
        Asked::UpdateMode(Mode::Previous),
    ),
    (&["set", "mode", "exact"], Asked::UpdateMode(Mode::Exact)),
    (&["tick"], Asked::Tick),
    (&["save"], Asked::Save),
    (&["leave"], Asked::Leave),
    (&["finalize"], Asked::Finalize),
    (&["finalizeall"], Asked::FinalizeAll),
    (&["send"], Asked::Send),
    (&["update"], Asked::NotBuilt),
    (&["lists"], Asked::NotBuilt),
    (&["settle"], Asked::NotBuilt),
];

fn rows() -> &'static [(&'static [&'static str], Asked)]
    ensures { map (λ row. (map (λ word. word.now) row.0.now, row.1)) result.now ≡ rows }
{
    &ROWS
}

fn line_of(asked: Asked) -> Line
    ensures { result ≡ line_of asked }
{
    match asked {
        Asked::Quit => Line::Quit,
        Asked::NotBuilt => Line::NotBuilt,
        Asked::Send => Line::Send,
        Asked::ShowSettings => Line::Look(Query::Settings),
        Asked::ShowForms => Line::Look(Query::Forms),
        Asked::ShowInstances => Line::Look(Query::Instances),
        Asked::ShowEntry => Line::Look(Query::EntryNow),
        Asked::AutoSend(on) => Line::Give(Command::AutoSend(on)),
        Asked::UpdateMode(mode) => Line::Give(Command::UpdateMode(mode)),
        Asked::Tick => Line::Give(Command::Tick),
        Asked::Save => Line::Give(Command::SaveDraft),
        Asked::Leave => Line::Give(Command::Leave),
        Asked::Finalize => Line::Give(Command::Finalize),
        Asked::FinalizeAll => Line::Give(Command::FinalizeAll),
    }
}

fn are_words(words: &[Text], wanted: &[&str]) -> bool
    ensures { result ≡ same_words words.now (map (λ word. word.now) wanted.now) }
{
    match words {
        [] => wanted.is_empty(),
        [word, words @ ..] => match wanted {
            [] => false,
            [text, wanted @ ..] => word.as_str() == *text && are_words(words, wanted),
        },
    }
}

// The line that these words are: that of the first row that has them, else one with arguments.
pub(crate) fn line_of_words(alloc: Global, words: &[Text]) -> Result<Line, NoMemory>
    ensures { IfOk result (λ line. line ≡ words_meaning words.now) }
{
    let mut rest = rows();
    while let [row, others @ ..] = rest {
        if are_words(words, row.0) {
            return Ok(line_of(row.1));
        }
        rest = others;
    }
    with_arguments(alloc, words)
}
