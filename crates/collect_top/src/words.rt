ghost use Rattle.std.specs.Prelude.{◌≡◌, ◌∷◌, []};
ghost use Rattle.collect_text.specs.Rows.{same_words};
ghost use Rattle.collect_top.specs.Words.{work_of};

use field_text::Text;

/// What the words of a command line ask for.
#[derive(Clone, Copy, Debug, PartialEq, Eq)]
pub enum Work {
    /// To answer the script that the source gives.
    Run,
    /// To print a line for each entry of the journal.
    Log,
    /// To print how much the device keeps.
    Check,
}

fn is_word(words: &[Text], wanted: &str) -> bool
    ensures { result ≡ same_words words.now (wanted.now ∷ []) }
{
    match words {
        [word] => word.as_str() == wanted,
        _ => false,
    }
}

/// The work that the words ask for, if they are the one word of a command.
pub fn work_of(words: &[Text]) -> Option<Work>
    ensures { result ≡ work_of words.now }
{
    if is_word(words, "run") {
        Some(Work::Run)
    } else if is_word(words, "log") {
        Some(Work::Log)
    } else if is_word(words, "check") {
        Some(Work::Check)
    } else {
        None
    }
}
