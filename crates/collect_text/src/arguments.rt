// The lines whose first word says what the words behind it are.
ghost use Rattle.std.specs.Prelude.{◌≡◌, IfOk};
ghost use Rattle.collect_text.specs.Arguments.{answer_line, asked_with, drop_form_line, drop_line, edit_line};
ghost use Rattle.collect_text.specs.Arguments.{get_line, how_named, how_of, load_line, number_of, open_line};
ghost use Rattle.collect_text.specs.Arguments.{show_line, shown, shown_doc, start_line, start_of, started, with_arguments};

use crate::Line;
use device_rules::Query;
use entry_form::{Base, Command, How};
use field_text::{Blob, NoMemory, Text, read_decimal};
use std::alloc::Global;

// The number that a word is.
fn number_of(word: &Text) -> Option<u64>
    ensures { result ≡ number_of word.now }
{
    match read_decimal(word.bytes()) {
        Some(number) => Some(number),
        None => None,
    }
}

// What is done with a savepoint, by the word that says it.
fn how_named(word: &Text) -> Option<How>
    ensures { result ≡ how_named word.now }
{
    if word.as_str() == "recover" {
        Some(How::Recover)
    } else if word.as_str() == "discard" {
        Some(How::Discard)
    } else {
        None
    }
}

// What is done with a savepoint, by the words at the end of a line.
fn how_of(words: &[Text]) -> Option<How>
    ensures { result ≡ how_of words.now }
{
    match words {
        [] => Some(How::Fresh),
        [word] => how_named(word),
        _ => None,
    }
}

fn started(base: Base, words: &[Text]) -> Line
    ensures { result ≡ started base words.now }
{
    match how_of(words) {
        Some(how) => Line::Give(Command::Start { base, how }),
        None => Line::Bad,
    }
}

fn start_of(alloc: Global, id: &Text, words: &[Text]) -> Result<Line, NoMemory>
    ensures { IfOk result (λ line. line ≡ start_of id.now words.now) }
{
    let form = id.copy(alloc)?;
    match words {
        [word, version, words @ ..] if word.as_str() == "version" => {
            let version = Some(version.copy(alloc)?);
            Ok(started(Base::Blank { form, version }, words))
        }
        _ => Ok(started(
            Base::Blank {
                form,
                version: None,
            },
            words,
        )),
    }
}

fn start_line(alloc: Global, words: &[Text]) -> Result<Line, NoMemory>
    ensures { IfOk result (λ line. line ≡ start_line words.now) }
{
    match words {
        [] => Ok(Line::Bad),
        [id, words @ ..] => start_of(alloc, id, words),
    }
}

fn open_line(words: &[Text]) -> Line
    ensures { result ≡ open_line words.now }
{
    match words {
        [] => Line::Bad,
        [number, words @ ..] => match number_of(number) {
            Some(number) => started(Base::Draft(number), words),
            None => Line::Bad,
        },
    }
}

fn edit_line(words: &[Text]) -> Line
    ensures { result ≡ edit_line words.now }
{
    match words {
        [] => Line::Bad,
        [number, words @ ..] => match number_of(number) {
            Some(number) => started(Base::Edit(number), words),
            None => Line::Bad,
        },
    }
}

fn answer_line(alloc: Global, words: &[Text]) -> Result<Line, NoMemory>
    ensures { IfOk result (λ line. line ≡ answer_line words.now) }
{
    match words {
        [path, value] => Ok(Line::Give(Command::Fill {
            path: path.copy(alloc)?,
            value: value.copy(alloc)?,
        })),
        _ => Ok(Line::Bad),
    }
}

fn load_line(alloc: Global, words: &[Text]) -> Result<Line, NoMemory>
    ensures { IfOk result (λ line. line ≡ load_line words.now) }
{
    match words {
        [text] => Ok(Line::Give(Command::Load(Blob::from_bytes(alloc, text.bytes())?))),
        _ => Ok(Line::Bad),
    }
}

fn drop_form_line(alloc: Global, words: &[Text]) -> Result<Line, NoMemory>
    ensures { IfOk result (λ line. line ≡ drop_form_line words.now) }
{
    match words {
        [id] => Ok(Line::Give(Command::DropForm(id.copy(alloc)?))),
        _ => Ok(Line::Bad),
    }
}

fn drop_line(words: &[Text]) -> Line
    ensures { result ≡ drop_line words.now }
{
    match words {
        [number] => match number_of(number) {
            Some(number) => Line::Give(Command::DropInstance(number)),
            None => Line::Bad,
        },
        _ => Line::Bad,
    }
}

fn get_line(words: &[Text]) -> Line
    ensures { result ≡ get_line words.now }
{
    match words {
        [_] => Line::NotBuilt,
        _ => Line::Bad,
    }
}

fn shown_doc(number: &Text) -> Line
    ensures { result ≡ shown_doc (number_of number.now) }
{
    match number_of(number) {
        Some(number) => Line::Look(Query::DocOf(number)),
        None => Line::Bad,
    }
}

fn shown(alloc: Global, what: &Text, name: &Text) -> Result<Line, NoMemory>
    ensures { IfOk result (λ line. line ≡ shown what.now name.now) }
{
    if what.as_str() == "doc" {
        Ok(shown_doc(name))
    } else if what.as_str() == "list" {
        Ok(Line::Look(Query::Entities(name.copy(alloc)?)))
    } else {
        Ok(Line::Bad)
    }
}

fn show_line(alloc: Global, words: &[Text]) -> Result<Line, NoMemory>
    ensures { IfOk result (λ line. line ≡ show_line words.now) }
{
    match words {
        [what, name] => shown(alloc, what, name),
        _ => Ok(Line::Bad),
    }
}

// The line of a first word and the words behind it.
fn asked_with(alloc: Global, verb: &Text, words: &[Text]) -> Result<Line, NoMemory>
    ensures { IfOk result (λ line. line ≡ asked_with verb.now words.now) }
{
    let verb = verb.as_str();
    if verb == "start" {
        start_line(alloc, words)
    } else if verb == "open" {
        Ok(open_line(words))
    } else if verb == "edit" {
        Ok(edit_line(words))
    } else if verb == "answer" {
        answer_line(alloc, words)
    } else if verb == "load" {
        load_line(alloc, words)
    } else if verb == "dropform" {
        drop_form_line(alloc, words)
    } else if verb == "drop" {
        Ok(drop_line(words))
    } else if verb == "get" {
        Ok(get_line(words))
    } else if verb == "show" {
        show_line(alloc, words)
    } else {
        Ok(Line::Bad)
    }
}

// The line of words that no row of fixed words has.
pub(crate) fn with_arguments(alloc: Global, words: &[Text]) -> Result<Line, NoMemory>
    ensures { IfOk result (λ line. line ≡ with_arguments words.now) }
{
    match words {
        [] => Ok(Line::Bad),
        [verb, words @ ..] => asked_with(alloc, verb, words),
    }
}
