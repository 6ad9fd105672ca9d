ghost use Rattle.std.specs.Prelude.{◌≡◌, IfOk};
ghost use Rattle.collect_text.specs.Line.{meaning, line_shape};

use crate::rows::line_of_words;
use crate::{is_skipped, without_return, words};
use device_rules::Query;
use entry_form::Command;
use field_text::{NoMemory, Text};
use std::alloc::Global;

/// What a line of a script asks for.
#[derive(Debug, Drop)]
pub enum Line {
    /// A line without words, or a comment.
    Skipped,
    /// A line off the grammar of scripts.
    Bad,
    /// A line of the grammar that this program doesn't know yet.
    NotBuilt,
    /// The end of the script.
    Quit,
    /// A round of sending.
    Send,
    Look(Query),
    Give(Command),
}

/// How the answer to a line is printed.
#[derive(Debug, Drop)]
pub enum Shape {
    Plain,
    Saved,
    Finalized,
    /// The rows of the entity list of this name.
    List(Text),
}

impl Line {
    /// How the line's answer is printed.
    pub fn shape(&self, alloc: Global) -> Result<Shape, NoMemory>
        ensures { IfOk result (λ shape. shape ≡ line_shape self.now) }
    {
        Ok(match self {
            Line::Give(Command::SaveDraft) => Shape::Saved,
            Line::Give(Command::Finalize) => Shape::Finalized,
            Line::Look(Query::Entities(name)) => Shape::List(name.copy(alloc)?),
            _ => Shape::Plain,
        })
    }
}

/// The meaning of a line, which is given without its line feed.
pub fn read_line(alloc: Global, line: &[u8]) -> Result<Line, NoMemory>
    ensures { IfOk result (λ read. read ≡ meaning line.now) }
{
    let line = without_return(line);
    if is_skipped(line) {
        return Ok(Line::Skipped);
    }
    match words(alloc, line)? {
        Some(words) => line_of_words(alloc, words.as_slice()),
        None => Ok(Line::Bad),
    }
}
