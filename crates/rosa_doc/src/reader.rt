ghost use Rattle.std.specs.Prelude.{◌≡◌, IfOk};
ghost use Rattle.rosa_doc.specs.Reading.{Stopped};

use crate::progress::{Progress, is_return_piece, opens};
use field_text::NoMemory;
use rosa_pieces::{Unread, piece_at};
use std::alloc::Global;

/// How many levels of elements a document may have.
const LEVELS: usize = 16;

/// Why the reader stopped.
#[derive(Debug, Drop)]
pub enum Ending {
    /// An element too deep begins here.
    Deep,
    /// The piece that begins here can't stand here.
    Stuck,
    /// No piece begins here.
    End(Progress),
}

/// Reads as many pieces as can stand there, and gives the characters before which it stopped.
pub fn read_pieces(alloc: Global, chars: &[char]) -> Result<(Ending, &[char]), NoMemory>
    ensures { IfOk result (λ x. Stopped chars.now x.0 x.1.now) }
{
    let mut progress = Progress::Before;
    let mut after_return = false;
    let mut rest = chars;
    loop {
        let (piece, after) = match piece_at(alloc, rest) {
            Ok(found) => found,
            Err(Unread::Absent) => return Ok((Ending::End(progress), rest)),
            Err(Unread::NoMemory) => return Err(NoMemory),
        };
        if progress.depth() == LEVELS && opens(&piece) {
            return Ok((Ending::Deep, rest));
        }
        let is_return = is_return_piece(&piece);
        match progress.step(alloc, after_return, piece)? {
            Some(next) => progress = next,
            None => return Ok((Ending::Stuck, rest)),
        }
        after_return = is_return;
        rest = after;
    }
}
