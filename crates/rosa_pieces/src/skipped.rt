ghost use Rattle.std.specs.Prelude.{◌≡◌, ◌≤◌, ◌+◌, ◌==◌, IfSome, length, codes};
ghost use Rattle.field_text.specs.Xml.{is_xml_char as xml_char};
ghost use Rattle.rosa_pieces.specs.declared.piece.Piece.TheVariants.{Comment, Instruction};
ghost use Rattle.rosa_pieces.specs.Pieces.{begins, lacks_pair as lacks};
ghost use Rattle.rosa_pieces.specs.Reading.{Gives, until, skipped_at, comment_at};

use crate::{Piece, Unread};
use field_text::xml::is_xml_char;

/// How many allowed characters stand before the first `close`.
fn until(close: &[char], chars: &[char]) -> Option<usize>
    ensures value { result ≡ until close.now chars.now }
    ensures within { IfSome result (λ len. len + length close.now ≤ length chars.now) }
{
    let mut rest = chars;
    while let [c, after @ ..] = rest {
        if rest.starts_with(close) {
            return Some(chars.len() - rest.len());
        }
        if !is_xml_char(*c) {
            return None;
        }
        rest = after;
    }
    None
}

fn begins_with(c: char, chars: &[char]) -> bool
    ensures { result ≡ begins (λ d. d == c) chars.now }
{
    match chars {
        [d, ..] => *d == c,
        [] => false,
    }
}

/// Whether a nowhere stands right before b.
fn lacks_pair(a: char, b: char, chars: &[char]) -> bool
    ensures { result ≡ lacks a b chars.now }
{
    let mut rest = chars;
    while let [c, after @ ..] = rest {
        if *c == a && begins_with(b, after) {
            return false;
        }
        rest = after;
    }
    true
}

/// What stands before the first `close`, if it lacks the pair, and what follows that.
#[tactic(auto, unfolding(crate::specs::Reading::skipped_at))]
fn skipped_at<'a>(
    piece: Piece,
    close: &[char],
    pair: (char, char),
    chars: &'a [char],
) -> Result<(Piece, &'a [char]), Unread>
    ensures { Gives (λ x. (x.0, x.1.now)) result (skipped_at piece close.now pair.0 pair.1 chars.now) }
{
    let Some(len) = until(close, chars) else {
        return Err(Unread::Absent);
    };
    if !lacks_pair(pair.0, pair.1, &chars[..len]) {
        return Err(Unread::Absent);
    }
    Ok((piece, &chars[len + close.len()..]))
}

/// The instruction at the front, behind its `<?`.
pub fn instruction_at(chars: &[char]) -> Result<(Piece, &[char]), Unread>
    ensures { Gives (λ x. (x.0, x.1.now)) result (skipped_at Instruction (codes "?>") 63 62 chars.now) }
{
    skipped_at(Piece::Instruction, &['?', '>'], ('?', '>'), chars)
}

/// The comment at the front, behind its `<!`.
#[tactic(auto, unfolding(crate::specs::Reading::comment_at))]
pub fn comment_at(chars: &[char]) -> Result<(Piece, &[char]), Unread>
    ensures { Gives (λ x. (x.0, x.1.now)) result (comment_at chars.now) }
{
    match chars {
        ['-', '-', rest @ ..] => skipped_at(Piece::Comment, &['-', '-', '>'], ('-', '-'), rest),
        _ => Err(Unread::Absent),
    }
}
