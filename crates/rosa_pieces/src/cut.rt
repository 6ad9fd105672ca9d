ghost use Rattle.std.specs.Prelude.{◌≡◌, ◌++◌, ℕ, List, IfOk, IsErrOf};
ghost use Rattle.rosa_pieces.specs.declared.piece.Piece.{Piece as AnyPiece};
ghost use Rattle.rosa_pieces.specs.declared.unread.Unread.TheVariants.{Absent};
ghost use Rattle.rosa_pieces.specs.Pieces.{IsPiece};
ghost use Rattle.rosa_pieces.specs.Reading.{Gives, markup_at, piece_at};

use crate::skipped::{comment_at, instruction_at};
use crate::tags::{end_at, tag_piece_at};
use crate::values::data_at;
use crate::{Piece, Unread};
use std::alloc::Global;

/// The piece at the front, behind its `<`.
#[tactic(auto, unfolding(crate::specs::Reading::markup_at))]
fn markup_at(alloc: Global, chars: &[char]) -> Result<(Piece, &[char]), Unread>
    ensures { Gives (λ x. (x.0, x.1.now)) result (markup_at chars.now) }
{
    match chars {
        [] => Err(Unread::Absent),
        ['/', rest @ ..] => end_at(alloc, rest),
        ['!', rest @ ..] => comment_at(rest),
        ['?', rest @ ..] => instruction_at(rest),
        _ => tag_piece_at(alloc, chars),
    }
}

#[tactic(auto, unfolding(crate::specs::Reading::piece_at))]
fn any_piece_at(alloc: Global, chars: &[char]) -> Result<(Piece, &[char]), Unread>
    ensures { Gives (λ x. (x.0, x.1.now)) result (piece_at chars.now) }
{
    match chars {
        [] => Err(Unread::Absent),
        ['<', rest @ ..] => markup_at(alloc, rest),
        [_, ..] => match data_at(chars) {
            Some((data, rest)) => Ok((Piece::Data(data), rest)),
            None => Err(Unread::Absent),
        },
    }
}

/// The piece at the front, and what follows it.
pub fn piece_at(alloc: Global, chars: &[char]) -> Result<(Piece, &[char]), Unread>
    ensures found { IfOk result (λ x. (spelled : List ℕ) × IsPiece x.0 spelled × (chars.now ≡ spelled ++ x.1.now)) }
    ensures absent { IsErrOf result Absent → (p : AnyPiece) (spelled rest : List ℕ) → IsPiece p spelled
        → chars.now ≡ spelled ++ rest → ⊥ }
{
    any_piece_at(alloc, chars)
}

/// At one place one piece begins at most.
pub fn one_piece()
    ensures { (p q : AnyPiece) (x y r s : List ℕ) → IsPiece p x → IsPiece q y → x ++ r ≡ y ++ s → (p ≡ q) × (x ≡ y)
        × (r ≡ s) }
{}
