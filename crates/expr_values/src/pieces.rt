ghost use Rattle.std.specs.Prelude.{◌≡◌, ◌<◌, ◌+◌, ◌∷◌, [], length, MatchOption, IfSome, position, ◌==◌};
ghost use Rattle.expr_values.specs.Functions.{cut_at_spaces, is_piece as is_this_piece};

fn first_space(text: &[u8]) -> Option<usize>
    ensures { result ≡ position (λ byte. byte == 32) text.now }
{
    text.iter().position(|byte| *byte == b' ')
}

/// What stands before the first space, and behind it.
pub fn split_piece(text: &[u8]) -> Option<(&[u8], &[u8])>
    ensures parts { MatchOption result (cut_at_spaces text.now ≡ text.now ∷ []) (λ x. cut_at_spaces text.now
        ≡ x.0.now ∷ cut_at_spaces x.1.now) }
    ensures shorter { IfSome result (λ x. length x.0.now + length x.1.now < length text.now) }
{
    match first_space(text) {
        Some(place) => Some((&text[..place], &text[place + 1..])),
        None => None,
    }
}

/// Whether a part is the piece, and not empty.
pub fn is_piece(part: &[u8], piece: &[u8]) -> bool
    ensures { result ≡ is_this_piece piece.now part.now }
{
    !part.is_empty() && part == piece
}
