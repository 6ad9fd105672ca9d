ghost use Rattle.std.specs.Prelude.{◌≡◌, ◌++◌, OnOk, string_bytes};
ghost use Rattle.std.specs.List.{flat_map};

use itoa::{Buffer, Integer};
use std::alloc::AllocError;

/// Appends texts, one behind the other.
pub fn push_all(out: &mut String, pieces: &[&str]) -> Result<(), AllocError>
    ensures { OnOk result (string_bytes out.new ≡ string_bytes out.old ++ flat_map (λ piece. piece.now) pieces.now) }
{
    for piece in pieces {
        out.push_str(piece)?;
    }
    Ok(())
}

/// Appends the decimal of a number.
pub fn push_number<N: Integer>(out: &mut String, number: N) -> Result<(), AllocError>
    ensures { OnOk result (string_bytes out.new ≡ string_bytes out.old ++ N.text number) }
{
    let mut buffer = Buffer::new();
    out.push_str(buffer.format(number))
}
