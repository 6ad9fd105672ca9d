//! The body behind a head.
ghost use Rattle.std.specs.Prelude.{◌≡◌, ◌≢◌, ℕ, List, IfOk};
ghost use Rattle.http_reply.specs.Bodies.{ReadsBody};
ghost use Rattle.http_reply.specs.Replies.{whole_body};
ghost use Rattle.http_reply.specs.Reads.{Read};
ghost use Rattle.http_reply.specs.Found.{IsBody, piece_of};

use crate::Framing;
use crate::chunks::{collect_chunks, read_chunks};
use crate::head::Piece;
use field_text::{Blob, NoMemory};
use std::alloc::Global;

/// The most bytes of a reply that are kept.
pub const MOST_KEPT: usize = 300_000;

// The body of a message that isn't in chunks.
fn plain_body(framing: Framing, total: usize, bytes: &[u8]) -> Piece<&[u8]>
    requires { framing ≢ Framing.Chunked }
    ensures { IsBody framing total bytes.now result }
{
    match framing {
        Framing::Wrong => Piece::Bad,
        Framing::Nothing => Piece::Whole(&[]),
        Framing::Length(length) => {
            if length <= bytes.len() as u64 {
                Piece::Whole(&bytes[..length as usize])
            } else {
                Piece::Short
            }
        }
        Framing::ToEnd => {
            if total < MOST_KEPT {
                Piece::Whole(bytes)
            } else {
                Piece::Short
            }
        }
        Framing::Chunked => unreachable!(),
    }
}

/// Whether the body is whole in the bytes behind the head of a reply that has so many in all.
pub(crate) fn read_body(framing: Framing, total: usize, bytes: &[u8]) -> Piece<()>
    ensures { (found : Read (List ℕ)) × ReadsBody framing total bytes.now found × (result ≡ piece_of found) }
{
    if let Framing::Chunked = framing {
        return read_chunks(bytes);
    }
    match plain_body(framing, total, bytes) {
        Piece::Whole(_) => Piece::Whole(()),
        Piece::Short => Piece::Short,
        Piece::Bad => Piece::Bad,
    }
}

/// The body, where it is whole.
pub(crate) fn copy_body(
    alloc: Global,
    framing: Framing,
    total: usize,
    bytes: &[u8],
) -> Result<Option<Blob>, NoMemory>
    ensures { IfOk result (λ body. (found : Read (List ℕ)) × ReadsBody framing total bytes.now found
        × (body ≡ whole_body found)) }
{
    if framing == Framing::Chunked {
        return collect_chunks(alloc, bytes);
    }
    match plain_body(framing, total, bytes) {
        Piece::Whole(body) => Ok(Some(Blob::from_bytes(alloc, body)?)),
        Piece::Short | Piece::Bad => Ok(None),
    }
}
