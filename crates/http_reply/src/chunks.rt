//! Bodies in chunks (RFC 9112, section 7.1).
ghost use Rattle.std.specs.Prelude.{◌≡◌, ◌<◌, ◌≤◌, length, drop, IfOk, count_by, ◌==◌};
ghost use Rattle.http_reply.specs.Chunks.{HasSize};
ghost use Rattle.http_reply.specs.Found.{IsLineEnd, AreTrailers, IsChunk, ReadsContent, CopiesContent};

use crate::cut::behind;
use crate::head::Piece;
use field_text::{Blob, NoMemory};
use httparse::spans::{EMPTY_HEADER_SPAN, parse_headers};
use httparse::{Status, parse_chunk_size};
use std::alloc::Global;

/// Trailers with more fields aren't read.
const MOST_TRAILERS: usize = 16;

/// A chunk in the bytes at whose front it stands.
#[derive(Clone, Copy, Debug, PartialEq, Eq)]
pub(crate) enum Chunk {
    /// Its data lies from `start` to `end`, and what is behind it begins at `len`.
    Data {
        start: usize,
        end: usize,
        len: usize,
    },
    /// The last chunk and the trailers, with what is behind them from `len` on.
    Last {
        len: usize,
    },
}

// CR LF at the front.
fn line_end(bytes: &[u8]) -> Piece<()>
    ensures { IsLineEnd bytes.now result }
{
    let Some((first, others)) = bytes.split_first() else {
        return Piece::Short;
    };
    if *first != b'\r' {
        return Piece::Bad;
    }
    let Some((second, _)) = others.split_first() else {
        return Piece::Short;
    };
    if *second != b'\n' {
        return Piece::Bad;
    }
    Piece::Whole(())
}

// The trailers and the empty line behind them, and where they end.
fn trailers(bytes: &[u8]) -> Piece<usize>
    ensures { AreTrailers bytes.now result }
{
    let mut spans = [EMPTY_HEADER_SPAN; MOST_TRAILERS];
    match parse_headers(bytes, &mut spans) {
        Ok(Status::Complete((len, _))) => Piece::Whole(len),
        Ok(Status::Partial) => {
            if line_count(bytes) <= MOST_TRAILERS {
                Piece::Short
            } else {
                Piece::Bad
            }
        }
        Err(_) => Piece::Bad,
    }
}

fn line_count(bytes: &[u8]) -> usize
    ensures { result ≡ count_by (λ b. b == 10) bytes.now }
{
    bytes.iter().filter(|b| **b == b'\n').count()
}

// The line end behind data of this size.
fn data_end(rest: &[u8], size: usize) -> Piece<()>
    requires { size ≤ length rest.now }
    ensures { IsLineEnd (drop size rest.now) result }
{
    line_end(behind(rest, size))
}

// The chunk of this size whose line ends at `start`.
fn sized_chunk(bytes: &[u8], start: usize, size: u64) -> Piece<Chunk>
    requires within { start ≤ length bytes.now }
    requires some { 0 < size }
    requires sized { HasSize bytes.now size (drop start bytes.now) }
    ensures { IsChunk bytes.now result }
{
    let rest = behind(bytes, start);
    if (rest.len() as u64) < size {
        return Piece::Short;
    }
    let size = size as usize;
    match data_end(rest, size) {
        Piece::Whole(()) => {
            let end = start + size;
            Piece::Whole(Chunk::Data {
                start,
                end,
                len: end + 2,
            })
        }
        Piece::Short => Piece::Short,
        Piece::Bad => Piece::Bad,
    }
}

// The last chunk, whose line ends at `start`.
fn last_chunk(bytes: &[u8], start: usize) -> Piece<Chunk>
    requires within { start ≤ length bytes.now }
    requires sized { HasSize bytes.now 0 (drop start bytes.now) }
    ensures { IsChunk bytes.now result }
{
    match trailers(behind(bytes, start)) {
        Piece::Whole(len) => Piece::Whole(Chunk::Last { len: start + len }),
        Piece::Short => Piece::Short,
        Piece::Bad => Piece::Bad,
    }
}

// The chunk at the front.
fn next_chunk(bytes: &[u8]) -> Piece<Chunk>
    ensures { IsChunk bytes.now result }
{
    match parse_chunk_size(bytes) {
        Ok(Status::Complete((start, size))) => {
            if size == 0 {
                last_chunk(bytes, start)
            } else {
                sized_chunk(bytes, start, size)
            }
        }
        Ok(Status::Partial) => Piece::Short,
        Err(_) => Piece::Bad,
    }
}

/// Whether the body is whole.
pub(crate) fn read_chunks(bytes: &[u8]) -> Piece<()>
    ensures { ReadsContent bytes.now result }
{
    let mut at = 0;
    loop {
        let chunk = match next_chunk(behind(bytes, at)) {
            Piece::Whole(chunk) => chunk,
            Piece::Short => return Piece::Short,
            Piece::Bad => return Piece::Bad,
        };
        match chunk {
            Chunk::Data {
                start: _,
                end: _,
                len,
            } => at += len,
            Chunk::Last { .. } => return Piece::Whole(()),
        }
    }
}

/// The data of all chunks, where the body is whole.
pub(crate) fn collect_chunks(alloc: Global, bytes: &[u8]) -> Result<Option<Blob>, NoMemory>
    ensures { IfOk result (CopiesContent bytes.now) }
{
    let mut out = Vec::new(alloc);
    let mut at = 0;
    loop {
        let rest = behind(bytes, at);
        let chunk = match next_chunk(rest) {
            Piece::Whole(chunk) => chunk,
            Piece::Short | Piece::Bad => return Ok(None),
        };
        match chunk {
            Chunk::Data { start, end, len } => {
                out.extend_from_slice(&rest[start..end])?;
                at += len;
            }
            Chunk::Last { .. } => return Ok(Some(Blob::from_vec(out))),
        }
    }
}
