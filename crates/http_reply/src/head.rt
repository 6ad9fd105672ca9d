//! Heads of replies, and the final one among them.
ghost use Rattle.std.specs.Prelude.{◌≡◌, ◌&&◌, nat_le, nat_lt};
ghost use Rattle.http_reply.specs.Heads as spec;
ghost use Rattle.http_reply.specs.Found.{IsHead, IsFinalHead};

use crate::Framing;
use crate::cut::behind;
use crate::fields::FieldList;
use crate::framing::reply_framing;
use httparse::Status;
use httparse::spans::{EMPTY_HEADER_SPAN, parse_response};

/// A head with more fields isn't read.
const MOST_FIELDS: usize = 64;

/// What bytes are of a piece: it stands whole at their front, or bytes must follow, or none can help.
#[derive(Clone, Copy, Debug, PartialEq, Eq)]
pub(crate) enum Piece<T> {
    Whole(T),
    Short,
    Bad,
}

/// What a head says of its reply, and where it ends.
#[derive(Clone, Copy, Debug, PartialEq, Eq)]
pub(crate) struct Head {
    pub(crate) len: usize,
    pub(crate) status: u16,
    pub(crate) framing: Framing,
}

impl Head {
    fn is_interim(&self) -> bool
        ensures { result ≡ (nat_le 100 self.now.status && nat_lt self.now.status 200) }
    {
        100 <= self.status && self.status < 200
    }
}

// How many lines are whole, but for the empty ones at the front.
fn whole_lines(bytes: &[u8]) -> usize
    ensures { result ≡ spec.whole_lines bytes.now }
{
    bytes
        .iter()
        .skip_while(|b| **b == b'\r' || **b == b'\n')
        .filter(|b| **b == b'\n')
        .count()
}

/// The head at the front.
fn read_head(bytes: &[u8]) -> Piece<Head>
    ensures { IsHead bytes.now result }
{
    let mut spans = [EMPTY_HEADER_SPAN; MOST_FIELDS];
    match parse_response(bytes, &mut spans) {
        Ok(Status::Complete(found)) => {
            let fields = FieldList::new(bytes, &spans[..found.headers]);
            Piece::Whole(Head {
                len: found.len,
                status: found.code,
                framing: reply_framing(found.code, &fields),
            })
        }
        Ok(Status::Partial) => {
            if whole_lines(bytes) <= MOST_FIELDS + 1 {
                Piece::Short
            } else {
                Piece::Bad
            }
        }
        Err(_) => Piece::Bad,
    }
}

/// The first head that isn't interim.
pub(crate) fn final_head(bytes: &[u8]) -> Piece<Head>
    ensures { IsFinalHead bytes.now result }
{
    let mut at = 0;
    loop {
        let head = match read_head(behind(bytes, at)) {
            Piece::Whole(head) => head,
            Piece::Short => return Piece::Short,
            Piece::Bad => return Piece::Bad,
        };
        let end = at + head.len;
        if !head.is_interim() {
            return Piece::Whole(Head { len: end, ..head });
        }
        at = end;
    }
}
