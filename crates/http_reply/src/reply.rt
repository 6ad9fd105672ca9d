ghost use Rattle.std.specs.Prelude.{◌≡◌, IfOk, length};
ghost use Rattle.http_reply.specs.Found as spec;
ghost use Rattle.http_reply.specs.Found.{IsOutcome};
ghost use Rattle.http_reply.specs.Replies.{Reply, IsReply, class_of, is_framed as reply_framed, whole_body};

use crate::body::{MOST_KEPT, copy_body, read_body};
use crate::cut::behind;
use crate::head::{Piece, final_head};
use field_text::{Blob, NoMemory};
use std::alloc::Global;

/// What is known of a reply.
#[derive(Clone, Copy, Debug, PartialEq, Eq)]
pub enum Class {
    /// Head and body are complete.
    Whole,
    /// Bytes are missing.
    Short,
    /// No bytes behind it can make it right.
    Bad,
    /// Bytes are missing, and as many stand as are kept.
    TooLong,
}

/// The class and the status of a reply. The status is 0 without a final head.
#[derive(Clone, Copy, Debug, PartialEq, Eq)]
pub struct ReplyView {
    pub class: Class,
    pub status: u16,
}

// What the bytes are as a reply.
#[derive(Clone, Copy, Debug, PartialEq, Eq)]
struct Outcome {
    status: u16,
    body: Piece<()>,
    has_end: bool,
}

fn read_outcome(bytes: &[u8]) -> Outcome
    ensures { IsOutcome bytes.now result }
{
    let body = match final_head(bytes) {
        Piece::Whole(head) => {
            return Outcome {
                status: head.status,
                body: read_body(head.framing, bytes.len(), behind(bytes, head.len)),
                has_end: head.framing.has_own_end(),
            };
        }
        Piece::Short => Piece::Short,
        Piece::Bad => Piece::Bad,
    };
    Outcome {
        status: 0,
        body,
        has_end: true,
    }
}

// The class of a reply of so many bytes.
fn class_in(total: usize, body: Piece<()>) -> Class
    ensures { result ≡ spec.class_in total body }
{
    match body {
        Piece::Whole(()) => Class::Whole,
        Piece::Bad => Class::Bad,
        Piece::Short => {
            if MOST_KEPT <= total {
                Class::TooLong
            } else {
                Class::Short
            }
        }
    }
}

/// The class and the status of these bytes as a reply.
pub fn read_reply(bytes: &[u8]) -> ReplyView
    ensures { (reply : Reply) × IsReply bytes.now reply × (result.status ≡ reply.status)
        × (result.class ≡ class_of (length bytes.now) reply.body) }
{
    let outcome = read_outcome(bytes);
    ReplyView {
        class: class_in(bytes.len(), outcome.body),
        status: outcome.status,
    }
}

/// Whether the class stands whatever comes behind: the reply is bad, or its length or chunks say that it is whole.
pub fn is_framed(bytes: &[u8]) -> bool
    ensures { (reply : Reply) × IsReply bytes.now reply × (result ≡ reply_framed reply) }
{
    let outcome = read_outcome(bytes);
    ends_reply(outcome.has_end, outcome.body)
}

fn ends_reply(has_end: bool, body: Piece<()>) -> bool
    ensures { result ≡ spec.ends_in has_end body }
{
    match body {
        Piece::Whole(()) => has_end,
        Piece::Bad => true,
        Piece::Short => false,
    }
}

/// The body of a reply that is whole.
pub fn body_of(alloc: Global, bytes: &[u8]) -> Result<Option<Blob>, NoMemory>
    ensures { IfOk result (λ body. (reply : Reply) × IsReply bytes.now reply × (body ≡ whole_body reply.body)) }
{
    match final_head(bytes) {
        Piece::Whole(head) => {
            let body = copy_body(alloc, head.framing, bytes.len(), behind(bytes, head.len))?;
            Ok(body)
        }
        Piece::Short => Ok(None),
        Piece::Bad => Ok(None),
    }
}
