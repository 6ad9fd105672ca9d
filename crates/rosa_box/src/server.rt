//! The server as a function of what it has and of a request.
ghost use Rattle.std.specs.Prelude.{◌≡◌, None, IfOk, OnErr};
ghost use Rattle.rosa_box.specs.Kept.{kept_under};
ghost use Rattle.rosa_box.specs.Served.{Leaves, Serves, served, submitted};

use crate::asked::{Asked, read_asked};
use crate::reply::{Status, reply_text};
use crate::state::kept_under;
use crate::{BoxKept, BoxState};
use field_text::{Blob, NoMemory};
use std::alloc::Global;

// Keeps a document under an id that is new.
fn keep(alloc: Global, state: &mut BoxState, new: BoxKept) -> Result<Blob, NoMemory>
    ensures kept { IfOk result (Leaves (submitted state.old new None) state.new) }
    ensures unchanged { OnErr result (state.new ≡ state.old) }
{
    let reply = reply_text(alloc, Status::Created)?;
    state.kept.push(new)?;
    Ok(reply)
}

fn submit(alloc: Global, state: &mut BoxState, new: BoxKept) -> Result<Blob, NoMemory>
    ensures submitted { IfOk result
        (Leaves (submitted state.old new (kept_under new.instance_id state.old.kept)) state.new) }
    ensures unchanged { OnErr result (state.new ≡ state.old) }
{
    let Some(old) = kept_under(state.kept.as_slice(), &new.instance_id) else {
        return keep(alloc, state, new);
    };
    if old.bytes.bytes() == new.bytes.bytes() {
        return reply_text(alloc, Status::Created);
    }
    reply_text(alloc, Status::Conflict)
}

fn answer(alloc: Global, state: &mut BoxState, asked: Asked) -> Result<Blob, NoMemory>
    ensures served { IfOk result (Leaves (served state.old asked) state.new) }
    ensures unchanged { OnErr result (state.new ≡ state.old) }
{
    match asked {
        Asked::Unreadable => reply_text(alloc, Status::BadRequest),
        Asked::Elsewhere => reply_text(alloc, Status::NotFound),
        Asked::OtherMethod => reply_text(alloc, Status::MethodNotAllowed),
        Asked::Nothing => reply_text(alloc, Status::BadRequest),
        Asked::Submission(new) => submit(alloc, state, new),
    }
}

/// The reply to a request, as bytes (OpenRosa Form Submission API 1.0): 400 where it can't be read, 404 where its
/// target isn't `/submission`, 405 where its method isn't POST. A submission is answered 400 where it has no document
/// with an instance id, 201 where the id is new, and the document is then kept, or the same bytes are kept under it,
/// and else 409. It is refused for want of memory alone, and then nothing has changed.
pub fn serve(alloc: Global, state: &mut BoxState, request: &[u8]) -> Result<Blob, NoMemory>
    ensures served { IfOk result (Serves state.old request.now state.new) }
    ensures unchanged { OnErr result (state.new ≡ state.old) }
{
    let asked = read_asked(alloc, request)?;
    answer(alloc, state, asked)
}
