//! The parts of an exchange.
ghost use Rattle.std.specs.Prelude.{◌≡◌, ◌≤◌, ◌<◌, ◌+◌, true, false, length, take, drop, Ok, IfOk};
ghost use Rattle.field_io.specs.Causes.{CountsWhere, HasCause};
ghost use Rattle.field_io.specs.Exchanges.{Makes, change_last, taken_on};
ghost use Rattle.http_exchange.specs.Carrying.{IsDoneAs, Sends, Takes};
ghost use Rattle.http_exchange.specs.Exchange.{DialerView};

use field_io::{Dialer, Failed};
use field_text::NoMemory;
use http_reply::{MOST_KEPT, is_framed};
use std::alloc::Global;

/// Sends all of the request.
pub(crate) fn send_all<N: Dialer>(dialer: &mut N, request: &[u8]) -> Result<(), Failed>
    requires open { N.is_open dialer.old ≡ true }
    requires fresh { N.has_taken dialer.old ≡ false }
    ensures sends { Sends request.now
        (record { carried = N.carried dialer.old; faults = N.faults dialer.old; ends = N.ends dialer.old })
        (record { carried = N.carried dialer.new; faults = N.faults dialer.new; ends = N.ends dialer.new }) result }
    ensures open { N.is_open dialer.new ≡ true }
    ensures peer { N.peer dialer.new ≡ N.peer dialer.old }
{
    let mut rest = request;
    while !rest.is_empty() {
        let count = dialer.send(rest)?;
        rest = &rest[count..];
    }
    Ok(())
}

/// Room for a reply of so many bytes.
pub(crate) fn room(alloc: Global, size: usize) -> Result<Vec<u8>, NoMemory>
    ensures { IfOk result (λ room. length room.items ≡ size) }
{
    Ok(Vec::from_elem(alloc, 0, size)?)
}

// Whether no more of a reply is to be taken.
fn is_enough(taken: &[u8]) -> bool
    requires { length taken.now ≤ MOST_KEPT }
    ensures { IsDoneAs taken.now result }
{
    if taken.len() == MOST_KEPT {
        return true;
    }
    is_framed(taken)
}

fn front(room: &[u8], len: usize) -> &[u8]
    requires { len ≤ length room.now }
    ensures { result.now ≡ take len room.now }
{
    &room[..len]
}

// Takes into the room behind the bytes that stand there.
fn take_behind<N: Dialer>(dialer: &mut N, room: &mut [u8], len: usize) -> Result<usize, Failed>
    requires open { N.is_open dialer.old ≡ true }
    requires room { len < length room.old }
    ensures within { IfOk result (λ n. len + n ≤ length room.new) }
    ensures front { take len room.new ≡ take len room.old }
    ensures carried { Makes (N.carried dialer.old) (N.carried dialer.new)
        (change_last (taken_on (drop len room.new) result)) }
    ensures open { N.is_open dialer.new ≡ true }
    ensures peer { N.peer dialer.new ≡ N.peer dialer.old }
    ensures ends { CountsWhere (N.ends dialer.old) (N.ends dialer.new) (result ≡ Ok 0) }
    ensures cause { HasCause (N.faults dialer.old) (N.faults dialer.new) result }
{
    dialer.take(&mut room[len..])
}

/// Takes a reply into the room, until it is framed, or the room is full, or the end comes. Answers how many bytes
/// stand there.
pub(crate) fn take_reply<N: Dialer>(dialer: &mut N, room: &mut [u8]) -> Result<usize, Failed>
    requires open { N.is_open dialer.old ≡ true }
    requires room { length room.old ≡ MOST_KEPT }
    ensures takes { Takes room.new
        (record { carried = N.carried dialer.old; faults = N.faults dialer.old; ends = N.ends dialer.old })
        (record { carried = N.carried dialer.new; faults = N.faults dialer.new; ends = N.ends dialer.new }) result }
    ensures within { IfOk result (λ len. len ≤ length room.new) }
    ensures peer { N.peer dialer.new ≡ N.peer dialer.old }
{
    let mut len = 0;
    'takes: while !is_enough(front(room, len)) {
        let count = take_behind(dialer, room, len)?;
        if count == 0 {
            return Ok(len);
        }
        len += count;
    }
    Ok(len)
}
