//! One exchange with a server.
ghost use Rattle.std.specs.Prelude.{◌≡◌, ◌≢◌, ◌≤◌, false, length, take, IfOk};
ghost use Rattle.http_exchange.specs.Carrying.{front_in};
ghost use Rattle.http_exchange.specs.Exchange.{Carries, Exchanges};

use crate::carry::{room, send_all, take_reply};
use field_io::{Dialer, Failed, Stage};
use field_text::{Blob, NoMemory, Text};
use http_reply::MOST_KEPT;
use std::alloc::Global;

/// How an exchange went.
#[derive(Debug, Drop)]
pub enum Got {
    /// The bytes that were taken.
    Reply(Blob),
    /// The call that failed.
    Fault(Stage),
    /// Nothing was dialed.
    NoMemory,
}

// Dials, sends, and takes into the room. Answers how many bytes stand there.
fn carry<N: Dialer>(
    dialer: &mut N,
    authority: &Text,
    request: &[u8],
    room: &mut [u8],
) -> Result<usize, Stage>
    requires { length room.old ≡ MOST_KEPT }
    ensures carries { Carries authority.now request.now
        (record { carried = N.carried dialer.old; faults = N.faults dialer.old; ends = N.ends dialer.old })
        (record { carried = N.carried dialer.new; faults = N.faults dialer.new; ends = N.ends dialer.new })
        (front_in room.new result) }
    ensures within { IfOk result (λ len. len ≤ length room.new) }
    ensures peer { N.peer dialer.new ≡ N.peer dialer.old }
{
    match dialer.dial(authority) {
        Ok(()) => {}
        Err(Failed) => return Err(Stage::Dial),
    }
    match send_all(dialer, request) {
        Ok(()) => {}
        Err(Failed) => return Err(Stage::Send),
    }
    match take_reply(dialer, room) {
        Ok(len) => Ok(len),
        Err(Failed) => Err(Stage::Take),
    }
}

fn into_front(mut room: Vec<u8>, len: usize) -> Blob
    ensures { result ≡ take len room.items }
{
    room.truncate(len);
    Blob::from_vec(room)
}

/// Dials the authority, sends the whole request, takes until the reply is framed, 300,000 bytes stand or the end comes,
/// and hangs up in every case (RFC 9112, section 9). Memory is taken before anything is dialed.
pub fn exchange<N: Dialer>(alloc: Global, dialer: &mut N, authority: &Text, request: &[u8]) -> Got
    ensures exchanges { Exchanges authority.now request.now
        (record { carried = N.carried dialer.old; faults = N.faults dialer.old; ends = N.ends dialer.old })
        (record { carried = N.carried dialer.new; faults = N.faults dialer.new; ends = N.ends dialer.new }) result }
    ensures untouched { result ≡ Got.NoMemory → dialer.new ≡ dialer.old }
    ensures closed { result ≢ Got.NoMemory → N.is_open dialer.new ≡ false }
    ensures peer { N.peer dialer.new ≡ N.peer dialer.old }
{
    let Ok(mut room) = room(alloc, MOST_KEPT) else {
        return Got::NoMemory;
    };
    let carried = carry(dialer, authority, request, &mut room);
    dialer.hang_up();
    match carried {
        Ok(len) => Got::Reply(into_front(room, len)),
        Err(stage) => Got::Fault(stage),
    }
}
