ghost use Rattle.std.specs.Prelude.{◌≡◌, ◌+◌, ◌≤◌, [], false, length, Some, IfSome};
ghost use Rattle.rosa_box.specs.Carried.{Leads};

use crate::BoxState;
use crate::calls::Calls;
use crate::session::Session;
use field_io::{Dialer, Failed};
use field_text::{Items, NoMemory, Text};
use std::alloc::Global;

/// A server in memory as the peer of a dialer: what is taken in an exchange is what `serve` answers to the bytes that
/// were sent in it. The calls whose numbers are listed fail, counted from 1 over all calls but `hang_up`, and so does a
/// call where memory runs out: from then on the dialer tells nothing of its exchanges.
#[derive(Debug, Drop)]
pub struct BoxDialer {
    session: Session,
    calls: Calls,
    ends: u64,
}

impl BoxDialer {
    ghost use Rattle.rosa_box.specs.Dialing.{state_of};

    /// Takes no memory yet.
    pub fn make(alloc: Global, state: BoxState, fails: Vec<u64>) -> BoxDialer
        ensures peer { ⟦<BoxDialer as Dialer>⟧.peer result ≡ record { state = state; fails = fails.items } }
        ensures state { state_of result ≡ state }
        ensures carried { ⟦<BoxDialer as Dialer>⟧.carried result ≡ Some [] }
        ensures faults { ⟦<BoxDialer as Dialer>⟧.faults result ≡ 0 }
        ensures ends { ⟦<BoxDialer as Dialer>⟧.ends result ≡ 0 }
        ensures closed { ⟦<BoxDialer as Dialer>⟧.is_open result ≡ false }
    {
        BoxDialer {
            session: Session::new(alloc, state),
            calls: Calls::new(Items::from_vec(fails)),
            ends: 0,
        }
    }

    /// What the server has behind all exchanges.
    pub fn state(&self) -> &BoxState
        ensures state { result.now ≡ state_of self.now }
        ensures leads { IfSome (⟦<BoxDialer as Dialer>⟧.carried self.now)
            (λ xs. Leads (⟦<BoxDialer as Dialer>⟧.peer self.now).state xs result.now) }
    {
        self.session.state()
    }

    /// How many calls have failed for want of memory; each other fault is one of the list.
    pub fn starved(&self) -> u64
        ensures least { result ≤ ⟦<BoxDialer as Dialer>⟧.faults self.now }
        ensures listed { ⟦<BoxDialer as Dialer>⟧.faults self.now
            ≤ result + length (⟦<BoxDialer as Dialer>⟧.peer self.now).fails }
    {
        self.calls.starved
    }
}

impl Dialer for BoxDialer {
    ghost use Rattle.rosa_box.specs.Dialing.{BoxPeer};

    ghost Peer = { BoxPeer };

    ghost peer = { λ d. record { state = d.session.start; fails = d.calls.fails } };

    ghost carried = { λ d. d.session.carried };

    ghost faults = { λ d. d.calls.faults };

    ghost ends = { λ d. d.ends };

    ghost is_open = { λ d. d.session.is_open };

    ghost has_taken = { λ d. d.session.has_taken };

    fn dial(&mut self, authority: &Text) -> Result<(), Failed> {
        let reached = self.calls.call();
        if self.session.dialed(authority, reached).is_err() {
            return Err(self.calls.starve());
        }
        reached
    }

    fn send(&mut self, bytes: &[u8]) -> Result<usize, Failed> {
        let count = match self.calls.call() {
            Ok(()) => Ok(bytes.len()),
            Err(Failed) => Err(Failed),
        };
        if self.session.sent(bytes, count).is_err() {
            return Err(self.calls.starve());
        }
        count
    }

    fn take(&mut self, buf: &mut [u8]) -> Result<usize, Failed> {
        let call = self.calls.call();
        let Ok(count) = self.session.take(buf, call) else {
            return Err(self.calls.starve());
        };
        if count == Ok(0) {
            self.ends = self.ends.saturating_add(1);
        }
        count
    }

    fn hang_up(&mut self) {
        self.session.hang_up();
    }
}
