ghost use Rattle.std.specs.Prelude.{◌≡◌, [], false, Some};
ghost use Rattle.field_io.specs.Causes.{HasCause};

use crate::failures::Failures;
use crate::replies::Replies;
use crate::{Dialer, ExchangeLog, Failed};
use field_text::Text;
use std::alloc::Global;

/// A peer in memory with one canned reply for each exchange. The calls whose numbers are listed fail, counted from 1
/// over all calls but `hang_up`; a dial past the last reply fails too, and so does a call where memory runs out: from
/// then on the dialer tells nothing of its exchanges.
#[derive(Debug, Drop)]
pub struct MemDialer {
    replies: Replies,
    failures: Failures,
    log: ExchangeLog,
    ends: u64,
    is_open: bool,
    has_taken: bool,
}

impl MemDialer {
    /// Takes no memory yet.
    pub fn make(alloc: Global, replies: Vec<Vec<u8>>, fails: Vec<u64>) -> MemDialer
        ensures carried { ⟦<MemDialer as Dialer>⟧.carried result ≡ Some [] }
        ensures faults { ⟦<MemDialer as Dialer>⟧.faults result ≡ 0 }
        ensures ends { ⟦<MemDialer as Dialer>⟧.ends result ≡ 0 }
        ensures closed { ⟦<MemDialer as Dialer>⟧.is_open result ≡ false }
    {
        MemDialer {
            replies: Replies::new(replies),
            failures: Failures::new(fails),
            log: ExchangeLog::new(alloc),
            ends: 0,
            is_open: false,
            has_taken: false,
        }
    }

    // Fails a dial that is listed or past the last reply.
    fn reached(&mut self) -> Result<(), Failed>
        ensures cause { HasCause self.old.failures.faults self.new.failures.faults result }
        ensures kept { self.new ≡ record self.old { failures = self.new.failures; replies = self.new.replies } }
    {
        let has_reply = self.replies.dial();
        self.failures.call()?;
        if has_reply {
            Ok(())
        } else {
            Err(self.failures.fault())
        }
    }
}

impl Dialer for MemDialer {
    ghost Peer = { Unit {0} };

    ghost peer = { λ _. tt };

    ghost carried = { λ d. d.log };

    ghost faults = { λ d. d.failures.faults };

    ghost ends = { λ d. d.ends };

    ghost is_open = { λ d. d.is_open };

    ghost has_taken = { λ d. d.has_taken };

    fn dial(&mut self, authority: &Text) -> Result<(), Failed> {
        self.has_taken = false;
        let reached = self.reached();
        let logged = self.log.dialed(authority, reached);
        self.is_open = reached.is_ok() && logged.is_ok();
        if logged.is_err() {
            return Err(self.failures.fault());
        }
        reached
    }

    fn send(&mut self, bytes: &[u8]) -> Result<usize, Failed> {
        let count = match self.failures.call() {
            Ok(()) => Ok(bytes.len()),
            Err(Failed) => Err(Failed),
        };
        if self.log.sent(bytes, count).is_err() {
            return Err(self.failures.fault());
        }
        count
    }

    fn take(&mut self, buf: &mut [u8]) -> Result<usize, Failed> {
        self.has_taken = true;
        let count = match self.failures.call() {
            Ok(()) => Ok(self.replies.take(buf)),
            Err(Failed) => Err(Failed),
        };
        if self.log.taken(buf, count).is_err() {
            return Err(self.failures.fault());
        }
        if count == Ok(0) {
            self.ends = self.ends.saturating_add(1);
        }
        count
    }

    fn hang_up(&mut self) {
        self.is_open = false;
    }
}
