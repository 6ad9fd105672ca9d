ghost use Rattle.std.specs.Prelude.{◌≡◌, None, Some};

use crate::remaining::Remaining;
use crate::replies::Replies;
use crate::{Dialer, Failed, Sink, Source};
use field_text::Text;

/// A source over bytes in memory that never fails.
#[derive(Debug, Drop)]
pub struct CalmSource {
    bytes: Remaining,
}

impl CalmSource {
    pub fn make(bytes: Vec<u8>) -> CalmSource
        ensures { ⟦<CalmSource as Source>⟧.left result ≡ Some bytes.items }
    {
        CalmSource {
            bytes: Remaining::new(bytes),
        }
    }
}

impl Source for CalmSource {
    ghost left = { λ s. Some s.bytes };

    ghost faults = { λ _. 0 };

    fn take(&mut self, buf: &mut [u8]) -> Result<usize, Failed> {
        Ok(self.bytes.take(buf))
    }
}

/// A sink that takes everything, keeps nothing and never fails.
#[derive(Debug, Drop)]
pub struct CalmSink {}

impl CalmSink {
    pub fn make() -> CalmSink {
        CalmSink {}
    }
}

impl Sink for CalmSink {
    ghost held = { λ _. None };

    ghost faults = { λ _. 0 };

    fn put(&mut self, bytes: &[u8]) -> Result<usize, Failed> {
        Ok(bytes.len())
    }
}

/// A peer in memory with one canned reply for each exchange, past which it gives the end at once. It never fails,
/// keeps nothing of what is sent, and tells nothing of its exchanges.
#[derive(Debug, Drop)]
pub struct CalmDialer {
    replies: Replies,
    ends: u64,
    is_open: bool,
    has_taken: bool,
}

impl CalmDialer {
    pub fn make(replies: Vec<Vec<u8>>) -> CalmDialer {
        CalmDialer {
            replies: Replies::new(replies),
            ends: 0,
            is_open: false,
            has_taken: false,
        }
    }
}

impl Dialer for CalmDialer {
    ghost Peer = { Unit {0} };

    ghost peer = { λ _. tt };

    ghost carried = { λ _. None };

    ghost faults = { λ _. 0 };

    ghost ends = { λ d. d.ends };

    ghost is_open = { λ d. d.is_open };

    ghost has_taken = { λ d. d.has_taken };

    fn dial(&mut self, _authority: &Text) -> Result<(), Failed> {
        self.replies.dial();
        self.is_open = true;
        self.has_taken = false;
        Ok(())
    }

    fn send(&mut self, bytes: &[u8]) -> Result<usize, Failed> {
        Ok(bytes.len())
    }

    fn take(&mut self, buf: &mut [u8]) -> Result<usize, Failed> {
        self.has_taken = true;
        let count = self.replies.take(buf);
        if count == 0 {
            self.ends = self.ends.saturating_add(1);
        }
        Ok(count)
    }

    fn hang_up(&mut self) {
        self.is_open = false;
    }
}
