ghost use Rattle.std.specs.Prelude.{◌≡◌, None, Some, IfSome, if◌then◌else◌};

use crate::failures::Failures;
use crate::remaining::Remaining;
use crate::{Failed, Sink, Source};

/// A source over bytes in memory. The calls whose numbers are listed fail, counted from 1.
#[derive(Debug, Drop)]
pub struct MemSource {
    bytes: Remaining,
    failures: Failures,
}

impl MemSource {
    pub fn make(bytes: Vec<u8>, fails: Vec<u64>) -> MemSource
        ensures left { ⟦<MemSource as Source>⟧.left result ≡ Some bytes.items }
        ensures faults { ⟦<MemSource as Source>⟧.faults result ≡ 0 }
    {
        MemSource {
            bytes: Remaining::new(bytes),
            failures: Failures::new(fails),
        }
    }
}

impl Source for MemSource {
    ghost left = { λ s. Some s.bytes };

    ghost faults = { λ s. s.failures.faults };

    fn take(&mut self, buf: &mut [u8]) -> Result<usize, Failed> {
        self.failures.call()?;
        Ok(self.bytes.take(buf))
    }
}

/// A sink that keeps what goes out. The calls whose numbers are listed fail, counted from 1, and a call fails where
/// memory runs out: from then on the sink tells nothing of its content.
#[derive(Debug, Drop)]
pub struct MemSink {
    bytes: Vec<u8>,
    is_told: bool,
    failures: Failures,
}

impl MemSink {
    pub fn make(bytes: Vec<u8>, fails: Vec<u64>) -> MemSink
        ensures held { ⟦<MemSink as Sink>⟧.held result ≡ Some bytes.items }
        ensures faults { ⟦<MemSink as Sink>⟧.faults result ≡ 0 }
    {
        MemSink {
            bytes,
            is_told: true,
            failures: Failures::new(fails),
        }
    }

    pub fn bytes(&self) -> &[u8]
        ensures { IfSome (⟦<MemSink as Sink>⟧.held self.now) (λ held. result.now ≡ held) }
    {
        self.bytes.as_slice()
    }
}

impl Sink for MemSink {
    ghost held = { λ s. if s.is_told then Some s.bytes.items else None };

    ghost faults = { λ s. s.failures.faults };

    fn put(&mut self, bytes: &[u8]) -> Result<usize, Failed> {
        self.failures.call()?;
        match self.bytes.extend_from_slice(bytes) {
            Ok(()) => Ok(bytes.len()),
            Err(_) => {
                self.is_told = false;
                Err(self.failures.fault())
            }
        }
    }
}
