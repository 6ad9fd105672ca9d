ghost use Rattle.std.specs.Prelude.{◌<◌, List, ℕ, Option, None, length};
ghost use Rattle.field_io.specs.Causes.{HasCause};
ghost use Rattle.field_io.specs.Moves.{Puts};

use crate::Failed;
use std::io::Write;

/// Bytes that go out.
pub trait Sink {
    /// The bytes that went out, where the sink tells them.
    ghost held: { Self → Option (List ℕ) };

    /// How often a call has failed.
    ghost faults: { Self → ℕ };

    /// Appends the front of the bytes, and answers how many, at least one.
    fn put(&mut self, bytes: &[u8]) -> Result<usize, Failed>
        requires { 0 < length bytes.now }
        ensures moves { Puts (held self.old) (held self.new) result bytes.now }
        ensures cause { HasCause (faults self.old) (faults self.new) result };
}

/// Any writer of std, as the standard output. It tells nothing of its content. A writer that takes nothing has failed.
#[derive(Debug, Drop)]
pub struct StdSink<W> {
    writer: W,
    faults: u64,
}

impl<W: Write> StdSink<W> {
    pub fn new(writer: W) -> StdSink<W> {
        StdSink { writer, faults: 0 }
    }
}

impl<W: Write> Sink for StdSink<W> {
    ghost held = { λ _. None };

    ghost faults = { λ s. s.faults };

    fn put(&mut self, bytes: &[u8]) -> Result<usize, Failed> {
        if let Ok(count) = self.writer.write(bytes)
            && count > 0
        {
            return Ok(count);
        }
        self.faults = self.faults.saturating_add(1);
        Err(Failed)
    }
}
