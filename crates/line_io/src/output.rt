ghost use Rattle.field_io.specs.Causes.{HasCause};
ghost use Rattle.line_io.specs.Output.{PutsText};

use field_io::{Failed, Sink};

/// Puts all of the bytes. A failure may leave the sink with a part of them.
pub fn put_all<Si: Sink>(sink: &mut Si, bytes: &[u8]) -> Result<(), Failed>
    ensures puts { PutsText (Si.held sink.old) (Si.held sink.new) result bytes.now }
    ensures cause { HasCause (Si.faults sink.old) (Si.faults sink.new) result }
{
    let mut rest = bytes;
    while !rest.is_empty() {
        let count = sink.put(rest)?;
        rest = &rest[count..];
    }
    Ok(())
}
