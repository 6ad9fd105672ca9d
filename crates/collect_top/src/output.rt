ghost use Rattle.std.specs.Prelude.{◌≡◌, ◌++◌};
ghost use Rattle.field_io.specs.Causes.{HasCause};
ghost use Rattle.line_io.specs.Output.{PutsText};
ghost use Rattle.collect_top.specs.Stop.{fault_line, status_text, place_text};

use crate::Stop;
use collect_script::ScriptStop;
use device_core::OpenFault;
use field_io::{Failed, Sink};
use itoa::Buffer;
use line_io::put_all;

fn put_both<Si: Sink>(sink: &mut Si, first: &[u8], second: &[u8]) -> Result<(), Failed>
    ensures puts { PutsText (Si.held sink.old) (Si.held sink.new) result (first.now ++ second.now) }
    ensures cause { HasCause (Si.faults sink.old) (Si.faults sink.new) result }
{
    put_all(sink, first)?;
    put_all(sink, second)
}

// What the line of a stop has behind the status.
fn put_place<Si: Sink>(sink: &mut Si, stop: Stop) -> Result<(), Failed>
    ensures puts { PutsText (Si.held sink.old) (Si.held sink.new) result (place_text stop) }
    ensures cause { HasCause (Si.faults sink.old) (Si.faults sink.new) result }
{
    let mut digits = Buffer::new();
    match stop {
        Stop::Opening(OpenFault::BadJournal { at }) => put_both(
            sink,
            b" at ",
            digits.format(at).as_bytes(),
        ),
        Stop::Opening(OpenFault::BadEntry { position })
        | Stop::Opening(OpenFault::IllegalEntry { position }) => {
            put_both(sink, b" entry ", digits.format(position).as_bytes())
        }
        Stop::Opening(OpenFault::Full { length })
        | Stop::Script(ScriptStop::JournalFull { length }) => {
            put_both(sink, b" length ", digits.format(length).as_bytes())
        }
        _ => put_all(sink, b""),
    }
}

fn put_status<Si: Sink>(sink: &mut Si, stop: Stop) -> Result<(), Failed>
    ensures puts { PutsText (Si.held sink.old) (Si.held sink.new) result (status_text stop) }
    ensures cause { HasCause (Si.faults sink.old) (Si.faults sink.new) result }
{
    let mut digits = Buffer::new();
    put_both(sink, b"fault ", digits.format(stop.status()).as_bytes())
}

/// Puts the line of a stop. It takes no memory.
pub fn put_fault<Si: Sink>(sink: &mut Si, stop: Stop) -> Result<(), Failed>
    ensures puts { PutsText (Si.held sink.old) (Si.held sink.new) result (fault_line stop) }
    ensures cause { HasCause (Si.faults sink.old) (Si.faults sink.new) result }
{
    put_status(sink, stop)?;
    put_place(sink, stop)?;
    put_all(sink, b"\n")
}
