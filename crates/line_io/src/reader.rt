// The reader of a script. It takes blocks of the source, and gives a line as soon as it has it whole.
ghost use Rattle.std.specs.Prelude.{option_map, Ok, None, ◌<◌, ◌+◌, ◌≡◌, ◌≤◌, ◌∷◌, ◌++◌, [], ℕ, length, reverse};
ghost use Rattle.std.specs.Prelude.{true, false, IfOk, IfErr, OnOk};
ghost use Rattle.line_io.specs.Reader.{ReaderView, Input, IsKept, GivesNext, StopsReading};
ghost use Rattle.line_io.specs.Reading.{IsRoom, Fills, GivesByte, StopsByte};
ghost use Rattle.line_io.specs.Script.{most_bytes};

use crate::ReadStop;
use field_io::{Failed, Source};
use field_text::NoMemory;
use std::alloc::Global;
use std::marker::Model;

const MOST_BYTES: u64 = 16_777_216;

const LONGEST_LINE: usize = 8192;

const BLOCK: usize = 4096;

/// Reads a script line by line. It keeps no more than a block of bytes and one line.
#[derive(Drop)]
pub struct LineReader {
    // what was taken and isn't given, the next byte last
    rest: Vec<u8>,
    taken: u64,
    at_end: bool,
}

impl Model for LineReader {
    ghost Value = { ReaderView };

    ghost view = { λ r. record { rest = reverse r.rest.items; taken = r.taken; at_end = r.at_end } };

    ghost invariant = { λ r. r.taken ≤ most_bytes };
}

// How many bytes may be taken at once: one past the limit shows whether the script goes on there.
fn room(taken: u64) -> usize
    requires { taken ≤ most_bytes }
    ensures { IsRoom taken result }
{
    if taken == MOST_BYTES {
        return 1;
    }
    BLOCK.min((MOST_BYTES - taken) as usize)
}

fn push(line: &mut Vec<u8>, byte: u8) -> Result<(), NoMemory>
    ensures { OnOk result (line.new.items ≡ line.old.items ++ byte ∷ []) }
{
    line.push(byte)?;
    Ok(())
}

fn is_empty(line: &[u8]) -> bool
    ensures none { result ≡ true → line.now ≡ [] }
    ensures some { result ≡ false → 0 < length line.now }
{
    line.is_empty()
}

impl LineReader {
    /// A reader that has taken nothing.
    pub fn new(alloc: Global) -> LineReader
        ensures { result ≡ record { rest = []; taken = 0; at_end = false } }
    {
        LineReader {
            rest: Vec::new(alloc),
            taken: 0,
            at_end: false,
        }
    }

    // Keeps bytes that were taken, where nothing is left of those before.
    fn keep(&mut self, bytes: &[u8]) -> Result<(), NoMemory>
        requires empty { self.old.rest ≡ [] }
        requires within { self.old.taken + length bytes.now ≤ most_bytes }
        ensures { OnOk result (self.new ≡ record self.old
            { rest = bytes.now; taken = self.old.taken + length bytes.now }) }
    {
        self.rest.extend_from_slice(bytes)?;
        self.rest.reverse();
        self.taken += bytes.len() as u64;
        Ok(())
    }

    fn is_dry(&self) -> bool
        ensures dry { result ≡ true → self.now.rest ≡ [] }
        ensures wet { result ≡ false → 0 < length self.now.rest }
    {
        self.rest.is_empty()
    }

    // Takes the next block, where nothing is left of the last one.
    fn fill<So: Source>(&mut self, source: &mut So) -> Result<(), ReadStop>
        requires { IsKept self.old (record { left = So.left source.old; faults = So.faults source.old }) }
        ensures filled { OnOk result (Fills self.old self.new
            (record { left = So.left source.old; faults = So.faults source.old })
            (record { left = So.left source.new; faults = So.faults source.new })) }
        ensures stopped { IfErr result (StopsByte self.old
            (record { left = So.left source.old; faults = So.faults source.old })
            (record { left = So.left source.new; faults = So.faults source.new })) }
    {
        if self.at_end {
            return Ok(());
        }
        if !self.is_dry() {
            return Ok(());
        }
        let mut block = [0u8; BLOCK];
        let room = room(self.taken);
        match source.take(&mut block[..room]) {
            Ok(0) => {
                self.at_end = true;
                Ok(())
            }
            Ok(count) => {
                if self.taken == MOST_BYTES {
                    return Err(ReadStop::ScriptTooLong);
                }
                match self.keep(&block[..count]) {
                    Ok(()) => Ok(()),
                    Err(NoMemory) => Err(ReadStop::NoMemory),
                }
            }
            Err(Failed) => Err(ReadStop::ReadFault),
        }
    }

    fn next_byte<So: Source>(&mut self, source: &mut So) -> Result<Option<u8>, ReadStop>
        requires { IsKept self.old (record { left = So.left source.old; faults = So.faults source.old }) }
        ensures given { IfOk result (GivesByte self.old self.new
            (record { left = So.left source.old; faults = So.faults source.old })
            (record { left = So.left source.new; faults = So.faults source.new })) }
        ensures stopped { IfErr result (StopsByte self.old
            (record { left = So.left source.old; faults = So.faults source.old })
            (record { left = So.left source.new; faults = So.faults source.new })) }
    {
        self.fill(source)?;
        Ok(self.rest.pop())
    }

    /// The next line without its line feed, none at the end of the input. A line is given once its line feed has
    /// come: nothing behind it is taken before it was asked for, but for what came in one block with it.
    pub fn next_line<So: Source>(
        &mut self,
        alloc: Global,
        source: &mut So,
    ) -> Result<Option<Vec<u8>>, ReadStop>
        requires { IsKept self.old (record { left = So.left source.old; faults = So.faults source.old }) }
        ensures given { IfOk result (λ given. GivesNext self.old self.new
            (record { left = So.left source.old; faults = So.faults source.old })
            (record { left = So.left source.new; faults = So.faults source.new })
            (option_map (λ line. line.items) given)) }
        ensures ended { self.old.at_end ≡ true → result ≡ Ok None }
        ensures stopped { IfErr result (StopsReading self.old
            (record { left = So.left source.old; faults = So.faults source.old })
            (record { left = So.left source.new; faults = So.faults source.new })) }
    {
        if self.at_end {
            return Ok(None);
        }
        let mut line = Vec::new(alloc);
        'bytes: while let Some(byte) = self.next_byte(source)? {
            if byte == b'\n' {
                return Ok(Some(line));
            }
            if line.len() == LONGEST_LINE {
                return Err(ReadStop::LineTooLong);
            }
            match push(&mut line, byte) {
                Ok(()) => {}
                Err(NoMemory) => return Err(ReadStop::NoMemory),
            }
        }
        if is_empty(&line) {
            return Ok(None);
        }
        Ok(Some(line))
    }
}
