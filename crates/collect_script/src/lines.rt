// The lines of a script, one after another.
ghost use Rattle.std.specs.Prelude.{◌≡◌, [], true, IfErr, IfOk, OnOk, option_map};
ghost use Rattle.device_rules.specs.Caller.{CallerView};
ghost use Rattle.entry_form.specs.declared.hand.Hand.{Hand};
ghost use Rattle.line_io.specs.Reader.{GivesNext, IsKept, StopsReading};
ghost use Rattle.line_io.specs.declared.stop.ReadStop.{ReadStop};
ghost use Rattle.collect_script.specs.Ends.{streams};
ghost use Rattle.collect_script.specs.Answering.{AnswersLines, LineAnswered, LineStops, stop_of};
ghost use Rattle.collect_script.specs.Script.{is_quit};
ghost use Rattle.collect_script.specs.Exchanged.{is_plain};
ghost use Rattle.collect_script.specs.Transcript.{of_script};
ghost use Rattle.send_workers.specs.Agreement.{HasExchanged};
ghost use Rattle.send_workers.specs.Rounds.{view};

use crate::answer::line_text;
use crate::{Hand1, ScriptStop};
use collect_text::{Line, read_line};
use device_rules::{Caller, Gate};
use field_io::{Clock, Dialer, Failed, Sink, Source};
use line_io::{LineReader, ReadStop, put_all};
use std::alloc::Global;

fn stop_of(stop: ReadStop) -> ScriptStop
    ensures { result ≡ stop_of stop }
{
    match stop {
        ReadStop::ReadFault => ScriptStop::ReadFault,
        ReadStop::LineTooLong => ScriptStop::LineTooLong,
        ReadStop::ScriptTooLong => ScriptStop::ScriptTooLong,
        ReadStop::NoMemory => ScriptStop::NoMemory,
    }
}

// Answers one line of a script.
fn answer_line<K: Caller, Si: Sink, N: Dialer, C: Clock, G: Gate>(
    alloc: Global,
    line: Line,
    caller: &mut K,
    sink: &mut Si,
    hand: &mut Hand1<N, C>,
    gate: &mut G,
) -> Result<(), ScriptStop>
    requires { (K.seen caller.old).hand ≡ Hand.Script }
    ensures answered { OnOk result (LineAnswered (K.seen caller.old) (K.seen caller.new) line (Si.held sink.old)
        (Si.held sink.new) (Si.faults sink.old) (Si.faults sink.new)) }
    ensures stopped { IfErr result (LineStops (K.seen caller.old) (K.seen caller.new) line (Si.held sink.old)
        (Si.held sink.new) (Si.faults sink.old) (Si.faults sink.new)) }
    ensures exchanged { is_plain line ≡ true → HasExchanged (view (K.seen caller.old) (N.carried hand.old.dialer))
        (view (K.seen caller.new) (N.carried hand.new.dialer)) }
    ensures leads { K.leads caller.old caller.new }
    ensures peer { N.peer hand.new.dialer ≡ N.peer hand.old.dialer }
{
    let text = match line_text(alloc, line, caller, hand, gate) {
        Ok(text) => text,
        Err(stop) => return Err(stop),
    };
    match put_all(sink, &text) {
        Ok(()) => Ok(()),
        Err(Failed) => Err(ScriptStop::WriteFault),
    }
}

fn is_quit(line: &Line) -> bool
    ensures { result ≡ is_quit line.now }
{
    matches!(line, Line::Quit)
}

/// Answers the lines that a source gives, one after another, up to `quit` or the end of the source. Each is answered
/// before the next is asked for. The rounds of the script use the hand's dialer and clock, and turn the gate.
pub fn answer_lines<K: Caller, So: Source, Si: Sink, N: Dialer, C: Clock, G: Gate>(
    alloc: Global,
    source: &mut So,
    caller: &mut K,
    sink: &mut Si,
    hand: &mut Hand1<N, C>,
    gate: &mut G,
) -> Result<(), ScriptStop>
    requires hand { (K.seen caller.old).hand ≡ Hand.Script }
    requires none_left { of_script (K.seen caller.old).rest ≡ [] }
    ensures answers { AnswersLines K.seen K.leads caller.old caller.new
        (streams (So.left source.old) (Si.held sink.old) (So.faults source.old) (Si.faults sink.old))
        (streams (So.left source.new) (Si.held sink.new) (So.faults source.new) (Si.faults sink.new)) result }
    ensures exchanged { HasExchanged (view (K.seen caller.old) (N.carried hand.old.dialer))
        (view (K.seen caller.new) (N.carried hand.new.dialer)) }
    ensures peer { N.peer hand.new.dialer ≡ N.peer hand.old.dialer }
{
    let mut reader = LineReader::new(alloc);
    'lines: loop {
        let raw = match reader.next_line(alloc, source) {
            Ok(Some(raw)) => raw,
            Ok(None) => return Ok(()),
            Err(stop) => return Err(stop_of(stop)),
        };
        let line = match read_line(alloc, &raw) {
            Ok(line) => line,
            Err(_) => return Err(ScriptStop::NoMemory),
        };
        let is_last = is_quit(&line);
        match answer_line(alloc, line, caller, sink, hand, gate) {
            Ok(()) => {}
            Err(stop) => return Err(stop),
        }
        if is_last {
            return Ok(());
        }
    }
}
