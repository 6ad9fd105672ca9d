// The line that has a round of sending made.
ghost use Rattle.std.specs.Prelude.{◌≡◌, Ok, IfOk, IfErr};
ghost use Rattle.collect_text.specs.Rounds.{printed_round};
ghost use Rattle.collect_text.specs.declared.line.Line.{Line};
ghost use Rattle.collect_script.specs.Answering.{RoundStop, RoundText, Says, SaysNothing};
ghost use Rattle.entry_form.specs.declared.hand.Hand.{Hand};
ghost use Rattle.send_workers.specs.Agreement.{HasExchanged};
ghost use Rattle.send_workers.specs.Rounds.{view};

use crate::answer::{fault_text, refusal_text};
use crate::{Hand1, ScriptStop};
use collect_text::print_round;
use device_rules::{Caller, Gate, Refused};
use field_io::{Clock, Dialer};
use field_text::NoMemory;
use send_workers::{RoundEnd, send_round};
use std::alloc::Global;

// The line of a round that came to its end.
fn ran_text(alloc: Global, position: u64, good: u64, bad: u64) -> Result<Vec<u8>, NoMemory>
    ensures { IfOk result (λ text. text.items ≡ printed_round position good bad) }
{
    let mut text = Vec::new(alloc);
    print_round(alloc, position, good, bad, &mut text)?;
    Ok(text)
}

fn or_stop(text: Result<Vec<u8>, NoMemory>) -> Result<Vec<u8>, ScriptStop>
    ensures text { IfOk result (λ made. text ≡ Ok made) }
    ensures stop { IfErr result (λ stop. stop ≡ ScriptStop.NoMemory) }
{
    match text {
        Ok(text) => Ok(text),
        Err(NoMemory) => Err(ScriptStop::NoMemory),
    }
}

// The line of a round by its end, or the stop that the end leads to.
fn round_text(alloc: Global, end: &RoundEnd) -> Result<Vec<u8>, ScriptStop>
    ensures text { IfOk result (λ text. RoundText end.now text.items) }
    ensures stop { IfErr result (RoundStop end.now) }
{
    match end {
        RoundEnd::Ran {
            position,
            good,
            bad,
            hidden: _,
        } => or_stop(ran_text(alloc, *position, *good, *bad)),
        RoundEnd::Busy { position, held } => {
            let why = Refused::Busy {
                hand: held.hand,
                since: held.since,
            };
            or_stop(refusal_text(alloc, *position, &why))
        }
        RoundEnd::Stopped(fault) => fault_text(alloc, fault),
        RoundEnd::NoMemory => Err(ScriptStop::NoMemory),
    }
}

// Makes a round of sending.
pub(crate) fn send<K: Caller, N: Dialer, C: Clock, G: Gate>(
    alloc: Global,
    caller: &mut K,
    hand: &mut Hand1<N, C>,
    gate: &mut G,
) -> Result<Vec<u8>, ScriptStop>
    requires { (K.seen caller.old).hand ≡ Hand.Script }
    ensures says { IfOk result (λ text. Says (K.seen caller.old) (K.seen caller.new) text.items Line.Send) }
    ensures stops { IfErr result (SaysNothing (K.seen caller.old) (K.seen caller.new) Line.Send) }
    ensures exchanged { HasExchanged (view (K.seen caller.old) (N.carried hand.old.dialer))
        (view (K.seen caller.new) (N.carried hand.new.dialer)) }
    ensures leads { K.leads caller.old caller.new }
    ensures peer { N.peer hand.new.dialer ≡ N.peer hand.old.dialer }
{
    let end = send_round(alloc, caller, &mut hand.dialer, &mut hand.clock, gate);
    round_text(alloc, &end)
}
