// What one line asks of a caller, and the text that it prints.
ghost use Rattle.std.specs.Prelude.{◌≡◌, ◌≢◌, true, IfOk, IfErr};
ghost use Rattle.device_rules.specs.Caller.{Looks};
ghost use Rattle.collect_text.specs.Answers.{IsWord, printed_answer, printed_word};
ghost use Rattle.collect_text.specs.Line.{line_shape};
ghost use Rattle.collect_text.specs.Refusals.{printed_refused};
ghost use Rattle.collect_text.specs.declared.line.Line.{Line};
ghost use Rattle.collect_script.specs.Answering.{FaultStop, FaultText, Says, SaysNothing, is_no_memory};
ghost use Rattle.collect_script.specs.Exchanged.{is_plain};
ghost use Rattle.entry_form.specs.declared.hand.Hand.{Hand};
ghost use Rattle.send_workers.specs.Agreement.{HasExchanged};
ghost use Rattle.send_workers.specs.Rounds.{view};

use crate::round::send;
use crate::{Hand1, ScriptStop};
use collect_text::{Line, Shape, print_answer, print_refused, print_word};
use device_rules::{Caller, Gate, Query, Refused, SubmitFault, Told};
use entry_form::Command;
use field_io::{Clock, Dialer};
use field_text::NoMemory;
use std::alloc::Global;

fn answer_text(alloc: Global, told: Told, shape: &Shape) -> Result<Vec<u8>, NoMemory>
    ensures { IfOk result (λ text. text.items ≡ printed_answer told.position shape.now told.answer) }
{
    let mut text = Vec::new(alloc);
    print_answer(alloc, told.position, shape, &told.answer, &mut text)?;
    Ok(text)
}

fn word_text(alloc: Global, told: Told, line: &Line) -> Result<Vec<u8>, NoMemory>
    requires { IsWord line.now }
    ensures { IfOk result (λ text. text.items ≡ printed_word told.position line.now) }
{
    let mut text = Vec::new(alloc);
    print_word(alloc, told.position, line, &mut text)?;
    Ok(text)
}

fn is_no_memory(why: &Refused) -> bool
    ensures { result ≡ is_no_memory why.now }
{
    matches!(why, Refused::NoMemory)
}

// The line of a refusal other than want of memory.
pub(crate) fn refusal_text(alloc: Global, position: u64, why: &Refused) -> Result<Vec<u8>, NoMemory>
    ensures text { IfOk result (λ text. text.items ≡ printed_refused position why.now) }
    ensures told { IfOk result (λ _. why.now ≢ Refused.NoMemory) }
{
    if is_no_memory(why) {
        return Err(NoMemory);
    }
    let mut text = Vec::new(alloc);
    print_refused(alloc, position, why, &mut text)?;
    Ok(text)
}

// The stop that a fault leads to; a refusal does where memory ran out for it.
fn fault_stop(fault: SubmitFault) -> ScriptStop
    ensures { FaultStop fault result }
{
    match fault {
        SubmitFault::Refused { .. } => ScriptStop::NoMemory,
        SubmitFault::Full { length } => ScriptStop::JournalFull { length },
        SubmitFault::DiskFault | SubmitFault::Failed { .. } => ScriptStop::DiskFault,
    }
}

// The line of a refusal; any other fault ends the script.
pub(crate) fn fault_text(alloc: Global, fault: &SubmitFault) -> Result<Vec<u8>, ScriptStop>
    ensures text { IfOk result (λ text. FaultText fault.now text.items) }
    ensures stop { IfErr result (FaultStop fault.now) }
{
    match fault {
        SubmitFault::Refused { position, why } => match refusal_text(alloc, *position, why) {
            Ok(text) => Ok(text),
            Err(NoMemory) => Err(ScriptStop::NoMemory),
        },
        SubmitFault::Full { length } => Err(ScriptStop::JournalFull { length: *length }),
        SubmitFault::DiskFault | SubmitFault::Failed { .. } => Err(ScriptStop::DiskFault),
    }
}

// The answer to a query.
fn look<K: Caller>(
    alloc: Global,
    query: Query,
    shape: &Shape,
    caller: &mut K,
) -> Result<Vec<u8>, ScriptStop>
    requires { shape.now ≡ line_shape (Line.Look query) }
    ensures says { IfOk result (λ text. Says (K.seen caller.old) (K.seen caller.new) text.items (Line.Look query)) }
    ensures stops { IfErr result (SaysNothing (K.seen caller.old) (K.seen caller.new) (Line.Look query)) }
    ensures leads { K.leads caller.old caller.new }
{
    match caller.look(alloc, &query) {
        Ok(told) => match answer_text(alloc, told, shape) {
            Ok(text) => Ok(text),
            Err(NoMemory) => Err(ScriptStop::NoMemory),
        },
        Err(fault) => fault_text(alloc, &fault),
    }
}

// The words of a line that asks nothing, at the position of a look.
fn say<K: Caller>(alloc: Global, line: &Line, caller: &mut K) -> Result<Vec<u8>, ScriptStop>
    requires { IsWord line.now }
    ensures says { IfOk result (λ text. Says (K.seen caller.old) (K.seen caller.new) text.items line.now) }
    ensures stops { IfErr result (SaysNothing (K.seen caller.old) (K.seen caller.new) line.now) }
    ensures leads { K.leads caller.old caller.new }
{
    match caller.look(alloc, &Query::Settings) {
        Ok(told) => match word_text(alloc, told, line) {
            Ok(text) => Ok(text),
            Err(NoMemory) => Err(ScriptStop::NoMemory),
        },
        Err(fault) => Err(fault_stop(fault)),
    }
}

// The answer to a command, or its refusal.
fn give<K: Caller>(
    alloc: Global,
    command: Command,
    shape: &Shape,
    caller: &mut K,
) -> Result<Vec<u8>, ScriptStop>
    requires hand { (K.seen caller.old).hand ≡ Hand.Script }
    requires shape { shape.now ≡ line_shape (Line.Give command) }
    ensures says { IfOk result (λ text. Says (K.seen caller.old) (K.seen caller.new) text.items (Line.Give command)) }
    ensures stops { IfErr result (SaysNothing (K.seen caller.old) (K.seen caller.new) (Line.Give command)) }
    ensures leads { K.leads caller.old caller.new }
{
    match caller.call(alloc, command) {
        Ok(told) => match answer_text(alloc, told, shape) {
            Ok(text) => Ok(text),
            Err(NoMemory) => Err(ScriptStop::NoMemory),
        },
        Err(fault) => fault_text(alloc, &fault),
    }
}

/// What a line prints, made whole before its first byte goes out.
pub fn line_text<K: Caller, N: Dialer, C: Clock, G: Gate>(
    alloc: Global,
    line: Line,
    caller: &mut K,
    hand: &mut Hand1<N, C>,
    gate: &mut G,
) -> Result<Vec<u8>, ScriptStop>
    requires { (K.seen caller.old).hand ≡ Hand.Script }
    ensures says { IfOk result (λ text. Says (K.seen caller.old) (K.seen caller.new) text.items line) }
    ensures stops { IfErr result (SaysNothing (K.seen caller.old) (K.seen caller.new) line) }
    ensures exchanged { is_plain line ≡ true → HasExchanged (view (K.seen caller.old) (N.carried hand.old.dialer))
        (view (K.seen caller.new) (N.carried hand.new.dialer)) }
    ensures leads { K.leads caller.old caller.new }
    ensures peer { N.peer hand.new.dialer ≡ N.peer hand.old.dialer }
{
    let shape = match line.shape(alloc) {
        Ok(shape) => shape,
        Err(NoMemory) => return Err(ScriptStop::NoMemory),
    };
    match line {
        Line::Skipped => Ok(Vec::new(alloc)),
        Line::Quit => say(alloc, &Line::Quit, caller),
        Line::Bad => say(alloc, &Line::Bad, caller),
        Line::NotBuilt => say(alloc, &Line::NotBuilt, caller),
        Line::Send => send(alloc, caller, hand, gate),
        Line::Look(query) => look(alloc, query, &shape, caller),
        Line::Give(command) => give(alloc, command, &shape, caller),
    }
}
