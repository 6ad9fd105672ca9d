//! One send: the instance that is due next, its exchange, and the entries round it.
ghost use Rattle.std.specs.Prelude.{◌≡◌, ℕ, List, Option, Some, None, Ok, Err};
ghost use Rattle.field_io.specs.Clock.{IsMoment};
ghost use Rattle.field_io.specs.declared.exchange.Exchange.{Exchange};
ghost use Rattle.device_rules.specs.declared.answer.NextSend.{NextSend};
ghost use Rattle.device_rules.specs.SendEnded.{is_taken};
ghost use Rattle.send_workers.specs.Rounds.{RoundView, view, HasSent, Names, Looked, Begun, HasBegun, HasCarried, Ended};
ghost use Rattle.send_workers.specs.Rounds.{Turned, CarriesOut, Fails};
ghost use Rattle.send_workers.specs.Rounds as spec;
ghost use Rattle.send_workers.specs.Sends.{Sending, IsCarried};
ghost use Rattle.submission_wire.specs.Posts.{IsPost};

use crate::round::RoundEnd;
use device_rules::{Answer, Caller, Gate, NextSend, Place, Query, Refused, SubmitFault};
use entry_form::{Command, Hand, Outcome};
use field_io::{Clock, Dialer};
use field_text::{Blob, NoMemory, Text};
use http_exchange::{Got, exchange};
use std::alloc::Global;
use submission_wire::post_text;

/// What one turn of a round came to.
#[derive(Clone, Copy, Debug, PartialEq, Eq)]
pub(crate) enum Turn {
    /// Nothing is due.
    NoneLeft,
    /// What was due isn't any more.
    NotDue,
    /// One was sent, and accepted or not.
    Sent(bool),
}

fn named_in(answer: Answer) -> Option<NextSend>
    ensures { result ≡ spec.named_in answer }
{
    match answer {
        Answer::NextSend(named) => named,
        _ => None,
    }
}

// What is to be sent next.
fn next_send<K: Caller>(alloc: Global, caller: &mut K) -> Result<Option<NextSend>, SubmitFault>
    ensures looked { (old : RoundView) (sends : List Sending) (refused : ℕ) (carried : Option (List Exchange))
        → HasSent old (view (K.seen caller.old) carried) sends refused
        → Looked old (view (K.seen caller.new) carried) sends refused result }
    ensures leads { K.leads caller.old caller.new }
{
    match caller.look(alloc, &Query::NextSend) {
        Ok(told) => Ok(named_in(told.answer)),
        Err(fault) => Err(fault),
    }
}

fn is_not_due(fault: &SubmitFault) -> bool
    ensures { result ≡ spec.is_not_due fault.now }
{
    match fault {
        SubmitFault::Refused {
            position: _,
            why: Refused::NothingDue,
        } => true,
        _ => false,
    }
}

// Begins to send the instance with this number. Answers no where it isn't due any more.
fn begin_send<K: Caller>(
    alloc: Global,
    number: u64,
    at: u64,
    caller: &mut K,
) -> Result<bool, SubmitFault>
    ensures begun { (old : RoundView) (sends : List Sending) (refused : ℕ) (carried : Option (List Exchange))
        (named : NextSend) → Names old (view (K.seen caller.old) carried) sends refused (Some named)
        → number ≡ named.number → Begun old (view (K.seen caller.new) carried) sends refused named at result }
    ensures leads { K.leads caller.old caller.new }
{
    match caller.call(alloc, Command::SendBegun { number, at }) {
        Ok(_) => Ok(true),
        Err(fault) => {
            if is_not_due(&fault) {
                Ok(false)
            } else {
                Err(fault)
            }
        }
    }
}

// What came of an exchange, if memory let it begin.
fn outcome_of(got: Got) -> Option<Outcome>
    ensures { result ≡ spec.outcome_of got }
{
    match got {
        Got::Reply(bytes) => Some(Outcome::Reply(bytes)),
        Got::Fault(stage) => Some(Outcome::Fault(stage)),
        Got::NoMemory => None,
    }
}

// Carries the request to the server.
fn carry_out<N: Dialer, G: Gate>(
    alloc: Global,
    hand: Hand,
    authority: &Text,
    request: &Blob,
    dialer: &mut N,
    gate: &mut G,
) -> Option<Outcome>
    ensures carries { CarriesOut authority.now request.now (N.carried dialer.old) (N.carried dialer.new) result }
    ensures peer { N.peer dialer.new ≡ N.peer dialer.old }
{
    gate.turn(hand, Place::BeforeExchange);
    let got = exchange(alloc, dialer, authority, request.bytes());
    gate.turn(hand, Place::AfterExchange);
    outcome_of(got)
}

fn is_one(answer: &Answer) -> bool
    ensures { result ≡ spec.is_one answer.now }
{
    matches!(answer, Answer::Number(1))
}

// Records what came of the exchange. Answers whether the server accepted what was sent.
fn end_send<K: Caller>(
    alloc: Global,
    number: u64,
    outcome: Outcome,
    caller: &mut K,
) -> Result<bool, SubmitFault>
    ensures ended { (old : RoundView) (sends : List Sending) (refused : ℕ) (carried : Option (List Exchange))
        (s : Sending) → HasCarried old (view (K.seen caller.old) carried) sends refused s
        → number ≡ s.named.number → outcome ≡ s.outcome
        → Ended old (view (K.seen caller.new) carried) sends refused s result }
    ensures leads { K.leads caller.old caller.new }
{
    match caller.call(alloc, Command::SendEnded { number, outcome }) {
        Ok(told) => Ok(is_one(&told.answer)),
        Err(fault) => Err(fault),
    }
}

// The exchange of a send that is begun, and the entry of what came of it.
fn finish_send<K: Caller, N: Dialer, G: Gate>(
    alloc: Global,
    named: NextSend,
    request: &Blob,
    caller: &mut K,
    dialer: &mut N,
    gate: &mut G,
) -> Result<Turn, RoundEnd>
    ensures turned { (old : RoundView) (sends : List Sending) (refused at : ℕ)
        → HasBegun old (view (K.seen caller.old) (N.carried dialer.old)) sends refused named at
        → IsPost named.base at named.doc request.now
        → Turned old (view (K.seen caller.new) (N.carried dialer.new)) sends refused result }
    ensures leads { K.leads caller.old caller.new }
    ensures peer { N.peer dialer.new ≡ N.peer dialer.old }
{
    let hand = caller.hand();
    let Some(outcome) = carry_out(alloc, hand, &named.base.authority, request, dialer, gate) else {
        return Err(RoundEnd::NoMemory);
    };
    match end_send(alloc, named.number, outcome, caller) {
        Ok(taken) => Ok(Turn::Sent(taken)),
        Err(fault) => Err(RoundEnd::Stopped(fault)),
    }
}

// Sends what is named. The request is made first, so that nothing is begun for which memory is wanting.
fn send_named<K: Caller, N: Dialer, C: Clock, G: Gate>(
    alloc: Global,
    named: NextSend,
    caller: &mut K,
    dialer: &mut N,
    clock: &mut C,
    gate: &mut G,
) -> Result<Turn, RoundEnd>
    ensures turned { (old : RoundView) (sends : List Sending) (refused : ℕ)
        → Names old (view (K.seen caller.old) (N.carried dialer.old)) sends refused (Some named)
        → Turned old (view (K.seen caller.new) (N.carried dialer.new)) sends refused result }
    ensures leads { K.leads caller.old caller.new }
    ensures peer { N.peer dialer.new ≡ N.peer dialer.old }
{
    let at = clock.now();
    let request = match post_text(alloc, &named.base, at, &named.doc) {
        Ok(request) => request,
        Err(NoMemory) => return Err(RoundEnd::NoMemory),
    };
    match begin_send(alloc, named.number, at, caller) {
        Ok(true) => finish_send(alloc, named, &request, caller, dialer, gate),
        Ok(false) => Ok(Turn::NotDue),
        Err(fault) => Err(RoundEnd::Stopped(fault)),
    }
}

/// Sends what is due next, if something is.
pub(crate) fn send_next<K: Caller, N: Dialer, C: Clock, G: Gate>(
    alloc: Global,
    caller: &mut K,
    dialer: &mut N,
    clock: &mut C,
    gate: &mut G,
) -> Result<Turn, RoundEnd>
    ensures turned { (old : RoundView) (sends : List Sending) (refused : ℕ)
        → HasSent old (view (K.seen caller.old) (N.carried dialer.old)) sends refused
        → Turned old (view (K.seen caller.new) (N.carried dialer.new)) sends refused result }
    ensures leads { K.leads caller.old caller.new }
    ensures peer { N.peer dialer.new ≡ N.peer dialer.old }
{
    match next_send(alloc, caller) {
        Ok(Some(named)) => send_named(alloc, named, caller, dialer, clock, gate),
        Ok(None) => Ok(Turn::NoneLeft),
        Err(fault) => Err(RoundEnd::Stopped(fault)),
    }
}
