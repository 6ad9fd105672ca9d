//! The exchanges of a server in memory: what was carried, and what it has behind them.
ghost use Rattle.std.specs.Prelude.{◌≡◌, ◌+◌, ◌<◌, ◌≤◌, ◌++◌, ◌∷◌, [], Some, None, true, false, length, is_ok};
ghost use Rattle.std.specs.Prelude.{IfOk, OnOk, OnErr, IfSome};
ghost use Rattle.field_io.specs.Exchanges.{Makes, change_last, dialed, sent_on, taken_on};
ghost use Rattle.rosa_box.specs.Answering.{HasAnswered, IsMoved, Moves, sent_behind};
ghost use Rattle.rosa_box.specs.Carried.{Leads};

use crate::{BoxState, serve};
use field_io::{ExchangeLog, Failed};
use field_text::{Blob, Items, NoMemory, Text};
use std::alloc::Global;
use std::marker::Model;

/// What a server has, and the exchanges that it came by.
#[derive(Debug, Drop)]
pub(crate) struct Session {
    alloc: Global,
    state: BoxState,
    // how many documents were kept at first
    first: usize,
    log: ExchangeLog,
    // the bytes of the last exchange
    sent: Items<u8>,
    // what the server answered to them, and how much of it was taken
    reply: Option<Blob>,
    count: usize,
    is_open: bool,
    has_taken: bool,
}

impl Model for Session {
    ghost use Rattle.rosa_box.specs.Sessions.{SessionView};

    ghost Value = { SessionView };

    ghost use Rattle.rosa_box.specs.Inside.{IsSound, session_view};

    ghost view = { session_view };

    ghost invariant = { IsSound };
}

// Asks the server, where it hasn't answered yet.
fn ask(
    alloc: Global,
    state: &mut BoxState,
    sent: &[u8],
    reply: &mut Option<Blob>,
) -> Result<(), NoMemory>
    ensures asked { OnOk result (HasAnswered state.old sent.now state.new reply.old reply.new) }
    ensures unchanged { OnErr result (state.new ≡ state.old) }
    ensures kept { OnErr result (reply.new ≡ reply.old) }
{
    if reply.is_none() {
        *reply = Some(serve(alloc, state, sent)?);
    }
    Ok(())
}

// Moves what is left of the reply into the front of the buffer, as far as there is room, and the place with it.
fn copy_left(reply: &[u8], at: &mut usize, buf: &mut [u8]) -> usize
    requires within { at.old ≤ length reply.now }
    requires room { 0 < length buf.old }
    ensures moved { IsMoved reply.now at.old buf.new result }
    ensures behind { at.new ≡ at.old + result }
{
    let left = &reply[*at..];
    let count = left.len().min(buf.len());
    buf[..count].copy_from_slice(&left[..count]);
    *at += count;
    count
}

// What a take gives where it is to fail, or not.
fn give(
    reply: &Option<Blob>,
    at: &mut usize,
    buf: &mut [u8],
    call: Result<(), Failed>,
) -> Result<usize, Failed>
    requires within { IfSome reply.now (λ r. at.old ≤ length r) }
    requires room { 0 < length buf.old }
    ensures moves { Moves reply.now at.old at.new buf.new result }
    ensures room { IfOk result (λ n. n ≤ length buf.new) }
    ensures called { is_ok result ≡ is_ok call }
{
    call?;
    match reply {
        Some(reply) => Ok(copy_left(reply.bytes(), at, buf)),
        None => Ok(0),
    }
}

// Adds the front of the bytes, where they were sent.
fn add_sent(
    alloc: Global,
    sent: &mut Items<u8>,
    bytes: &[u8],
    count: Result<usize, Failed>,
) -> Result<(), NoMemory>
    requires { IfOk count (λ n. n ≤ length bytes.now) }
    ensures { OnOk result (sent.new ≡ sent_behind sent.old bytes.now count) }
{
    match count {
        Ok(count) => Ok(sent.append(Items::from_slice(alloc, &bytes[..count])?)?),
        Err(Failed) => Ok(()),
    }
}

impl Session {
    /// Nothing was dialed yet.
    pub(crate) fn new(alloc: Global, state: BoxState) -> Session
        ensures start { result.start ≡ state }
        ensures state { result.state ≡ state }
        ensures carried { result.carried ≡ Some [] }
        ensures closed { result.is_open ≡ false }
    {
        Session {
            alloc,
            first: state.kept.len(),
            state,
            log: ExchangeLog::new(alloc),
            sent: Items::new(alloc),
            reply: None,
            count: 0,
            is_open: false,
            has_taken: false,
        }
    }

    pub(crate) fn state(&self) -> &BoxState
        ensures state { result.now ≡ self.now.state }
        ensures leads { IfSome self.now.carried (λ xs. Leads self.now.start xs self.now.state) }
    {
        &self.state
    }

    /// Begins the exchange of a dial. Where memory runs out the exchanges are told no longer.
    pub(crate) fn dialed(
        &mut self,
        authority: &Text,
        reached: Result<(), Failed>,
    ) -> Result<(), NoMemory>
        ensures carried { Makes self.old.carried self.new.carried (λ xs. xs ++ dialed authority.now reached ∷ []) }
        ensures forgotten { OnErr result (self.new.carried ≡ None) }
        ensures opened { OnOk result (self.new.is_open ≡ is_ok reached) }
        ensures shut { OnErr result (self.new.is_open ≡ false) }
        ensures fresh { self.new.has_taken ≡ false }
        ensures state { self.new.state ≡ self.old.state }
        ensures start { self.new.start ≡ self.old.start }
    {
        self.hang_up();
        self.has_taken = false;
        self.reply = None;
        self.count = 0;
        self.sent = Items::new(self.alloc);
        self.log.dialed(authority, reached)?;
        self.is_open = reached.is_ok();
        Ok(())
    }

    /// Adds a send of the front of these bytes.
    pub(crate) fn sent(
        &mut self,
        bytes: &[u8],
        count: Result<usize, Failed>,
    ) -> Result<(), NoMemory>
        requires within { IfOk count (λ n. n ≤ length bytes.now) }
        requires opened { self.old.is_open ≡ true }
        requires fresh { self.old.has_taken ≡ false }
        ensures carried { Makes self.old.carried self.new.carried (change_last (sent_on bytes.now count)) }
        ensures forgotten { OnErr result (self.new.carried ≡ None) }
        ensures kept { self.new ≡ record self.old { carried = self.new.carried } }
    {
        if add_sent(self.alloc, &mut self.sent, bytes, count).is_err() {
            return Err(self.log.forget());
        }
        self.log.sent(bytes, count)
    }

    /// Takes from the server's answer, which the first take asks for, where the call isn't to fail.
    pub(crate) fn take(
        &mut self,
        buf: &mut [u8],
        call: Result<(), Failed>,
    ) -> Result<Result<usize, Failed>, NoMemory>
        requires room { 0 < length buf.old }
        requires opened { self.old.is_open ≡ true }
        ensures within { IfOk result (λ count. IfOk count (λ n. n ≤ length buf.new)) }
        ensures called { IfOk result (λ count. is_ok count ≡ is_ok call) }
        ensures carried { IfOk result
            (λ count. Makes self.old.carried self.new.carried (change_last (taken_on buf.new count))) }
        ensures forgotten { OnErr result (self.new.carried ≡ None) }
        ensures state { (self.new.is_open ≡ true) × (self.new.has_taken ≡ true) }
        ensures start { self.new.start ≡ self.old.start }
    {
        self.has_taken = true;
        let sent = self.sent.as_slice();
        if ask(self.alloc, &mut self.state, sent, &mut self.reply).is_err() {
            return Err(self.log.forget());
        }
        let count = give(&self.reply, &mut self.count, buf, call);
        self.log.taken(buf, count)?;
        Ok(count)
    }

    pub(crate) fn hang_up(&mut self)
        ensures { self.new ≡ record self.old { is_open = false } }
    {
        self.is_open = false;
    }
}
