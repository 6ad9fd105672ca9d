//! A round of sending.
ghost use Rattle.std.specs.Prelude.{◌≡◌, ◌+◌, ◌<◌, List, [], Option, Ok};
ghost use Rattle.field_io.specs.declared.exchange.Exchange.{Exchange};
ghost use Rattle.send_workers.specs.Rounds as spec;
ghost use Rattle.send_workers.specs.Rounds.{Rounds, RoundView, HasSent, Locked, SentAll, view};

use crate::one_send::{Turn, send_next};
use change_locks::Held;
use device_rules::{Caller, Gate, Refused, SubmitFault};
use entry_form::{Command, Lock, Round};
use field_io::{Clock, Dialer};
use std::alloc::Global;

/// A round tries no more sends.
const MOST_SENDS: u64 = 10_000;

/// How a round of work with the server ended.
#[derive(Debug, Drop)]
pub enum RoundEnd {
    /// The lock is held, as was said on the state after so many entries.
    Busy {
        position: u64,
        held: Held,
    },
    /// All was done, and the lock was given back by the entry at this position. So many sends were accepted, so many
    /// weren't, and so many forms were hidden.
    Ran {
        position: u64,
        good: u64,
        bad: u64,
        hidden: u64,
    },
    /// A call of the round's caller answered this.
    Stopped(SubmitFault),
    NoMemory,
}

// How many sends were accepted, and how many not.
#[derive(Clone, Copy, Debug, PartialEq, Eq)]
pub(crate) struct Tally {
    pub good: u64,
    pub bad: u64,
}

impl Tally {
    fn with(self, taken: bool) -> Tally
        requires { self.good + self.bad < 10000 }
        ensures { result ≡ spec.with_one self taken }
    {
        if taken {
            Tally {
                good: self.good + 1,
                ..self
            }
        } else {
            Tally {
                bad: self.bad + 1,
                ..self
            }
        }
    }
}

// The end of a round whose lock is held, where the fault says so.
fn busy_in(fault: &SubmitFault) -> Option<RoundEnd>
    ensures { result ≡ spec.busy_in fault.now }
{
    match fault {
        SubmitFault::Refused {
            position,
            why: Refused::Busy { hand, since },
        } => Some(RoundEnd::Busy {
            position: *position,
            held: Held {
                hand: *hand,
                since: *since,
            },
        }),
        _ => None,
    }
}

// Takes the lock of the instances.
fn take_lock<K: Caller>(alloc: Global, caller: &mut K) -> Result<(), RoundEnd>
    ensures locked { (carried : Option (List Exchange)) → Locked (view (K.seen caller.old) carried)
        (view (K.seen caller.new) carried) result }
    ensures leads { K.leads caller.old caller.new }
{
    match caller.call(alloc, Command::TakeLock(Round::Send)) {
        Ok(_) => Ok(()),
        Err(fault) => match busy_in(&fault) {
            Some(end) => Err(end),
            None => Err(RoundEnd::Stopped(fault)),
        },
    }
}

// Makes the sends that are due, one after another.
fn send_all<K: Caller, N: Dialer, C: Clock, G: Gate>(
    alloc: Global,
    caller: &mut K,
    dialer: &mut N,
    clock: &mut C,
    gate: &mut G,
) -> Result<Tally, RoundEnd>
    ensures all { (old : RoundView) → HasSent old (view (K.seen caller.old) (N.carried dialer.old)) [] 0
        → SentAll old (view (K.seen caller.new) (N.carried dialer.new)) result }
    ensures leads { K.leads caller.old caller.new }
    ensures peer { N.peer dialer.new ≡ N.peer dialer.old }
{
    let mut tally = Tally { good: 0, bad: 0 };
    let mut left = MOST_SENDS;
    while left != 0 {
        match send_next(alloc, caller, dialer, clock, gate) {
            Ok(Turn::NoneLeft) => return Ok(tally),
            Ok(Turn::NotDue) => {}
            Ok(Turn::Sent(taken)) => tally = tally.with(taken),
            Err(end) => return Err(end),
        }
        left -= 1;
    }
    Ok(tally)
}

fn release<K: Caller>(alloc: Global, tally: Tally, caller: &mut K) -> RoundEnd
    ensures ran { (old : RoundView) (carried : Option (List Exchange))
        → SentAll old (view (K.seen caller.old) carried) (Ok tally)
        → Rounds old (view (K.seen caller.new) carried) result }
    ensures leads { K.leads caller.old caller.new }
{
    match caller.call(alloc, Command::Release(Lock::Instances)) {
        Ok(told) => RoundEnd::Ran {
            position: told.position,
            good: tally.good,
            bad: tally.bad,
            hidden: 0,
        },
        Err(fault) => RoundEnd::Stopped(fault),
    }
}

/// Takes the lock of the instances, sends all that is due for the caller's hand, one after another, and gives the lock
/// back. Each send is begun before its first byte goes out, and one that fails stops nothing. A send that isn't due any
/// more when it is begun is left, and the round looks again. A round tries 10,000 sends at most.
pub fn send_round<K: Caller, N: Dialer, C: Clock, G: Gate>(
    alloc: Global,
    caller: &mut K,
    dialer: &mut N,
    clock: &mut C,
    gate: &mut G,
) -> RoundEnd
    ensures rounds { Rounds (view (K.seen caller.old) (N.carried dialer.old))
        (view (K.seen caller.new) (N.carried dialer.new)) result }
    ensures leads { K.leads caller.old caller.new }
    ensures peer { N.peer dialer.new ≡ N.peer dialer.old }
{
    match take_lock(alloc, caller) {
        Ok(()) => {}
        Err(end) => return end,
    }
    match send_all(alloc, caller, dialer, clock, gate) {
        Ok(tally) => release(alloc, tally, caller),
        Err(end) => end,
    }
}
