ghost use Rattle.std.specs.Prelude.{◌≡◌};

use change_locks::Held;
use device_state::{
    Changes, Counters, Flight, FlightChange, FormChange, LockChange, State, has_flight,
};
use entry_form::{Hand, Lock};
use field_ids::Draws;
use field_text::{Blob, Text};
use form_store::FormRec;
use std::alloc::Global;
use std::process::Abort;
use std::test::Fail;

fn form(alloc: Global) -> Result<FormRec, Fail> {
    Ok(FormRec {
        id: Text::from_bytes(alloc, b"leaf")?,
        version: Text::from_bytes(alloc, b"2")?,
        bytes: Blob::from_bytes(alloc, b"<a/>")?,
        hash: Text::from_bytes(alloc, b"md5:")?,
        auto: None,
        put_at: 1,
        visible: true,
        complete: true,
    })
}

fn with_forms(counters: Counters, forms: FormChange) -> Changes {
    Changes {
        forms,
        ..Changes::counted(counters)
    }
}

fn with_sends(counters: Counters, locks: LockChange, flights: FlightChange) -> Changes {
    Changes {
        locks,
        flights,
        ..Changes::counted(counters)
    }
}

fn change(state: &mut State, changes: Changes) -> Result<(), Fail> {
    state.reserve()?;
    state.change(changes);
    Ok(())
}

fn check_hiding(rt: &impl Abort, alloc: Global, state: &mut State) -> Result<(), Fail> {
    let counters = state.counters;
    let put = FormChange::Put(form(alloc)?);
    change(state, with_forms(counters, put))?;
    assert_eq!(rt; state.forms.count(), 1);
    let id = Text::from_bytes(alloc, b"leaf")?;
    change(state, with_forms(counters, FormChange::Hide(id)))?;
    assert_eq!(rt; state.forms.count(), 0);
    Ok(())
}

#[test]
fn hidden_forms_that_nothing_names_are_gone(rt: HostRuntime) -> Result<(), Fail> {
    let mut state = State::initial(rt.alloc());
    check_hiding(&rt, rt.alloc(), &mut state)
}

fn taken() -> LockChange {
    LockChange::Take {
        lock: Lock::Instances,
        held: Held {
            hand: Hand::Sender,
            since: 2,
        },
    }
}

fn all_freed() -> LockChange {
    LockChange::FreeAll
}

fn flight() -> Flight {
    Flight {
        hand: Hand::Sender,
        number: 3,
    }
}

fn begin_send(state: &mut State) -> Result<(), Fail> {
    let counters = state.counters;
    let begin = FlightChange::Begin(flight());
    change(state, with_sends(counters, taken(), begin))
}

fn end_send(state: &mut State) -> Result<(), Fail> {
    let counters = state.counters;
    let end = FlightChange::End(flight());
    change(state, with_sends(counters, all_freed(), end))
}

fn check_sends(rt: &impl Abort, state: &mut State) -> Result<(), Fail> {
    begin_send(state)?;
    assert!(rt; state.locks.holder(Lock::Instances).is_some());
    assert!(rt; has_flight(state.flights.as_slice(), 3));
    end_send(state)?;
    assert!(rt; state.locks.holder(Lock::Instances).is_none());
    assert!(rt; !has_flight(state.flights.as_slice(), 3));
    Ok(())
}

#[test]
fn sends_are_in_flight_until_they_end(rt: HostRuntime) -> Result<(), Fail> {
    let mut state = State::initial(rt.alloc());
    check_sends(&rt, &mut state)?;
    assert!(rt; flight().is_by(Hand::Sender));
    assert!(rt; !flight().is_flight(Hand::Script, 3));
    Ok(())
}

fn fourth() -> Counters
    ensures position { result.position ≡ 4 }
    ensures number { result.next_instance ≡ 2 }
{
    Counters {
        position: 4,
        last_tick: 1,
        next_instance: 2,
        draws: Draws { device: 1, next: 5 },
    }
}

#[test]
fn entries_are_counted(rt: HostRuntime) -> Result<(), Fail> {
    assert_eq!(rt; fourth().one_further().position, 5);
    assert_eq!(rt; fourth().ticked().last_tick, 5);
    assert_eq!(rt; fourth().one_more().next_instance, 3);
    let changes = Changes::counted(fourth());
    assert!(rt; changes.settings.is_none());
    Ok(())
}
