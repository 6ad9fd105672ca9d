use device_rules::*;
use device_state::{Counters, State};
use entry_form::{Command, Entry, Hand, Opening, Round};
use field_ids::Draws;
use field_text::{Mode, NoMemory, Text};
use std::alloc::Global;
use std::test::Fail;

fn text_of(alloc: Global, bytes: &[u8]) -> Result<Text, Fail> {
    let Ok(text) = Text::from_bytes(alloc, bytes) else {
        return Err("no text".into());
    };
    Ok(text)
}

#[test]
fn steps_are_prepared_and_made(rt: HostRuntime) -> Result<(), Fail> {
    let alloc = rt.alloc();
    let mut state = State::initial(alloc);
    let opening = Opening {
        device: 7,
        server: text_of(alloc, b"http://localhost:8080")?,
    };
    assert!(rt; is_opening(alloc, &opening)?);
    let Ok(prepared) = begin(alloc, &state, opening) else {
        return Err("refused".into());
    };
    assert!(rt; matches!(prepared.entry(), Entry::Opened(_)));
    state.reserve()?;
    let (_entry, answer) = apply(&mut state, prepared);
    assert!(rt; matches!(answer, Answer::Done));
    assert_eq!(rt; state.counters.draws.device, 7);
    let Ok(prepared) = decide(
        alloc,
        &state,
        Hand::Sender,
        Command::UpdateMode(Mode::Exact),
    ) else {
        return Err("refused".into());
    };
    prepared.discard();
    let Ok(prepared) = decide(
        alloc,
        &state,
        Hand::Sender,
        Command::UpdateMode(Mode::Exact),
    ) else {
        return Err("refused".into());
    };
    assert!(rt;
        matches!(
            prepared.into_entry(),
            Entry::Done {
                hand: Hand::Sender,
                ..
            }
        )
    );
    let Ok(prepared) = decide(alloc, &state, Hand::Script, Command::AutoSend(true)) else {
        return Err("refused".into());
    };
    state.reserve()?;
    let (_entry, answer) = apply(&mut state, prepared);
    assert!(rt; matches!(answer, Answer::Done));
    assert_eq!(rt;
        state.counters,
        Counters {
            position: 2,
            last_tick: 1,
            next_instance: 1,
            draws: Draws { device: 7, next: 1 },
        }
    );
    let Ok(Answer::Settings(settings)) = ask(alloc, &state, Hand::Lister, &Query::Settings) else {
        return Err("no settings".into());
    };
    assert!(rt; settings.auto_send);
    entries_within_limits_fit_a_payload();
    Ok(())
}

// The number of the refusal of a command over the initial state.
fn refusal_of(alloc: Global, command: Command) -> u64 {
    match decide(alloc, &State::initial(alloc), Hand::Script, command) {
        Ok(_) => 0,
        Err(why) => why.number(),
    }
}

fn asking(alloc: Global, length: usize) -> Result<Command, NoMemory> {
    match Text::from_bytes(alloc, &vec![in alloc; b'a'; length]?) {
        Ok(id) => Ok(Command::Ask(id)),
        Err(_) => Err(NoMemory),
    }
}

#[test]
fn values_have_limits(rt: HostRuntime) -> Result<(), Fail> {
    let alloc = rt.alloc();
    assert_eq!(rt; refusal_of(alloc, Command::AutoSend(true)), 0);
    assert_eq!(rt; refusal_of(alloc, Command::RoundDone), 24);
    assert_eq!(rt; refusal_of(alloc, asking(alloc, 4_096)?), 24);
    assert_eq!(rt; refusal_of(alloc, asking(alloc, 4_097)?), 1);
    let begun = Command::SendBegun {
        number: 1,
        at: 253_402_300_800,
    };
    assert_eq!(rt; refusal_of(alloc, begun), 1);
    Ok(())
}

// Whether the sender takes the lock of the instances.
fn takes_lock(alloc: Global, state: &mut State) -> Result<bool, Fail> {
    let take = Command::TakeLock(Round::Send);
    let Ok(prepared) = decide(alloc, state, Hand::Sender, take) else {
        return Err("refused".into());
    };
    state.reserve()?;
    let (_entry, answer) = apply(state, prepared);
    Ok(matches!(answer, Answer::Done))
}

#[test]
fn a_held_lock_keeps_a_device_busy(rt: HostRuntime) -> Result<(), Fail> {
    let mut state = State::initial(rt.alloc());
    assert_eq!(rt; busy(&state), 0);
    assert!(rt; takes_lock(rt.alloc(), &mut state)?);
    assert_eq!(rt; busy(&state), 1);
    assert_eq!(rt; due(&state, Hand::Sender), 0);
    Ok(())
}
