use entry_form::*;
use field_io::Stage;
use field_text::{Blob, Text};
use std::test::Fail;

#[test]
fn hands_have_numbers_and_rounds_take_locks(rt: HostRuntime) -> Result<(), Fail> {
    let hands = [
        (Hand::Script, 0),
        (Hand::Sender, 1),
        (Hand::Updater, 2),
        (Hand::Lister, 3),
    ];
    for (hand, number) in hands {
        assert_eq!(rt; hand.number(), number);
    }
    let rounds = [
        (Round::Forms, Lock::Forms),
        (Round::Lists, Lock::Forms),
        (Round::Send, Lock::Instances),
    ];
    for (round, lock) in rounds {
        assert_eq!(rt; round.lock(), lock);
    }
    Ok(())
}

#[test]
fn copies_are_made(rt: HostRuntime) -> Result<(), Fail> {
    let alloc = rt.alloc();
    let opening = Opening {
        device: 7,
        server: Text::from_bytes(alloc, b"http://localhost:8080")?,
    };
    let opened = Entry::Opened(opening.copy(alloc)?).copy(alloc)?;
    assert_eq!(rt; opened.hand(), Hand::Script);
    let base = Base::Blank {
        form: Text::from_bytes(alloc, b"tree")?,
        version: Some(Text::from_bytes(alloc, b"2")?),
    };
    let start = Command::Start {
        base: base.copy(alloc)?,
        how: How::Discard,
    };
    let copy = start.copy(alloc)?;
    match &copy {
        Command::Start { base, how } => {
            assert_eq!(rt; *how, How::Discard);
            match base {
                Base::Blank { form, version } => {
                    assert_eq!(rt; form.bytes(), b"tree".as_slice());
                    let version = version.as_ref().ok_or("no version")?;
                    assert_eq!(rt; version.bytes(), b"2".as_slice());
                }
                _ => return Err("another base")?,
            }
        }
        _ => return Err("another command")?,
    }
    let reply = Outcome::Reply(Blob::from_bytes(alloc, &[1, 2])?).copy(alloc)?;
    assert!(rt; matches!(&reply, Outcome::Reply(bytes) if bytes.bytes().len() == 2));
    let done = Entry::Done {
        hand: Hand::Sender,
        command: Command::SendEnded {
            number: 3,
            outcome: Outcome::Fault(Stage::Take),
        },
    };
    assert_eq!(rt; done.copy(alloc)?.hand(), Hand::Sender);
    Ok(())
}
