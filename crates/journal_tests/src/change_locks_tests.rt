use change_locks::*;
use entry_form::{Hand, Lock};
use std::test::Fail;

#[test]
fn a_lock_has_one_holder(rt: HostRuntime) -> Result<(), Fail> {
    let mut locks = Locks::make();
    let sender = Held {
        hand: Hand::Sender,
        since: 7,
    };
    assert_eq!(rt; locks.take(Lock::Instances, Hand::Sender, 7), Ok(()));
    assert_eq!(rt; locks.holder(Lock::Instances), Some(sender));
    assert_eq!(rt; locks.holder(Lock::Forms), None);
    assert_eq!(rt; locks.take(Lock::Instances, Hand::Script, 8), Err(sender));
    assert_eq!(rt;
        locks.release(Lock::Instances, Hand::Script),
        Err(Some(sender))
    );
    assert_eq!(rt; locks.release(Lock::Forms, Hand::Sender), Err(None));
    assert_eq!(rt; locks.release(Lock::Instances, Hand::Sender), Ok(()));
    assert_eq!(rt; locks.take(Lock::Instances, Hand::Script, 9), Ok(()));
    Ok(())
}
