// Who holds the locks.
ghost use Rattle.std.specs.Prelude.{◌≡◌};
ghost use Rattle.device_state.specs.Holding.{locks_changed};

use change_locks::{Held, Locks};
use entry_form::{Hand, Lock};

/// What becomes of the locks.
#[derive(Clone, Copy, Debug, PartialEq, Eq)]
pub enum LockChange {
    Keep,
    /// It is held so, if nobody holds it.
    Take { lock: Lock, held: Held },
    /// It is free, if this hand holds it.
    Release { lock: Lock, hand: Hand },
    /// Nobody holds a lock.
    FreeAll,
}

impl LockChange {
    pub(crate) fn put_into(self, locks: &mut Locks)
        ensures { locks.new ≡ locks_changed self locks.old }
    {
        match self {
            LockChange::Keep => {}
            LockChange::Take { lock, held } => {
                let _taken = locks.take(lock, held.hand, held.since);
            }
            LockChange::Release { lock, hand } => {
                let _released = locks.release(lock, hand);
            }
            LockChange::FreeAll => *locks = Locks::make(),
        }
    }
}
