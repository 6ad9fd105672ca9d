ghost use Rattle.std.specs.Prelude.{◌≡◌, Some, None, Ok, Err, MatchOption, MatchResult};
ghost use Rattle.change_locks.specs.Locks.{all_free, holder_of, with_holder, IsHeldBy};

use crate::Held;
use entry_form::{Hand, Lock};
use std::marker::Model;

/// The two locks, seen as their holders. No call takes memory.
#[derive(Debug, Drop)]
pub struct Locks {
    forms: Option<Held>,
    instances: Option<Held>,
}

impl Model for Locks {
    ghost use Rattle.change_locks.specs.Locks.{Holders};

    ghost Value = { Holders };

    ghost view = { λ l. record { forms = l.forms; instances = l.instances } };
}

impl Locks {
    /// Nobody holds a lock.
    pub fn make() -> Locks
        ensures { result ≡ all_free }
    {
        Locks {
            forms: None,
            instances: None,
        }
    }

    pub fn holder(&self, lock: Lock) -> Option<Held>
        ensures { result ≡ holder_of self.now lock }
    {
        match lock {
            Lock::Forms => self.forms,
            Lock::Instances => self.instances,
        }
    }

    /// Takes a lock that nobody holds, by the entry at this position.
    pub fn take(&mut self, lock: Lock, hand: Hand, position: u64) -> Result<(), Held>
        ensures { MatchOption (holder_of self.old lock)
            ((result ≡ Ok tt) × (self.new ≡ with_holder self.old lock
            (Some (record { hand = hand; since = position }))))
            (λ held. (result ≡ Err held) × (self.new ≡ self.old)) }
    {
        if let Some(held) = self.holder(lock) {
            return Err(held);
        }
        self.set(
            lock,
            Some(Held {
                hand,
                since: position,
            }),
        );
        Ok(())
    }

    /// Gives back a lock that this hand holds.
    pub fn release(&mut self, lock: Lock, hand: Hand) -> Result<(), Option<Held>>
        ensures { MatchResult result
            (λ _. IsHeldBy (holder_of self.old lock) hand × (self.new ≡ with_holder self.old lock None))
            (λ held. ¬ (IsHeldBy (holder_of self.old lock) hand) × (held ≡ holder_of self.old lock)
            × (self.new ≡ self.old)) }
    {
        match self.holder(lock) {
            Some(held) if held.hand == hand => {
                self.set(lock, None);
                Ok(())
            }
            holder => Err(holder),
        }
    }

    fn set(&mut self, lock: Lock, holder: Option<Held>)
        ensures { self.new ≡ with_holder self.old lock holder }
    {
        match lock {
            Lock::Forms => self.forms = holder,
            Lock::Instances => self.instances = holder,
        }
    }
}
