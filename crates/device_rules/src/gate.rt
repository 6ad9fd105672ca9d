use entry_form::Hand;

/// Where a hand stands when it turns a gate.
#[derive(Clone, Copy, Debug, PartialEq, Eq)]
pub enum Place {
    /// Nothing is due.
    Idle,
    /// Its lock is held by another hand.
    Locked,
    BeforeExchange,
    AfterExchange,
    Look,
}

/// What a hand passes between its calls, as a scheduler of tests or a wait.
pub trait Gate {
    fn turn(&mut self, hand: Hand, place: Place);
}
