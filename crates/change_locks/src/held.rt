use entry_form::Hand;

/// Who holds a lock, and the position of the entry that took it.
#[derive(Clone, Copy, Debug, PartialEq, Eq)]
pub struct Held {
    pub hand: Hand,
    pub since: u64,
}
