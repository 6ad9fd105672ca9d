use device_state::State;
use entry_form::Entry;
use field_text::Items;

/// An entry with the moment of the disk since which a crash leaves it: for an entry that opening found the moment after
/// opening's first sync.
#[derive(Debug, Drop)]
pub struct Marked {
    pub entry: Entry,
    pub moment: u64,
}

/// A start and what came after it.
#[derive(Debug, Drop)]
pub struct Trail {
    pub start: State,
    pub entries: Items<Marked>,
}
