use device_state::Settings;
use entity_lists::EntityRow;
use field_text::{Blob, Items, Text};
use http_wire::Address;
use instance_store::Status;
use kept_forms::FieldLine;

/// A form that is kept.
#[derive(Debug, Drop)]
pub struct FormLine {
    pub id: Text,
    pub version: Text,
    pub hash: Text,
    pub visible: bool,
}

/// An instance that is kept.
#[derive(Debug, Drop)]
pub struct InstanceLine {
    pub number: u64,
    pub status: Status,
    pub id: Text,
    pub version: Text,
    /// The id in the finalized document.
    pub instance_id: Option<Text>,
}

/// The questionnaire that is being filled in.
#[derive(Debug, Drop)]
pub struct EntryView {
    pub id: Text,
    pub version: Text,
    /// The fields that are no groups, in document order.
    pub fields: Items<FieldLine>,
}

/// What finalizing all drafts came to.
#[derive(Clone, Copy, Debug, PartialEq, Eq)]
pub struct Finalized {
    pub finalized: u64,
    /// How many couldn't be finalized.
    pub invalid: u64,
    /// How many were left, since they are being filled in or have a savepoint.
    pub skipped: u64,
}

/// How much a device keeps.
#[derive(Clone, Copy, Debug, PartialEq, Eq)]
pub struct Counts {
    pub forms: u64,
    pub instances: u64,
    /// The finalized instances that weren't taken by a server yet.
    pub queued: u64,
    pub sent: u64,
    pub lists: u64,
}

/// The next instance to send.
#[derive(Debug, Drop)]
pub struct NextSend {
    pub number: u64,
    /// Its finalized document.
    pub doc: Blob,
    /// The base of the server's addresses; its parts are empty where the server has none.
    pub base: Address,
}

/// What is asked of a device, which changes nothing.
#[derive(Debug, Drop)]
pub enum Query {
    Settings,
    /// All forms that are kept, hidden ones too.
    Forms,
    Instances,
    EntryNow,
    /// The document of the instance with this number.
    DocOf(u64),
    /// The entities of the list of this name; of a list that isn't there none.
    Entities(Text),
    /// The first instance that is due for the hand.
    NextSend,
    Counts,
}

/// What a device answers to a command or a query.
#[derive(Debug, Drop)]
pub enum Answer {
    Done,
    /// The number of the instance.
    Number(u64),
    Bulk(Finalized),
    Settings(Settings),
    Forms(Items<FormLine>),
    Instances(Items<InstanceLine>),
    EntryNow(Option<EntryView>),
    Doc(Blob),
    Entities(Items<EntityRow>),
    NextSend(Option<NextSend>),
    Counts(Counts),
}
