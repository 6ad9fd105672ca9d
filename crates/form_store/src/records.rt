use field_text::{Blob, Text};

/// A form that is kept.
#[derive(Debug, Drop)]
pub struct FormRec {
    pub id: Text,
    pub version: Text,
    /// The form's document.
    pub bytes: Blob,
    /// The hash of the bytes, as a form list has it.
    pub hash: Text,
    /// Whether the form asks for instances to be sent at once, where it says so.
    pub auto: Option<bool>,
    /// The position of the entry that put it last.
    pub put_at: u64,
    /// A hidden form stays for the instances that name it.
    pub visible: bool,
    /// Whether the files of its manifest are known.
    pub complete: bool,
}

/// What a form would meet that is put into a store.
#[derive(Clone, Copy, Debug, PartialEq, Eq)]
pub enum Check {
    /// Nothing of its id and version is kept, and there is room within the limit.
    Fresh,
    /// The record at this place has its id, version and bytes.
    Same(u64),
    /// The record at this place has its id and version, and other bytes.
    OtherBytes(u64),
    /// Nothing of its id and version is kept, and as many forms are as may be.
    Full,
}
