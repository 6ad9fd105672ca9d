ghost use Rattle.std.specs.Prelude.{◌≡◌, IfOk};

use field_text::{Blob, NoMemory, Text};
use question_rules::Sheet;
use std::alloc::Global;

/// How far an instance has come on its way to the server.
#[derive(Clone, Copy, Debug, PartialEq, Eq)]
pub enum Status {
    /// It was saved, and may be filled in further.
    Draft,
    /// It was to be finalized with others, and lacks something.
    Invalid,
    /// It has its document, which no longer changes.
    Finalized,
    /// Its last sending was not accepted.
    SendFailed,
    /// A reply accepted it.
    Sent,
}

/// An instance that is kept.
#[derive(Debug, Drop)]
pub struct InstanceRec {
    /// By it the instance is known to the device.
    pub number: u64,
    pub form: Text,
    pub version: Text,
    pub status: Status,
    pub sheet: Sheet,
    /// The finalized document.
    pub doc: Option<Blob>,
    /// The id in the finalized document.
    pub instance_id: Option<Text>,
    /// The number of the instance that this one is an edit of.
    pub edit_of: Option<u64>,
    /// The id of the instance that this one is an edit of.
    pub deprecated: Option<Text>,
    /// The position of the entry that finalized it, 0 before.
    pub final_at: u64,
    /// The position of the entry that sent it last, 0 before.
    pub tried: u64,
}

fn copy_text(alloc: Global, text: &Option<Text>) -> Result<Option<Text>, NoMemory>
    ensures { IfOk result (λ copy. copy ≡ text.now) }
{
    match text {
        Some(text) => Ok(Some(text.copy(alloc)?)),
        None => Ok(None),
    }
}

fn copy_blob(alloc: Global, blob: &Option<Blob>) -> Result<Option<Blob>, NoMemory>
    ensures { IfOk result (λ copy. copy ≡ blob.now) }
{
    match blob {
        Some(blob) => Ok(Some(blob.copy(alloc)?)),
        None => Ok(None),
    }
}

impl InstanceRec {
    pub fn copy(&self, alloc: Global) -> Result<InstanceRec, NoMemory>
        ensures { IfOk result (λ copy. copy ≡ self.now) }
    {
        Ok(InstanceRec {
            number: self.number,
            form: self.form.copy(alloc)?,
            version: self.version.copy(alloc)?,
            status: self.status,
            sheet: self.sheet.copy(alloc)?,
            doc: copy_blob(alloc, &self.doc)?,
            instance_id: copy_text(alloc, &self.instance_id)?,
            edit_of: self.edit_of,
            deprecated: copy_text(alloc, &self.deprecated)?,
            final_at: self.final_at,
            tried: self.tried,
        })
    }
}
