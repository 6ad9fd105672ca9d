use field_text::Blob;

/// A call of a disk, as `MemDisk` keeps it.
#[derive(Debug, Drop)]
pub enum Call {
    Len,
    Read,
    Write { at: u64, bytes: Blob },
    Sync,
}
