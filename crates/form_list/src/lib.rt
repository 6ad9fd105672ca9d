//! Form lists and manifests (OpenRosa Form List API 1.0): read from documents, and written so that they read back.
#![tactic(auto)]

mod entries;
mod laws;
mod reading;
mod refusal;
mod writing;

pub use entries::{Listed, MediaFile};
pub use laws::{all_bytes_are_read, one_reading, written_lists_read};
pub use reading::{FORM_LIMIT, MEDIA_LIMIT, read_list, read_manifest};
pub use refusal::{Child, ListRefused};
pub use writing::{write_list, write_manifest};
