ghost use Rattle.std.specs.Prelude.{◌≡◌};
ghost use Rattle.std.specs.Option.{option_copied};
ghost use Rattle.rosa_box.specs.Kept.{kept_under};

use field_text::{Blob, Items, Text};
use form_list::{Listed, MediaFile};

/// A form that the server has.
#[derive(Debug, Drop)]
pub struct BoxForm {
    /// What the form list says of it.
    pub listed: Listed,
    /// Its document.
    pub bytes: Blob,
    /// The files of its manifest.
    pub media: Items<MediaFile>,
}

/// An entity list that the server has, as a table.
#[derive(Debug, Drop)]
pub struct BoxList {
    pub name: Text,
    pub bytes: Blob,
}

/// A document that was submitted, and the instance id in it.
#[derive(Debug, Drop)]
pub struct BoxKept {
    pub instance_id: Text,
    pub bytes: Blob,
}

/// What a server has.
#[derive(Debug, Drop)]
pub struct BoxState {
    /// Its host, and perhaps a port.
    pub authority: Text,
    pub forms: Items<BoxForm>,
    pub lists: Items<BoxList>,
    /// The submissions, in the order in which they came.
    pub kept: Items<BoxKept>,
}

/// The first document that is kept under an id.
pub(crate) fn kept_under<'a>(kept: &'a [BoxKept], id: &Text) -> Option<&'a BoxKept>
    ensures { option_copied result ≡ kept_under id.now kept.now }
{
    kept.iter()
        .find(|kept| kept.instance_id.bytes() == id.bytes())
}
