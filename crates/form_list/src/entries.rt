use field_text::Text;

/// A form of a form list.
#[derive(Debug, Drop)]
pub struct Listed {
    /// The child `formID`.
    pub form_id: Text,
    /// Empty where there is none.
    pub name: Text,
    /// Empty where there is none.
    pub version: Text,
    pub hash: Text,
    /// Where the form is, the child `downloadUrl`.
    pub download: Text,
    /// Where its manifest is, the child `manifestUrl`.
    pub manifest: Option<Text>,
}

/// A media file of a manifest.
#[derive(Debug, Drop)]
pub struct MediaFile {
    pub filename: Text,
    pub hash: Text,
    /// Where the file is, the child `downloadUrl`.
    pub download: Text,
    /// Whether it is the list of a form's entities, by the attribute `type` (ODK Entities).
    pub entity_list: bool,
}
