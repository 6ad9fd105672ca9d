// What holds of any bytes and texts, as contracts of functions that do nothing.
ghost use Rattle.std.specs.Prelude.{◌≡◌, ℕ, List, Result, map};
ghost use Rattle.std.specs.List.{flat_map};
ghost use Rattle.field_text.specs.Xml.{xml_char_of};
ghost use Rattle.rosa_doc.specs.declared.tree.Doc.{Doc};
ghost use Rattle.rosa_doc.specs.declared.refusal.DocRefused.{DocRefused};
ghost use Rattle.rosa_doc.specs.Refusals.{ReadsAs};
ghost use Rattle.rosa_doc.specs.Escapes.{in_text, in_value, TextReadsAs, ValueReadsAs};

/// Bytes are read as one document or one refusal at most.
pub fn one_reading()
    ensures { (bytes : List ℕ) (a b : Result Doc DocRefused) → ReadsAs bytes a → ReadsAs bytes b → a ≡ b }
{}

/// Bytes are read as a document or a refusal, whichever bytes they are.
pub fn all_bytes_are_read()
    ensures { (bytes : List ℕ) → (reading : Result Doc DocRefused) × ReadsAs bytes reading }
{}

/// What the writers append is read back as their text, where U+FFFD takes the place of each character that no document
/// may hold.
pub fn written_reads()
    ensures text { (cs : List ℕ) → TextReadsAs (map xml_char_of cs) (flat_map in_text cs) }
    ensures value { (cs : List ℕ) → ValueReadsAs (map xml_char_of cs) (flat_map in_value cs) }
{}
