// What holds of any bytes, as contracts of functions that do nothing.
ghost use Rattle.std.specs.Prelude.{◌≡◌, ℕ, true, List, Result, Ok};
ghost use Rattle.form_list.specs.declared.entries.Listed.{Listed};
ghost use Rattle.form_list.specs.declared.entries.MediaFile.{MediaFile};
ghost use Rattle.form_list.specs.declared.refusal.ListRefused.{ListRefused};
ghost use Rattle.form_list.specs.Lists.{ReadsAs, form_list, manifest};
ghost use Rattle.form_list.specs.Writing.{is_file, is_form, list_text, manifest_text, reads_back};

/// Bytes are read as one list or one refusal at most.
pub fn one_reading()
    ensures lists { (bytes : List ℕ) (a b : Result (List Listed) ListRefused) → ReadsAs form_list bytes a
        → ReadsAs form_list bytes b → a ≡ b }
    ensures manifests { (bytes : List ℕ) (a b : Result (List MediaFile) ListRefused) → ReadsAs manifest bytes a
        → ReadsAs manifest bytes b → a ≡ b }
{}

/// Bytes are read as a list or a refusal, whichever bytes they are.
pub fn all_bytes_are_read()
    ensures lists { (bytes : List ℕ) → (reading : Result (List Listed) ListRefused) × ReadsAs form_list bytes reading }
    ensures manifests { (bytes : List ℕ) → (reading : Result (List MediaFile) ListRefused)
        × ReadsAs manifest bytes reading }
{}

/// What is written is read back as the same items: texts of characters that a document may hold and without white space
/// at their ends, what is needed isn't empty, each hash is one, and the number of items and the document are within
/// their limits.
pub fn written_lists_read()
    ensures lists { (forms : List Listed) → reads_back is_form 1000 forms (list_text forms) ≡ true
        → ReadsAs form_list (list_text forms) (Ok forms) }
    ensures manifests { (files : List MediaFile) → reads_back is_file 100 files (manifest_text files) ≡ true
        → ReadsAs manifest (manifest_text files) (Ok files) }
{}
