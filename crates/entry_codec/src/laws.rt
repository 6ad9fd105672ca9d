ghost use Rattle.std.specs.Prelude.{◌≡◌, ◌++◌, ℕ, List, []};
ghost use Rattle.entry_form.specs.declared.entry.Entry.{Entry};
ghost use Rattle.entry_codec.specs.Spelling.{Fits, spelling};

/// A law of the definitions: an entry has no second spelling and a spelling no second entry, and none goes on where
/// another ends.
pub fn no_spelling_begins_another()
    ensures { (one other : Entry) (rest : List ℕ) → Fits one → Fits other → spelling other ≡ spelling one ++ rest
        → (other ≡ one) × (rest ≡ []) }
{}
