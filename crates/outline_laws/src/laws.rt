// What holds of any outline, as contracts of functions that do nothing.
ghost use Rattle.std.specs.Prelude.{◌≡◌, ℕ, List, Some, Err};
ghost use Rattle.form_def.specs.declared.form.FormDef.{FormDef};
ghost use Rattle.form_outline.specs.Outlines.{Outlines};
ghost use Rattle.form_outline.specs.declared.outline.Outline.{Outline};
ghost use Rattle.form_read.specs.Drafts.{draft_of};
ghost use Rattle.form_read.specs.Forms.{IsFormOf};
ghost use Rattle.form_read.specs.declared.refusal.FormRefused.{FormRefused};
ghost use Rattle.outline_laws.specs.FirstRefusals.{first_refusal};
ghost use Rattle.outline_laws.specs.FormFields.{FormSays};

/// The fields of a form are the elements of its primary instance, and then those of `meta`; each has what the first bind
/// with its path and the one control with its leaf say. A table is the first instance of its id.
pub fn a_form_says_what_its_outline_says()
    ensures { (bytes : List ℕ) (outline : Outline) (form : FormDef) → Outlines bytes outline → IsFormOf outline form
        → FormSays outline form }
{}

/// Where the parts of a document are refused, it is for the first in document order of the causes that they have.
pub fn a_refusal_is_the_first_cause()
    ensures { (outline : Outline) (why : FormRefused) → draft_of outline ≡ Err why → first_refusal outline ≡ Some why }
{}

/// Where a part has a cause, the first is what the document is refused for.
pub fn the_first_cause_is_the_refusal()
    ensures { (outline : Outline) (why : FormRefused) → first_refusal outline ≡ Some why → draft_of outline ≡ Err why }
{}
