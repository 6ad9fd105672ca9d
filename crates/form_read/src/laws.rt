// What holds of any bytes, as contracts of functions that do nothing.
ghost use Rattle.std.specs.Prelude.{◌≡◌, ℕ, List};
ghost use Rattle.form_def.specs.declared.form.FormDef.{FormDef};
ghost use Rattle.form_read.specs.declared.refusal.FormRefused.{FormRefused};
ghost use Rattle.form_read.specs.declared.refusal.FormRefused.TheVariants.{NoMemory};
ghost use Rattle.form_read.specs.Forms.{unordered, Describes, Refuses};

/// Bytes describe one form at most, but for the order that it keeps of its fields.
pub fn one_form()
    ensures { (bytes : List ℕ) (a b : FormDef) → Describes bytes a → Describes bytes b → unordered a ≡ unordered b }
{}

/// Bytes that describe a form are refused for want of memory alone.
pub fn form_or_refusal()
    ensures { (bytes : List ℕ) (form : FormDef) (refusal : FormRefused) → Describes bytes form → Refuses bytes refusal
        → refusal ≡ NoMemory }
{}
