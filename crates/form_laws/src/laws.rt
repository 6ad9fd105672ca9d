// What holds of any bytes, as contracts of functions that do nothing.
ghost use Rattle.std.specs.Prelude.{◌≡◌, ◌≢◌, ◌⊎◌, ℕ, true, List, Result, Ok, Err, length};
ghost use Rattle.form_def.specs.declared.field.Field.{Field};
ghost use Rattle.form_def.specs.declared.form.FormDef.{FormDef};
ghost use Rattle.form_def.specs.Fields.{are_within};
ghost use Rattle.form_def.specs.Order.{is_order};
ghost use Rattle.form_order.specs.Cycles.{NoCycle};
ghost use Rattle.form_read.specs.declared.refusal.FormRefused.{FormRefused};
ghost use Rattle.form_read.specs.declared.refusal.FormRefused.TheVariants.{NoMemory};
ghost use Rattle.form_read.specs.Forms.{IsCycle, Describes, Refuses};
ghost use Rattle.question_rules.specs.Orders.{DifferInOrder};
ghost use Rattle.form_laws.specs.Readings.{ReadsAs};
ghost use Rattle.form_laws.specs.FormOf.{form_of};

/// Fields that read fields of the form alone have an order, or the first of them that depends on
/// itself has a path.
pub fn fields_have_an_order_or_a_first_cycle()
    ensures { (fields : List Field) → are_within (length fields) 0 fields ≡ true
        → ((order : List ℕ) × (is_order fields order ≡ true) × NoCycle fields)
        ⊎ ((path : List ℕ) × IsCycle fields path) }
{}

/// Bytes are a form or a refusal, whichever bytes they are.
pub fn bytes_are_one_form_or_one_refusal()
    ensures { (bytes : List ℕ) → ReadsAs bytes (form_of bytes) }
{}

/// Bytes that describe a form have one that differs from it at most in the order of its fields.
pub fn described_bytes_have_a_form()
    ensures { (bytes : List ℕ) (form : FormDef) → Describes bytes form
        → (f : FormDef) × (form_of bytes ≡ Ok f) × DifferInOrder f form }
{}

/// Bytes that are refused have this refusal, unless memory ran out.
pub fn refused_bytes_have_their_refusal()
    ensures { (bytes : List ℕ) (why : FormRefused) → Refuses bytes why → why ≢ NoMemory → form_of bytes ≡ Err why }
{}

/// Memory never runs out.
pub fn memory_is_never_wanted()
    ensures { (bytes : List ℕ) → form_of bytes ≢ Err NoMemory }
{}

/// Bytes describe the form that they have.
pub fn the_form_is_described()
    ensures { (bytes : List ℕ) (form : FormDef) → form_of bytes ≡ Ok form → Describes bytes form }
{}

/// Bytes are refused for what they have in place of a form.
pub fn the_refusal_is_a_cause()
    ensures { (bytes : List ℕ) (why : FormRefused) → form_of bytes ≡ Err why → Refuses bytes why }
{}

/// Bytes are refused for one cause, but for want of memory.
pub fn one_refusal()
    ensures { (bytes : List ℕ) (a b : FormRefused) → Refuses bytes a → a ≢ NoMemory → Refuses bytes b → b ≢ NoMemory
        → a ≡ b }
{}
