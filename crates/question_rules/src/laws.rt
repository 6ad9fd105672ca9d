ghost use Rattle.std.specs.Prelude.{◌≡◌, ℕ, List, Bool, length};
ghost use Rattle.field_text.specs.Tables.{NamedTable};
ghost use Rattle.form_def.specs.declared.form.FormDef.{FormDef};
ghost use Rattle.question_rules.specs.Shown.{IsShown};
ghost use Rattle.question_rules.specs.Settled.{IsSettled};
ghost use Rattle.question_rules.specs.Along.{shown_marks, settled};
ghost use Rattle.question_rules.specs.Answered.{answered};
ghost use Rattle.question_rules.specs.Faults.{first_fault_of, IsLeastFault};
ghost use Rattle.question_rules.specs.Orders.{DifferInOrder};

/// A law of the definitions: texts have one list of marks that is right.
pub fn marks_are_unique()
    ensures { (form : FormDef) (tables : List NamedTable) (texts : List (List ℕ)) (one other : List Bool)
        → IsShown form tables texts one → IsShown form tables texts other → one ≡ other }
{}

/// A law of the definitions: texts are settled in one way.
pub fn settled_texts_are_unique()
    ensures { (form : FormDef) (tables : List NamedTable) (before one other : List (List ℕ))
        → length before ≡ length form.fields
        → IsSettled form tables before one → IsSettled form tables before other → one ≡ other }
{}

/// A law of the definitions: a fault that is told is that of the least field that has one.
pub fn first_fault_is_the_least()
    ensures { (form : FormDef) (tables : List NamedTable) (texts : List (List ℕ))
        → IsLeastFault form tables texts (shown_marks form tables texts) (first_fault_of form tables texts) }
{}

/// A law of the definitions: which fields are shown doesn't depend on a form's order.
pub fn order_leaves_marks()
    ensures { (one other : FormDef) (tables : List NamedTable) (texts : List (List ℕ)) → DifferInOrder one other
        → length texts ≡ length one.fields → shown_marks one tables texts ≡ shown_marks other tables texts }
{}

/// A law of the definitions: settled texts don't depend on a form's order.
pub fn order_leaves_texts()
    ensures { (one other : FormDef) (tables : List NamedTable) (texts : List (List ℕ)) → DifferInOrder one other
        → length texts ≡ length one.fields → (settled one tables texts).texts ≡ (settled other tables texts).texts }
{}

/// A law of the definitions: the first fault doesn't depend on a form's order.
pub fn order_leaves_the_first_fault()
    ensures { (one other : FormDef) (tables : List NamedTable) (texts : List (List ℕ)) → DifferInOrder one other
        → length texts ≡ length one.fields → first_fault_of one tables texts ≡ first_fault_of other tables texts }
{}

/// A law of the definitions: what an answer makes of texts, or is refused for, doesn't depend on a form's order.
pub fn order_leaves_answers()
    ensures { (one other : FormDef) (tables : List NamedTable) (texts : List (List ℕ)) (path text : List ℕ)
        → DifferInOrder one other → length texts ≡ length one.fields
        → answered one tables texts path text ≡ answered other tables texts path text }
{}
