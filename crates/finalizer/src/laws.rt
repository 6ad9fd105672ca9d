ghost use Rattle.std.specs.Prelude.{◌≡◌, ◌≢◌, ◌≤◌, ◌+◌, ◌^◌, ◌++◌, ℕ, codes, length, List, Ok};
ghost use Rattle.field_ids.specs.Draws.{IsInRange, NextDraw, drawn};
ghost use Rattle.form_def.specs.declared.form.FormDef.{FormDef};
ghost use Rattle.question_rules.specs.Fields.{text_at};
ghost use Rattle.question_rules.specs.Orders.{DifferInOrder};
ghost use Rattle.entity_lists.specs.declared.entity_list.EntityList.{EntityList};
ghost use Rattle.entity_lists.specs.EntityTables.{tables_of};
ghost use Rattle.finalizer.specs.declared.finals.Final.{Final};
ghost use Rattle.finalizer.specs.declared.finals.MetaIn.{MetaIn};
ghost use Rattle.finalizer.specs.Finals.{final_of, settled_sheet};
ghost use Rattle.finalizer.specs.Laws.{DrawsOn, IsDrawnBetween, IsFirstDrawn};

/// A law of the definitions: who finalizes an instance draws one id or two.
pub fn draws_go_on()
    ensures { (form : FormDef) (sheet : List (List ℕ)) (lists : List EntityList) (meta : MetaIn) (done : Final)
        → final_of form sheet lists meta ≡ Ok done → DrawsOn meta.draws done.draws }
{}

/// Laws of the definitions: the first id that is drawn is the instance's, and a text of its sheet that settling didn't
/// give is an id drawn behind it.
pub fn ids_are_drawn_in_turn()
    ensures instance { (form : FormDef) (sheet : List (List ℕ)) (lists : List EntityList) (meta : MetaIn) (done : Final)
        → final_of form sheet lists meta ≡ Ok done → IsFirstDrawn meta.draws done.instance_id }
    ensures entity { (form : FormDef) (sheet : List (List ℕ)) (lists : List EntityList) (meta : MetaIn) (done : Final)
        → final_of form sheet lists meta ≡ Ok done → (number : ℕ)
        → text_at done.sheet number ≢ text_at (settled_sheet form (tables_of lists) sheet) number
        → IsDrawnBetween (drawn meta.draws 1) done.draws (text_at done.sheet number) }
{}

/// A law of the definitions: ids that are drawn one after another differ, whatever the numbers of the devices.
pub fn drawn_ids_differ()
    ensures { (a b c d : NextDraw) (one other : List ℕ) → IsInRange a → IsInRange c → IsInRange d
        → b.next ≤ c.next → IsDrawnBetween a b one → IsDrawnBetween c d other → one ≢ other }
{}

/// A law of the definitions: the entity's id, where one is drawn, isn't that of the instance.
pub fn ids_of_an_instance_differ()
    ensures { (form : FormDef) (sheet : List (List ℕ)) (lists : List EntityList) (meta : MetaIn) (done : Final)
        → IsInRange meta.draws → meta.draws.next + 2 ≤ 2 ^ 62 → final_of form sheet lists meta ≡ Ok done → (number : ℕ)
        → text_at done.sheet number ≢ text_at (settled_sheet form (tables_of lists) sheet) number
        → done.instance_id ≢ codes "uuid:" ++ text_at done.sheet number }
{}

/// A law of the definitions: what is finalized doesn't depend on a form's order.
pub fn order_leaves_finals()
    ensures { (one other : FormDef) (sheet : List (List ℕ)) (lists : List EntityList) (meta : MetaIn)
        → DifferInOrder one other → length sheet ≡ length one.fields
        → final_of one sheet lists meta ≡ final_of other sheet lists meta }
{}
