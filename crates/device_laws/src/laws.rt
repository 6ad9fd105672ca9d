ghost use Rattle.std.specs.Prelude.{◌≡◌, List, Some, Ok};
ghost use Rattle.std.specs.List.{AllByRecursion};
ghost use Rattle.entry_form.specs.declared.entry.Entry.{Entry};
ghost use Rattle.device_state.specs.State.{initial};
ghost use Rattle.device_state.specs.declared.state.State.{State};
ghost use Rattle.device_rules.specs.declared.answer.Answer.{Answer};
ghost use Rattle.device_rules.specs.Step.{step};
ghost use Rattle.device_rules.specs.Trail.{replay};
ghost use Rattle.device_laws.specs.DrawnIds.{KeepsIdsApart};
ghost use Rattle.device_laws.specs.Finals.{IsOrderly, KeepsFinals, StaysFinal};
ghost use Rattle.device_laws.specs.Sends.{KeepsSends};
ghost use Rattle.device_laws.specs.Soundness.{IsSound, KeepsUsedForms, StaysWhereNamed};

/// A law of the rules: before the first entry nothing names a form.
pub fn initial_is_sound()
    ensures { IsSound initial }
{}

/// A law of the rules: where each form version that something names is kept, it is so behind an entry too.
pub fn steps_keep_soundness()
    ensures { (state next : State) (entry : Entry) (answer : Answer) → IsSound state
        → step state entry ≡ Ok (next, answer) → IsSound next }
{}

/// A law of the rules: over every legal history each form version that an instance, a savepoint or the open
/// questionnaire names is kept, and its bytes are a form with that id and version.
pub fn histories_are_sound()
    ensures { (entries : List Entry) (state : State) → replay initial entries ≡ Some state → IsSound state }
{}

/// A law of the rules: an entry leaves each form that something names behind it with the bytes that it had.
pub fn used_forms_stay()
    ensures { (state next : State) (entry : Entry) (answer : Answer) → IsSound state
        → step state entry ≡ Ok (next, answer) → AllByRecursion (StaysWhereNamed next) state.forms.items }
{}

/// A law of the rules: over each history the forms that something names are kept and stay as they are.
pub fn histories_keep_used_forms()
    ensures { (entries : List Entry) → KeepsUsedForms entries }
{}

/// A law of the rules: where numbers of instances are given once, no finalized instance is filled in further and each
/// send in flight is of an instance of its own in the queue, it is so behind an entry too.
pub fn steps_keep_order()
    ensures { (state next : State) (entry : Entry) (answer : Answer) → IsOrderly state
        → step state entry ≡ Ok (next, answer) → IsOrderly next }
{}

/// A law of the rules: over every legal history numbers of instances are given once, no finalized instance is filled in
/// further, and each send in flight is of an instance of its own in the queue.
pub fn histories_are_orderly()
    ensures { (entries : List Entry) (state : State) → replay initial entries ≡ Some state → IsOrderly state }
{}

/// A law of the rules: whatever entries come, an instance that is finalized is kept as it is or thrown away, and no
/// other one gets its number.
pub fn finalized_instances_stay()
    ensures { (entries : List Entry) (state next : State) → IsOrderly state → replay state entries ≡ Some next
        → AllByRecursion (StaysFinal next) state.instances.items }
{}

/// A law of the rules: over each history finalized instances stay as they are.
pub fn histories_keep_finals()
    ensures { (entries : List Entry) → KeepsFinals entries }
{}

/// A law of the rules: over each history no two instances have one id, whenever they are kept, and ids that are drawn
/// for two entries differ, whatever numbers the device was opened with.
pub fn histories_keep_ids_apart()
    ensures { (entries : List Entry) → KeepsIdsApart entries }
{}

/// A law of the rules: over each history an instance is sent exactly where a reply that accepts it was recorded for a
/// send of it that was begun; until then it is in the queue. One send of an instance is in flight at most.
pub fn histories_keep_sends()
    ensures { (entries : List Entry) → KeepsSends entries }
{}
