// What holds of the rules, as contracts of functions that do nothing.
ghost use Rattle.std.specs.Prelude.{◌≡◌, ◌≢◌, ◌≤◌, length, Err, Ok};
ghost use Rattle.entry_form.specs.declared.entry.Entry.{Entry};
ghost use Rattle.device_state.specs.declared.state.State.{State};
ghost use Rattle.device_rules.specs.declared.refused.Refused.TheVariants.{BadValue};
ghost use Rattle.device_rules.specs.Limits.{answer_in};
ghost use Rattle.device_rules.specs.Payload.{FitsPayload};
ghost use Rattle.device_rules.specs.Step.{step};

/// An entry whose values are within their limits is spelled within the largest payload of a journal, if the answer
/// that it carries, which a question tells, has at most 2,000 bytes.
pub fn entries_within_limits_fit_a_payload()
    ensures { (state : State) (entry : Entry) → step state entry ≢ Err BadValue → length (answer_in entry) ≤ 2000
        → FitsPayload entry }
{}
