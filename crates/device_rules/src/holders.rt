// Tests of a lock: who may not hold it, or must.
ghost use Rattle.std.specs.Prelude.{◌≡◌};
ghost use Rattle.field_text.specs.Steps.{Gives};
ghost use Rattle.device_state.specs.Holding.{is_held_by};
ghost use Rattle.device_rules.specs.Holders as spec;
ghost use Rattle.device_rules.specs.Refused.{rule_of};

use crate::refused::Refused;
use change_locks::Held;
use entry_form::Hand;

// Nobody holds it.
pub(crate) fn free(holder: Option<Held>) -> Result<(), Refused>
    ensures { Gives rule_of (λ u. u) result (spec.free holder) }
{
    match holder {
        Some(held) => Err(Refused::Busy {
            hand: held.hand,
            since: held.since,
        }),
        None => Ok(()),
    }
}

pub(crate) fn is_held_by(holder: Option<Held>, hand: Hand) -> bool
    ensures { result ≡ is_held_by hand holder }
{
    match holder {
        Some(held) => held.hand.number() == hand.number(),
        None => false,
    }
}

// No other hand holds it.
pub(crate) fn free_for(holder: Option<Held>, hand: Hand) -> Result<(), Refused>
    ensures { Gives rule_of (λ u. u) result (spec.free_for hand holder) }
{
    if is_held_by(holder, hand) {
        return Ok(());
    }
    free(holder)
}

// This hand holds it.
pub(crate) fn held_by(holder: Option<Held>, hand: Hand) -> Result<(), Refused>
    ensures { Gives rule_of (λ u. u) result (spec.held_by hand holder) }
{
    if !is_held_by(holder, hand) {
        return Err(Refused::NotHolder { holder });
    }
    Ok(())
}
