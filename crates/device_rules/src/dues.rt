// Which instances are due to be sent by a hand, and how busy a device is.
ghost use Rattle.std.specs.Prelude.{◌≡◌, ◌<◌, ◌^◌, option_map};
ghost use Rattle.device_state.specs.State.{plain};
ghost use Rattle.device_rules.specs.Due.{busy_of, count_due, due_for, form_auto, held_once, in_round, is_auto, is_due, is_for};
ghost use Rattle.device_rules.specs.Due.{is_queued, is_resting, is_untried, next_due};

use crate::start::record_at;
use change_locks::Held;
use device_state::{Counters, State, has_flight};
use entry_form::{Hand, Lock};
use instance_store::{InstanceRec, Status};

pub(crate) fn is_queued(instance: &InstanceRec) -> bool
    ensures { result ≡ is_queued instance.now }
{
    match instance.status {
        Status::Finalized | Status::SendFailed => true,
        Status::Draft | Status::Invalid | Status::Sent => false,
    }
}

// In a round of the script: it wasn't tried since the round began.
fn in_round(holder: Option<Held>, instance: &InstanceRec) -> bool
    ensures { result ≡ in_round holder instance.now }
{
    match holder {
        Some(held) => held.hand.number() == Hand::Script.number() && instance.tried < held.since,
        None => false,
    }
}

// What its form says of sending at once.
fn form_auto(state: &State, instance: &InstanceRec) -> Option<bool>
    ensures { result ≡ form_auto (plain state.now) instance.now }
{
    match record_at(
        &state.forms,
        state.forms.exact(&instance.form, &instance.version),
    ) {
        Some(kept) => kept.auto,
        None => None,
    }
}

fn is_auto(state: &State, instance: &InstanceRec) -> bool
    ensures { result ≡ is_auto (plain state.now) instance.now }
{
    match form_auto(state, instance) {
        Some(auto) => auto,
        None => state.settings.auto_send,
    }
}

// It wasn't tried since it was finalized, or not since the last tick.
fn is_untried(counters: Counters, instance: &InstanceRec) -> bool
    ensures { result ≡ is_untried counters instance.now }
{
    instance.tried < instance.final_at || instance.tried < counters.last_tick
}

fn is_for(state: &State, hand: Hand, instance: &InstanceRec) -> bool
    ensures { result ≡ is_for (plain state.now) hand instance.now }
{
    match hand {
        Hand::Script => in_round(state.locks.holder(Lock::Instances), instance),
        Hand::Sender => is_auto(state, instance) && is_untried(state.counters, instance),
        Hand::Updater | Hand::Lister => false,
    }
}

// Queued, with no send of it in flight.
fn is_resting(state: &State, instance: &InstanceRec) -> bool
    ensures { result ≡ is_resting (plain state.now) instance.now }
{
    is_queued(instance) && !has_flight(state.flights.as_slice(), instance.number)
}

pub(crate) fn is_due(state: &State, hand: Hand, instance: &InstanceRec) -> bool
    ensures { result ≡ is_due (plain state.now) hand instance.now }
{
    is_resting(state, instance) && is_for(state, hand, instance)
}

// The first instance that is due.
pub(crate) fn next_due(state: &State, hand: Hand) -> Option<&InstanceRec>
    ensures { option_map (λ instance. instance.now) result ≡ next_due (plain state.now) hand }
{
    state
        .instances
        .as_slice()
        .iter()
        .find(|instance| is_due(state, hand, instance))
}

fn count_due(state: &State, hand: Hand) -> u64
    ensures count { result ≡ count_due (plain state.now) hand }
    ensures within { result < 2 ^ 63 }
{
    state
        .instances
        .as_slice()
        .iter()
        .filter(|instance| is_due(state, hand, instance))
        .count() as u64
}

/// How many instances are due to be sent by the hand. It takes no memory.
pub fn due(state: &State, hand: Hand) -> u64
    ensures due { result ≡ due_for (plain state.now) hand }
    ensures within { result < 2 ^ 63 }
{
    match hand {
        Hand::Script | Hand::Sender => count_due(state, hand),
        Hand::Updater | Hand::Lister => 0,
    }
}

fn held_once(holder: Option<Held>) -> u64
    ensures { result ≡ held_once holder }
{
    match holder {
        Some(_) => 1,
        None => 0,
    }
}

/// What is due for the three workers, and how many locks are held. It takes no memory.
pub fn busy(state: &State) -> u64
    ensures { result ≡ busy_of (plain state.now) }
{
    due(state, Hand::Sender)
        + due(state, Hand::Updater)
        + due(state, Hand::Lister)
        + held_once(state.locks.holder(Lock::Forms))
        + held_once(state.locks.holder(Lock::Instances))
}
