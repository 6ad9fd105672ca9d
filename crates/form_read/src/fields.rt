ghost use Rattle.std.specs.Prelude.{◌≡◌, [], ◌∷◌, IfOk, IfErr, OnOk, MatchOption, length, true};
ghost use Rattle.std.specs.Option.{option_copied};
ghost use Rattle.form_def.specs.Fields.{are_within};
ghost use Rattle.form_def.specs.Order.{is_order};
ghost use Rattle.form_order.specs.Cycles.{NoCycle};
ghost use Rattle.form_read.specs.Forms.{bound_in, asked_in, joined, field_of, fields_of, HasNoOrder};

use crate::FormRefused;
use crate::draft::{Asked, Bound};
use field_text::{Items, NoMemory};
use form_def::{Choices, Field, Kind};
use form_order::{OrderFault, order_of};
use form_outline::PrimaryField;
use std::alloc::Global;

fn bound_in(bound: Option<Bound>) -> Bound
    ensures { result ≡ bound_in bound }
{
    match bound {
        Some(bound) => bound,
        None => Bound {
            relevant: None,
            constraint: None,
            required: None,
            readonly: None,
            calculate: None,
            saveto: None,
        },
    }
}

fn asked_in(is_group: bool, asked: Option<Asked>) -> Asked
    ensures { result ≡ asked_in is_group asked }
{
    match asked {
        Some(asked) => asked,
        None => Asked {
            kind: if is_group { Kind::Group } else { Kind::Plain },
            choices: Choices::Nothing,
        },
    }
}

fn joined(slot: PrimaryField, bound: Bound, asked: Asked) -> Field
    ensures { result ≡ joined slot bound asked }
{
    let PrimaryField { path, initial, .. } = slot;
    let Bound {
        relevant,
        constraint,
        required,
        readonly,
        calculate,
        saveto,
    } = bound;
    let Asked { kind, choices } = asked;
    Field {
        path,
        kind,
        initial,
        relevant,
        constraint,
        required,
        readonly,
        calculate,
        saveto,
        choices,
    }
}

/// The field of a slot, with what its bind and its control say.
fn field_of(slot: PrimaryField, bound: Option<Bound>, asked: Option<Asked>) -> Field
    ensures { result ≡ field_of slot bound asked }
{
    let is_group = slot.is_group;
    joined(slot, bound_in(bound), asked_in(is_group, asked))
}

/// Takes the first of the items.
fn take_first<T: Drop>(items: &mut Items<T>) -> Option<T>
    ensures { MatchOption result (items.old ≡ []) (λ first. items.old ≡ first ∷ items.new) }
{
    if items.is_empty() {
        return None;
    }
    Some(items.remove(0))
}

/// The fields of these slots.
pub fn fields_of(
    alloc: Global,
    slots: Items<PrimaryField>,
    bounds: Items<Option<Bound>>,
    asked: Items<Option<Asked>>,
) -> Result<Items<Field>, NoMemory>
    ensures { IfOk result (λ fields. fields ≡ fields_of slots bounds asked) }
{
    let mut fields = Items::new(alloc);
    let mut slots_left = slots;
    let mut bounds_left = bounds;
    let mut asked_left = asked;
    while let Some(slot) = take_first(&mut slots_left) {
        let Some(bound) = take_first(&mut bounds_left) else {
            return Ok(fields);
        };
        let Some(asked) = take_first(&mut asked_left) else {
            return Ok(fields);
        };
        fields.push(field_of(slot, bound, asked))?;
    }
    Ok(fields)
}

/// The numbers of the fields, each once, each behind those that its field depends on.
pub fn ordered(alloc: Global, fields: &[Field]) -> Result<Items<u64>, FormRefused>
    requires { are_within (length fields.now) 0 fields.now ≡ true }
    ensures order { IfOk result (λ order. is_order fields.now order ≡ true) }
    ensures no_cycle { OnOk result (NoCycle fields.now) }
    ensures refused { IfErr result (λ refusal. HasNoOrder fields.now refusal) }
{
    match order_of(alloc, fields) {
        Ok(order) => Ok(order),
        Err(OrderFault::Cycle { field }) => {
            let path = fields[field as usize].path.copy(alloc)?;
            Err(FormRefused::Cycle { path })
        }
        Err(OrderFault::NoMemory) => Err(FormRefused::NoMemory),
    }
}
