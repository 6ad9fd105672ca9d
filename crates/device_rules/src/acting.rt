// The entity lists behind the action of a finalized instance.
ghost use Rattle.std.specs.Prelude.{◌≡◌, ◌<◌, ◌^◌, IfOk, IfSome};
ghost use Rattle.std.specs.Option.{option_copied};
ghost use Rattle.device_state.specs.Changes.{lists_changed};
ghost use Rattle.device_rules.specs.Acting.{IsNew, acted_lists, changed_list, list_for, list_named, lists_with};
ghost use Rattle.device_rules.specs.Acting.{new_list, room_for};
ghost use Rattle.device_rules.specs.Refused.{rule_of};
ghost use Rattle.field_text.specs.Steps.{Gives};

use crate::refused::{Refused, Which};
use device_state::ListChange;
use entity_lists::{Entities, EntityList, EntityLists};
use entity_merge::{Action, apply_action};
use field_ids::Draws;
use field_text::{NoMemory, Text};
use std::alloc::Global;

/// How many entity lists a device keeps.
pub(crate) const LIST_LIMIT: u64 = 16;

/// The list that an action changed, if there was one, and the draws behind it.
#[derive(Debug, Drop)]
pub struct Acted {
    pub list: Option<EntityList>,
    pub draws: Draws,
}

fn new_list(alloc: Global, name: &Text) -> Result<EntityList, NoMemory>
    ensures { IfOk result (λ list. list ≡ new_list name.now) }
{
    Ok(EntityList {
        name: name.copy(alloc)?,
        url: None,
        rows: Entities::new(alloc),
    })
}

pub(crate) fn list_named<'a>(lists: &'a EntityLists, name: &Text) -> Option<&'a EntityList>
    ensures { option_copied result ≡ list_named lists.now.items name.now }
{
    lists
        .as_slice()
        .iter()
        .find(|list| list.name.bytes() == name.bytes())
}

fn list_for(alloc: Global, lists: &EntityLists, name: &Text) -> Result<EntityList, NoMemory>
    ensures { IfOk result (λ list. list ≡ list_for lists.now.items name.now) }
{
    match list_named(lists, name) {
        Some(list) => list.copy(alloc),
        None => new_list(alloc, name),
    }
}

fn room_for(lists: &EntityLists, name: &Text) -> Result<(), Refused>
    ensures { Gives rule_of (λ u. u) result (room_for lists.now.items name.now) }
{
    if list_named(lists, name).is_none() && lists.count() >= LIST_LIMIT {
        return Err(Refused::Limit {
            which: Which::Lists,
            number: LIST_LIMIT,
        });
    }
    Ok(())
}

fn changed_list(
    alloc: Global,
    lists: &EntityLists,
    draws: Draws,
    action: &Action,
) -> Result<Acted, Refused>
    requires room { draws.next < 2 ^ 62 }
    requires new { IsNew lists.now.items action.now }
    ensures { Gives rule_of (λ acted. acted) result (changed_list lists.now.items draws action.now) }
{
    room_for(lists, &action.list)?;
    let list = list_for(alloc, lists, &action.list)?;
    let (list, draws) = apply_action(alloc, &list, action, draws)?;
    Ok(Acted {
        list: Some(list),
        draws,
    })
}

pub(crate) fn acted_lists(
    alloc: Global,
    lists: &EntityLists,
    draws: Draws,
    action: &Option<Action>,
) -> Result<Acted, Refused>
    requires room { draws.next < 2 ^ 62 }
    requires new { IfSome action.now (IsNew lists.now.items) }
    ensures { Gives rule_of (λ acted. acted) result (acted_lists lists.now.items draws action.now) }
{
    match action {
        Some(action) => changed_list(alloc, lists, draws, action),
        None => Ok(Acted { list: None, draws }),
    }
}

pub(crate) fn list_change(list: Option<EntityList>) -> ListChange
    ensures { (kept : _) → lists_changed result kept ≡ lists_with list kept }
{
    match list {
        Some(list) => ListChange::Put(list),
        None => ListChange::Keep,
    }
}
