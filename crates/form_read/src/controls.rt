ghost use Rattle.std.specs.Prelude.{◌≡◌, IfOk};
ghost use Rattle.std.specs.Option.{option_copied};
ghost use Rattle.form_read.specs.Refusals.{Gives};
ghost use Rattle.form_read.specs.Controls.{is_input, is_select_one, is_control, input_kind, is_select_type};
ghost use Rattle.form_read.specs.Controls.{select_kind, control_kind, part_name, input_choices, filter_resolved};
ghost use Rattle.form_read.specs.Controls.{value_column, rows_resolved, rows_offered, part_offered, parts_offered};
ghost use Rattle.form_read.specs.Controls.{nothing_offered, choices_in, select_choices, control_choices, asked_by};
ghost use Rattle.form_read.specs.Controls.{field_asked, control_taken};

use crate::binds::{is_given, put, type_of};
use crate::draft::{Asked, Draft, Offer};
use crate::expressions::{is_declared, itemset_of, resolved};
use crate::paths::leaf_of;
use crate::{FormRefused, Scope};
use field_text::{Items, NoMemory, Text};
use form_def::{Choices, Expr, Kind};
use form_expr::{Itemset, Syntax};
use form_outline::{Control, ControlPart, ItemsetPart};
use std::alloc::Global;

fn is_input(name: &Text) -> bool
    ensures { result ≡ is_input name.now }
{
    name.as_str() == "input"
}

fn is_select_one(name: &Text) -> bool
    ensures { result ≡ is_select_one name.now }
{
    name.as_str() == "select1"
}

fn is_control(name: &Text) -> bool
    ensures { result ≡ is_control name.now }
{
    is_input(name) || is_select_one(name) || name.as_str() == "select"
}

fn input_kind(alloc: Global, path: &Text, data_type: Option<&Text>) -> Result<Kind, FormRefused>
    ensures { Gives (λ x. x) result (input_kind path.now (option_copied data_type.entry)) }
{
    let Some(data_type) = data_type else {
        return Ok(Kind::Words);
    };
    if data_type.as_str() == "string" {
        return Ok(Kind::Words);
    }
    if data_type.as_str() == "int" {
        return Ok(Kind::Whole);
    }
    Err(FormRefused::UnknownType {
        path: path.copy(alloc)?,
    })
}

fn is_select_type(data_type: Option<&Text>) -> bool
    ensures { result ≡ is_select_type (option_copied data_type.entry) }
{
    match data_type {
        Some(name) => {
            name.as_str() == "string" || name.as_str() == "select1" || name.as_str() == "select"
        }
        None => true,
    }
}

fn select_kind(
    alloc: Global,
    path: &Text,
    kind: Kind,
    data_type: Option<&Text>,
) -> Result<Kind, FormRefused>
    ensures { Gives (λ x. x) result (select_kind path.now kind (option_copied data_type.entry)) }
{
    if is_select_type(data_type) {
        return Ok(kind);
    }
    Err(FormRefused::UnknownType {
        path: path.copy(alloc)?,
    })
}

fn control_kind(
    alloc: Global,
    name: &Text,
    path: &Text,
    data_type: Option<&Text>,
) -> Result<Kind, FormRefused>
    ensures { Gives (λ x. x) result (control_kind name.now path.now (option_copied data_type.entry)) }
{
    if is_input(name) {
        return input_kind(alloc, path, data_type);
    }
    if is_select_one(name) {
        return select_kind(alloc, path, Kind::One, data_type);
    }
    select_kind(alloc, path, Kind::Many, data_type)
}

fn part_name(alloc: Global, part: &ControlPart) -> Result<Text, NoMemory>
    ensures { IfOk result (λ name. name ≡ part_name part.now) }
{
    match part {
        ControlPart::Item(_) => Ok(Text::from_string(String::from_str(alloc, "item")?)),
        ControlPart::Itemset(_) => Ok(Text::from_string(String::from_str(alloc, "itemset")?)),
        ControlPart::Other(name) => name.copy(alloc),
    }
}

fn input_choices(alloc: Global, parts: &[ControlPart]) -> Result<Choices, FormRefused>
    ensures { Gives (λ x. x) result (input_choices parts.now) }
{
    match parts.first() {
        Some(part) => Err(FormRefused::UnknownControl {
            name: part_name(alloc, part)?,
        }),
        None => Ok(Choices::Nothing),
    }
}

fn filter_resolved(
    alloc: Global,
    scope: &Scope,
    path: &Text,
    filter: &Option<Syntax>,
) -> Result<Option<Expr>, FormRefused>
    ensures { Gives (λ x. x) result (filter_resolved scope.now path.now filter.now) }
{
    match filter {
        Some(filter) => Ok(Some(resolved(alloc, scope, path, filter)?)),
        None => Ok(None),
    }
}

fn value_column(alloc: Global, value: &Option<Text>) -> Result<Text, NoMemory>
    ensures { IfOk result (λ column. column ≡ value_column value.now) }
{
    match value {
        Some(column) => column.copy(alloc),
        None => Ok(Text::from_string(String::from_str(alloc, "name")?)),
    }
}

fn rows_resolved(
    alloc: Global,
    scope: &Scope,
    path: &Text,
    value: &Option<Text>,
    itemset: Itemset,
) -> Result<Choices, FormRefused>
    ensures { Gives (λ x. x) result (rows_resolved scope.now path.now value.now itemset) }
{
    let Itemset { table, filter } = itemset;
    if !is_declared(scope, &table) {
        return Err(FormRefused::UnknownList { name: table });
    }
    let filter = filter_resolved(alloc, scope, path, &filter)?;
    let value = value_column(alloc, value)?;
    Ok(Choices::Rows {
        table,
        filter,
        value,
    })
}

#[tactic(auto, unfolding(crate::specs::Controls::rows_offered))]
fn rows_offered(
    alloc: Global,
    scope: &Scope,
    path: &Text,
    part: &ItemsetPart,
) -> Result<Choices, FormRefused>
    ensures { Gives (λ x. x) result (rows_offered scope.now path.now part.now) }
{
    let itemset = itemset_of(alloc, path, &part.nodeset)?;
    rows_resolved(alloc, scope, path, &part.value, itemset)
}

fn part_offered(
    alloc: Global,
    scope: &Scope,
    path: &Text,
    offer: Offer,
    part: &ControlPart,
) -> Result<Offer, FormRefused>
    ensures { Gives (λ x. x) result (part_offered scope.now path.now offer part.now) }
{
    let mut next = offer;
    match part {
        ControlPart::Item(None) => Ok(next),
        ControlPart::Item(Some(value)) => {
            next.values.push(value.copy(alloc)?)?;
            Ok(next)
        }
        ControlPart::Itemset(itemset) => {
            if next.rows.is_some() {
                return Ok(next);
            }
            next.rows = Some(rows_offered(alloc, scope, path, itemset)?);
            Ok(next)
        }
        ControlPart::Other(name) => Err(FormRefused::UnknownControl {
            name: name.copy(alloc)?,
        }),
    }
}

fn parts_offered(
    alloc: Global,
    scope: &Scope,
    path: &Text,
    parts: &[ControlPart],
) -> Result<Offer, FormRefused>
    ensures { Gives (λ x. x) result (parts_offered scope.now path.now nothing_offered parts.now) }
{
    let mut offer = Offer {
        values: Items::new(alloc),
        rows: None,
    };
    let mut rest = parts;
    while let Some((part, others)) = rest.split_first() {
        offer = part_offered(alloc, scope, path, offer, part)?;
        rest = others;
    }
    Ok(offer)
}

fn choices_in(offer: Offer) -> Choices
    ensures { result ≡ choices_in offer }
{
    let Offer { values, rows } = offer;
    match rows {
        Some(rows) => rows,
        None => {
            if values.is_empty() {
                return Choices::Nothing;
            }
            Choices::Fixed(values)
        }
    }
}

fn select_choices(
    alloc: Global,
    scope: &Scope,
    path: &Text,
    parts: &[ControlPart],
) -> Result<Choices, FormRefused>
    ensures { Gives (λ x. x) result (select_choices scope.now path.now parts.now) }
{
    Ok(choices_in(parts_offered(alloc, scope, path, parts)?))
}

fn control_choices(alloc: Global, scope: &Scope, control: &Control) -> Result<Choices, FormRefused>
    ensures { Gives (λ x. x) result (control_choices scope.now control.now) }
{
    if is_input(&control.name) {
        return input_choices(alloc, control.parts.as_slice());
    }
    select_choices(alloc, scope, &control.target, control.parts.as_slice())
}

#[tactic(auto, unfolding(crate::specs::Controls::asked_by))]
fn asked_by(alloc: Global, scope: &Scope, control: &Control) -> Result<Asked, FormRefused>
    ensures { Gives (λ x. x) result (asked_by scope.now control.now) }
{
    let data_type = type_of(scope, &control.target);
    let kind = control_kind(alloc, &control.name, &control.target, data_type)?;
    let choices = control_choices(alloc, scope, control)?;
    Ok(Asked { kind, choices })
}

fn field_asked(
    alloc: Global,
    scope: &Scope,
    draft: Draft,
    control: &Control,
    number: usize,
) -> Result<Draft, FormRefused>
    ensures { Gives (λ x. x) result (field_asked scope.now draft control.now number) }
{
    if is_given(draft.asked.as_slice(), number) {
        return Err(FormRefused::UnknownControl {
            name: control.name.copy(alloc)?,
        });
    }
    let asked = asked_by(alloc, scope, control)?;
    let mut next = draft;
    put(&mut next.asked, number, asked);
    Ok(next)
}

/// The draft with what a control says.
#[tactic(auto, unfolding(crate::specs::Controls::control_taken))]
pub fn control_taken(
    alloc: Global,
    scope: &Scope,
    draft: Draft,
    control: &Control,
) -> Result<Draft, FormRefused>
    ensures { Gives (λ x. x) result (control_taken scope.now draft control.now) }
{
    if !is_control(&control.name) {
        return Err(FormRefused::UnknownControl {
            name: control.name.copy(alloc)?,
        });
    }
    match leaf_of(scope.slots.as_slice(), control.target.bytes()) {
        Some(number) => field_asked(alloc, scope, draft, control, number),
        None => Err(FormRefused::UnknownPath {
            path: control.target.copy(alloc)?,
        }),
    }
}
