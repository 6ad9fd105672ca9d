ghost use Rattle.std.specs.Prelude.{◌≡◌, IfOk, map, None};
ghost use Rattle.form_read.specs.Refusals.{Gives};
ghost use Rattle.form_read.specs.Drafts.{primary_taken, model_part_taken, model_taken, controls_taken, empty_draft};
ghost use Rattle.form_read.specs.Drafts.{head_first, body_first, all_taken};

use crate::binds::bind_taken;
use crate::controls::control_taken;
use crate::draft::Draft;
use crate::primary::parts_taken;
use crate::tables::{setvalue_taken, table_taken};
use crate::{FormRefused, Scope};
use field_text::{Items, NoMemory};
use form_outline::{Control, ModelPart, PrimaryField, PrimaryPart};
use std::alloc::Global;

fn model_part_taken(
    alloc: Global,
    scope: &Scope,
    primary: &[PrimaryPart],
    draft: Draft,
    part: &ModelPart,
) -> Result<Draft, FormRefused>
    ensures { Gives (λ x. x) result (model_part_taken scope.now primary.now draft part.now) }
{
    match part {
        ModelPart::Primary => {
            parts_taken(alloc, &scope.root, primary)?;
            Ok(draft)
        }
        ModelPart::Bind(bind) => bind_taken(alloc, scope, draft, bind),
        ModelPart::Table(table) => table_taken(alloc, draft, table),
        ModelPart::Submission(_) => Ok(draft),
        ModelPart::SetValue(setvalue) => setvalue_taken(alloc, scope, draft, setvalue),
        ModelPart::Other(name) => Err(FormRefused::UnknownControl {
            name: name.copy(alloc)?,
        }),
    }
}

fn model_taken(
    alloc: Global,
    scope: &Scope,
    primary: &[PrimaryPart],
    draft: Draft,
) -> Result<Draft, FormRefused>
    ensures { Gives (λ x. x) result (model_taken scope.now primary.now draft scope.now.model) }
{
    let mut next = draft;
    let mut rest = scope.model.as_slice();
    while let Some((part, others)) = rest.split_first() {
        next = model_part_taken(alloc, scope, primary, next, part)?;
        rest = others;
    }
    Ok(next)
}

fn controls_taken(
    alloc: Global,
    scope: &Scope,
    draft: Draft,
    controls: &[Control],
) -> Result<Draft, FormRefused>
    ensures { Gives (λ x. x) result (controls_taken scope.now draft controls.now) }
{
    let mut next = draft;
    let mut rest = controls;
    while let Some((control, others)) = rest.split_first() {
        next = control_taken(alloc, scope, next, control)?;
        rest = others;
    }
    Ok(next)
}

fn nothing_for<T: Drop>(alloc: Global, slots: &[PrimaryField]) -> Result<Items<Option<T>>, NoMemory>
    ensures { IfOk result (λ items. items ≡ map (λ s. None) slots.now) }
{
    let mut items = Items::new(alloc);
    for _slot in slots {
        items.push(None)?;
    }
    Ok(items)
}

/// The draft before any part was read.
pub fn empty_draft(alloc: Global, slots: &[PrimaryField]) -> Result<Draft, NoMemory>
    ensures { IfOk result (λ draft. draft ≡ empty_draft slots.now) }
{
    Ok(Draft {
        bounds: nothing_for(alloc, slots)?,
        asked: nothing_for(alloc, slots)?,
        inner: Items::new(alloc),
        outer: Items::new(alloc),
        draws_id: false,
    })
}

#[tactic(auto, unfolding(crate::specs::Drafts::head_first))]
fn head_first(
    alloc: Global,
    scope: &Scope,
    primary: &[PrimaryPart],
    controls: &[Control],
    draft: Draft,
) -> Result<Draft, FormRefused>
    ensures { Gives (λ x. x) result (head_first scope.now primary.now controls.now draft) }
{
    let next = model_taken(alloc, scope, primary, draft)?;
    controls_taken(alloc, scope, next, controls)
}

#[tactic(auto, unfolding(crate::specs::Drafts::body_first))]
fn body_first(
    alloc: Global,
    scope: &Scope,
    primary: &[PrimaryPart],
    controls: &[Control],
    draft: Draft,
) -> Result<Draft, FormRefused>
    ensures { Gives (λ x. x) result (body_first scope.now primary.now controls.now draft) }
{
    let next = controls_taken(alloc, scope, draft, controls)?;
    model_taken(alloc, scope, primary, next)
}

/// The draft with what all parts say, in document order.
pub fn all_taken(
    alloc: Global,
    is_body_first: bool,
    scope: &Scope,
    primary: &[PrimaryPart],
    controls: &[Control],
    draft: Draft,
) -> Result<Draft, FormRefused>
    ensures { Gives (λ x. x) result (all_taken is_body_first scope.now primary.now controls.now draft) }
{
    if is_body_first {
        return body_first(alloc, scope, primary, controls, draft);
    }
    head_first(alloc, scope, primary, controls, draft)
}
