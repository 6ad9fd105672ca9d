ghost use Rattle.std.specs.Prelude.{◌≡◌, IfOk, Some, None, slice_set};
ghost use Rattle.std.specs.List.{slice_index_or};
ghost use Rattle.std.specs.Option.{option_copied};
ghost use Rattle.form_read.specs.Refusals.{Gives};
ghost use Rattle.form_read.specs.Binds.{is_bind_of, type_in, type_of, is_below_meta, meta_prefix, bound_by, is_given};
ghost use Rattle.form_read.specs.Binds.{field_bound, no_field_bound, bind_taken};

use crate::draft::{Bound, Draft};
use crate::expressions::optional_at;
use crate::slots::slot_of;
use crate::{FormRefused, Scope};
use field_text::{Items, NoMemory, Text};
use form_outline::{Bind, ModelPart};
use std::alloc::Global;

fn is_bind_of(path: &Text, part: &ModelPart) -> bool
    ensures { result ≡ is_bind_of path.now part.now }
{
    match part {
        ModelPart::Bind(bind) => bind.nodeset.bytes() == path.bytes(),
        ModelPart::Primary
        | ModelPart::Table(_)
        | ModelPart::Submission(_)
        | ModelPart::SetValue(_)
        | ModelPart::Other(_) => false,
    }
}

fn type_in(part: &ModelPart) -> Option<&Text>
    ensures { option_copied result ≡ type_in part.now }
{
    match part {
        ModelPart::Bind(bind) => bind.data_type.as_ref(),
        ModelPart::Primary
        | ModelPart::Table(_)
        | ModelPart::Submission(_)
        | ModelPart::SetValue(_)
        | ModelPart::Other(_) => None,
    }
}

/// The type that the first bind of a path gives.
pub fn type_of<'a>(scope: &'a Scope, path: &Text) -> Option<&'a Text>
    ensures { option_copied result ≡ type_of scope.now path.now }
{
    let mut rest = scope.model.as_slice();
    while let Some((part, others)) = rest.split_first() {
        if is_bind_of(path, part) {
            return type_in(part);
        }
        rest = others;
    }
    None
}

fn is_below_meta(alloc: Global, root: &Text, path: &Text) -> Result<bool, NoMemory>
    ensures { IfOk result (λ is. is ≡ is_below_meta root.now path.now) }
{
    let mut prefix = String::from_str(alloc, "/")?;
    prefix.push_str(root.as_str())?;
    prefix.push_str("/meta/")?;
    Ok(path.bytes().starts_with(prefix.as_bytes()))
}

fn copy_of(alloc: Global, text: &Option<Text>) -> Result<Option<Text>, NoMemory>
    ensures { IfOk result (λ copy. copy ≡ text.now) }
{
    match text {
        Some(text) => Ok(Some(text.copy(alloc)?)),
        None => Ok(None),
    }
}

#[tactic(auto, unfolding(crate::specs::Binds::bound_by))]
fn bound_by(alloc: Global, scope: &Scope, bind: &Bind) -> Result<Bound, FormRefused>
    ensures { Gives (λ x. x) result (bound_by scope.now bind.now) }
{
    let own = &bind.nodeset;
    let relevant = optional_at(alloc, scope, own, &bind.relevant)?;
    let constraint = optional_at(alloc, scope, own, &bind.constraint)?;
    let required = optional_at(alloc, scope, own, &bind.required)?;
    let readonly = optional_at(alloc, scope, own, &bind.readonly)?;
    let calculate = optional_at(alloc, scope, own, &bind.calculate)?;
    let saveto = copy_of(alloc, &bind.saveto)?;
    Ok(Bound {
        relevant,
        constraint,
        required,
        readonly,
        calculate,
        saveto,
    })
}

/// Whether something is there at this number.
pub fn is_given<T>(items: &[Option<T>], number: usize) -> bool
    ensures { result ≡ is_given (slice_index_or items.now number None) }
{
    match items.get(number) {
        Some(item) => item.is_some(),
        None => false,
    }
}

/// Puts an item at a number, where the items have that.
pub fn put<T: Drop>(items: &mut Items<Option<T>>, number: usize, item: T)
    ensures { items.new ≡ slice_set items.old number (Some item) }
{
    if number < items.len() {
        items.set(number, Some(item));
    }
}

fn field_bound(
    alloc: Global,
    scope: &Scope,
    draft: Draft,
    bind: &Bind,
    number: usize,
) -> Result<Draft, FormRefused>
    ensures { Gives (λ x. x) result (field_bound scope.now draft bind.now number) }
{
    if is_given(draft.bounds.as_slice(), number) {
        return Ok(draft);
    }
    let bound = bound_by(alloc, scope, bind)?;
    let mut next = draft;
    put(&mut next.bounds, number, bound);
    Ok(next)
}

fn no_field_bound(
    alloc: Global,
    scope: &Scope,
    draft: Draft,
    bind: &Bind,
) -> Result<Draft, FormRefused>
    ensures { Gives (λ x. x) result (no_field_bound scope.now draft bind.now) }
{
    if is_below_meta(alloc, &scope.root, &bind.nodeset)? {
        return Ok(draft);
    }
    Err(FormRefused::UnknownPath {
        path: bind.nodeset.copy(alloc)?,
    })
}

/// The draft with what a bind says.
#[tactic(auto, unfolding(crate::specs::Binds::bind_taken))]
pub fn bind_taken(
    alloc: Global,
    scope: &Scope,
    draft: Draft,
    bind: &Bind,
) -> Result<Draft, FormRefused>
    ensures { Gives (λ x. x) result (bind_taken scope.now draft bind.now) }
{
    match slot_of(scope.slots.as_slice(), bind.nodeset.bytes()) {
        Some(number) => field_bound(alloc, scope, draft, bind, number),
        None => no_field_bound(alloc, scope, draft, bind),
    }
}
