ghost use Rattle.std.specs.Prelude.{◌≡◌, IfOk, IfErr, OnOk, Contains, length, true, option_map};
ghost use Rattle.std.specs.Option.{option_copied};
ghost use Rattle.form_def.specs.Fields.{are_within};
ghost use Rattle.form_def.specs.Order.{is_order};
ghost use Rattle.form_def.specs.FormDefs.{parts_of_form};
ghost use Rattle.form_outline.specs.declared.outline.ModelPart.TheVariants as part;
ghost use Rattle.form_outline.specs.Names.{IsNamed};
ghost use Rattle.form_read.specs.declared.refusal.FormRefused.TheVariants as refused_for;
ghost use Rattle.form_order.specs.Cycles.{NoCycle};
ghost use Rattle.form_read.specs.Refusals.{Gives};
ghost use Rattle.form_read.specs.Forms.{auto_send_by, auto_send_in, dataset_in, entity_def, drafted, fields_drafted};
ghost use Rattle.form_read.specs.Forms.{parts_drafted, IsSound, HasNoOrder, IsFormOf, RefusesParts, doc_refusal};
ghost use Rattle.form_read.specs.Forms.{refusal_of, Describes, Refuses};

use crate::draft::{Draft, Drafted};
use crate::drafts::{all_taken, empty_draft};
use crate::fields::{fields_of, ordered};
use crate::slots::slots_of;
use crate::{FormRefused, Scope};
use field_text::{NoMemory, Text};
use form_def::{EntityDef, FormDef, FormFault, FormParts};
use form_outline::{ModelPart, Outline, OutlineFault, PrimaryPart, read_outline};
use rosa_doc::DocRefused;
use std::alloc::Global;

/// How many fields a form may have.
const MOST_FIELDS: usize = 500;

fn auto_send_by(value: &Option<Text>) -> Option<bool>
    ensures { result ≡ auto_send_by value.now }
{
    let Some(value) = value else {
        return None;
    };
    if value.as_str() == "true" {
        return Some(true);
    }
    if value.as_str() == "false" {
        return Some(false);
    }
    None
}

/// What the first submission says of sending.
fn auto_send_in(parts: &[ModelPart]) -> Option<bool>
    ensures { result ≡ auto_send_in parts.now }
{
    let mut rest = parts;
    while let Some((part, others)) = rest.split_first() {
        if let ModelPart::Submission(value) = part {
            return auto_send_by(value);
        }
        rest = others;
    }
    None
}

/// The dataset of the first entity.
fn dataset_in(parts: &[PrimaryPart]) -> Option<&Text>
    ensures { option_copied result ≡ dataset_in parts.now }
{
    let mut rest = parts;
    while let Some((part, others)) = rest.split_first() {
        if let PrimaryPart::Entity(entity) = part {
            return entity.dataset.as_ref();
        }
        rest = others;
    }
    None
}

fn entity_def(
    alloc: Global,
    draws_id: bool,
    parts: &[PrimaryPart],
) -> Result<Option<EntityDef>, NoMemory>
    ensures { IfOk result (λ entity. entity ≡ option_map (entity_def draws_id) (dataset_in parts.now)) }
{
    match dataset_in(parts) {
        Some(dataset) => Ok(Some(EntityDef {
            dataset: dataset.copy(alloc)?,
            draws_id,
        })),
        None => Ok(None),
    }
}

/// What the parts of a document say.
#[tactic(auto, unfolding(crate::specs::Forms::drafted, crate::specs::Drafts::draft_of))]
fn drafted(alloc: Global, outline: Outline) -> Result<Drafted, FormRefused>
    ensures { Gives (λ x. x) result (drafted outline) }
{
    let Outline {
        root,
        id,
        version,
        primary,
        model,
        controls,
        body_first,
    } = outline;
    if id.bytes().is_empty() {
        return Err(FormRefused::NoId);
    }
    let slots = slots_of(alloc, primary.as_slice())?;
    if slots.len() > MOST_FIELDS {
        return Err(FormRefused::TooManyFields {
            count: slots.len() as u64,
        });
    }
    let start = empty_draft(alloc, slots.as_slice())?;
    let scope = Scope { root, slots, model };
    let parts = primary.as_slice();
    let draft = all_taken(alloc, body_first, &scope, parts, controls.as_slice(), start)?;
    Ok(Drafted {
        id,
        version,
        primary,
        scope,
        draft,
    })
}

/// The parts of a form, and an order of its fields.
fn parts_of(alloc: Global, drafted: Drafted) -> Result<FormParts, FormRefused>
    requires { are_within (length (fields_drafted drafted)) 0 (fields_drafted drafted) ≡ true }
    ensures parts { IfOk result (λ parts. parts ≡ parts_drafted drafted parts.order) }
    ensures order { IfOk result (λ parts. is_order (fields_drafted drafted) parts.order ≡ true) }
    ensures no_cycle { OnOk result (NoCycle (fields_drafted drafted)) }
    ensures refused { IfErr result (λ refusal. HasNoOrder (fields_drafted drafted) refusal) }
{
    let Drafted {
        id,
        version,
        primary,
        scope,
        draft,
    } = drafted;
    let Scope { root, slots, model } = scope;
    let Draft {
        bounds,
        asked,
        inner,
        outer,
        draws_id,
    } = draft;
    let fields = fields_of(alloc, slots, bounds, asked)?;
    let order = ordered(alloc, fields.as_slice())?;
    let entity = entity_def(alloc, draws_id, primary.as_slice())?;
    let auto_send = auto_send_in(model.as_slice());
    Ok(FormParts {
        id,
        version,
        root,
        fields,
        inner,
        outer,
        entity,
        auto_send,
        order,
    })
}

/// The form of parts that lack nothing.
fn form_from(alloc: Global, parts: FormParts) -> Result<FormDef, FormRefused>
    requires { IsSound parts }
    ensures form { IfOk result (λ form. parts_of_form form ≡ parts) }
    ensures refused { IfErr result (λ refusal. refusal ≡ refused_for.NoMemory) }
{
    match FormDef::new(alloc, parts) {
        Ok(form) => Ok(form),
        Err(FormFault::NoMemory) => Err(FormRefused::NoMemory),
        Err(FormFault::BadRoot) => unreachable!(),
        Err(FormFault::BadPath) => unreachable!(),
        Err(FormFault::SamePath) => unreachable!(),
        Err(FormFault::OutOfRange) => unreachable!(),
        Err(FormFault::BadOrder) => unreachable!(),
    }
}

/// The form that a document's parts describe.
fn form_of(alloc: Global, outline: Outline) -> Result<FormDef, FormRefused>
    requires named { IsNamed outline }
    requires primary { Contains outline.model part.Primary }
    ensures form { IfOk result (λ form. IsFormOf outline form) }
    ensures refused { IfErr result (λ refusal. RefusesParts outline refusal) }
{
    let drafted = drafted(alloc, outline)?;
    let parts = parts_of(alloc, drafted)?;
    form_from(alloc, parts)
}

fn doc_refusal(refusal: DocRefused) -> FormRefused
    ensures { result ≡ doc_refusal refusal }
{
    match refusal {
        DocRefused::NoMemory => FormRefused::NoMemory,
        DocRefused::NotUtf8 { .. }
        | DocRefused::BadMarkup { .. }
        | DocRefused::Unclosed { .. }
        | DocRefused::TooDeep { .. }
        | DocRefused::TooLong { .. }
        | DocRefused::HasDoctype { .. } => FormRefused::Doc(refusal),
    }
}

fn refusal_of(fault: OutlineFault) -> FormRefused
    ensures { result ≡ refusal_of fault }
{
    match fault {
        OutlineFault::Doc(refusal) => doc_refusal(refusal),
        OutlineFault::NoPrimary => FormRefused::NoPrimary,
        OutlineFault::NoMemory => FormRefused::NoMemory,
    }
}

/// The form that the bytes of a document describe (ODK XForms in a profile).
pub fn read_form(alloc: Global, bytes: &[u8]) -> Result<FormDef, FormRefused>
    ensures form { IfOk result (λ form. Describes bytes.now form) }
    ensures refused { IfErr result (λ refusal. Refuses bytes.now refusal) }
{
    match read_outline(alloc, bytes) {
        Ok(outline) => form_of(alloc, outline),
        Err(fault) => Err(refusal_of(fault)),
    }
}
