// The lines below the first line of an answer.
ghost use Rattle.std.specs.Prelude.{◌≡◌, ◌++◌, OnOk};
ghost use Rattle.std.specs.List.{flat_map};
ghost use Rattle.collect_text.specs.AnswerRows.{answer_rows, entity_branch, entity_row, entity_start, entry_rows};
ghost use Rattle.collect_text.specs.AnswerRows.{field_row, form_row, instance_end, online_word, property, spaced_trunk};
ghost use Rattle.collect_text.specs.AnswerRows.{instance_row, instance_start, shown_end, spaced_id, visible_end};

use crate::pieces::{
    push_spaced_number, push_spaced_text, push_spaced_word, push_word, status_word,
};
use device_rules::{Answer, EntryView, FormLine, InstanceLine};
use entity_lists::{EntityRow, Prop, Version};
use field_text::{NoMemory, Text};
use kept_forms::FieldLine;
use std::alloc::Global;

fn visible_end(is_visible: bool) -> &'static str
    ensures { result.now ≡ visible_end is_visible }
{
    if is_visible {
        " visible\n"
    } else {
        " hidden\n"
    }
}

#[tactic(auto, unfolding(crate::specs::AnswerRows::form_row))]
fn push_form_row(form: &FormLine, out: &mut Vec<u8>) -> Result<(), NoMemory>
    ensures { OnOk result (out.new.items ≡ out.old.items ++ form_row form.now) }
{
    push_word("form", out)?;
    push_spaced_text(&form.id, out)?;
    push_spaced_text(&form.version, out)?;
    push_spaced_text(&form.hash, out)?;
    push_word(visible_end(form.visible), out)
}

fn push_form_rows(forms: &[FormLine], out: &mut Vec<u8>) -> Result<(), NoMemory>
    ensures { OnOk result (out.new.items ≡ out.old.items ++ flat_map form_row forms.now) }
{
    for form in forms {
        push_form_row(form, out)?;
    }
    Ok(())
}

fn push_spaced_id(id: &Option<Text>, out: &mut Vec<u8>) -> Result<(), NoMemory>
    ensures { OnOk result (out.new.items ≡ out.old.items ++ spaced_id id.now) }
{
    match id {
        Some(id) => push_spaced_text(id, out),
        None => push_word(" -", out),
    }
}

#[tactic(auto, unfolding(crate::specs::AnswerRows::instance_start))]
fn push_instance_start(
    alloc: Global,
    instance: &InstanceLine,
    out: &mut Vec<u8>,
) -> Result<(), NoMemory>
    ensures { OnOk result (out.new.items ≡ out.old.items ++ instance_start instance.now) }
{
    push_word("instance", out)?;
    push_spaced_number(alloc, instance.number, out)?;
    push_spaced_word(status_word(instance.status), out)
}

#[tactic(auto, unfolding(crate::specs::AnswerRows::instance_end))]
fn push_instance_end(instance: &InstanceLine, out: &mut Vec<u8>) -> Result<(), NoMemory>
    ensures { OnOk result (out.new.items ≡ out.old.items ++ instance_end instance.now) }
{
    push_spaced_text(&instance.id, out)?;
    push_spaced_text(&instance.version, out)?;
    push_spaced_id(&instance.instance_id, out)?;
    push_word("\n", out)
}

fn push_instance_row(
    alloc: Global,
    instance: &InstanceLine,
    out: &mut Vec<u8>,
) -> Result<(), NoMemory>
    ensures { OnOk result (out.new.items ≡ out.old.items ++ instance_row instance.now) }
{
    push_instance_start(alloc, instance, out)?;
    push_instance_end(instance, out)
}

fn push_instance_rows(
    alloc: Global,
    instances: &[InstanceLine],
    out: &mut Vec<u8>,
) -> Result<(), NoMemory>
    ensures { OnOk result (out.new.items ≡ out.old.items ++ flat_map instance_row instances.now) }
{
    for instance in instances {
        push_instance_row(alloc, instance, out)?;
    }
    Ok(())
}

fn shown_end(is_shown: bool) -> &'static str
    ensures { result.now ≡ shown_end is_shown }
{
    if is_shown { " shown\n" } else { " hidden\n" }
}

#[tactic(auto, unfolding(crate::specs::AnswerRows::field_row))]
fn push_field_row(field: &FieldLine, out: &mut Vec<u8>) -> Result<(), NoMemory>
    ensures { OnOk result (out.new.items ≡ out.old.items ++ field_row field.now) }
{
    push_word("field", out)?;
    push_spaced_text(&field.path, out)?;
    push_spaced_text(&field.value, out)?;
    push_word(shown_end(field.shown), out)
}

fn push_field_rows(fields: &[FieldLine], out: &mut Vec<u8>) -> Result<(), NoMemory>
    ensures { OnOk result (out.new.items ≡ out.old.items ++ flat_map field_row fields.now) }
{
    for field in fields {
        push_field_row(field, out)?;
    }
    Ok(())
}

fn push_entry_rows(entry: &Option<EntryView>, out: &mut Vec<u8>) -> Result<(), NoMemory>
    ensures { OnOk result (out.new.items ≡ out.old.items ++ entry_rows entry.now) }
{
    match entry {
        Some(entry) => push_field_rows(entry.fields.as_slice(), out),
        None => Ok(()),
    }
}

fn push_spaced_trunk(
    alloc: Global,
    trunk: Option<Version>,
    out: &mut Vec<u8>,
) -> Result<(), NoMemory>
    ensures { OnOk result (out.new.items ≡ out.old.items ++ spaced_trunk trunk) }
{
    match trunk {
        Some(version) => push_spaced_number(alloc, version.number(), out),
        None => push_word(" -", out),
    }
}

fn online_word(is_online: bool) -> &'static str
    ensures { result.now ≡ online_word is_online }
{
    if is_online { " online" } else { " offline" }
}

#[tactic(auto, unfolding(crate::specs::AnswerRows::entity_start))]
fn push_entity_start(alloc: Global, row: &EntityRow, out: &mut Vec<u8>) -> Result<(), NoMemory>
    ensures { OnOk result (out.new.items ≡ out.old.items ++ entity_start row.now) }
{
    push_word("entity", out)?;
    push_spaced_text(&row.id, out)?;
    push_spaced_text(&row.label, out)?;
    push_spaced_number(alloc, row.version.number(), out)
}

#[tactic(auto, unfolding(crate::specs::AnswerRows::entity_branch))]
fn push_entity_branch(alloc: Global, row: &EntityRow, out: &mut Vec<u8>) -> Result<(), NoMemory>
    ensures { OnOk result (out.new.items ≡ out.old.items ++ entity_branch row.now) }
{
    push_spaced_trunk(alloc, row.trunk, out)?;
    push_spaced_text(&row.branch, out)?;
    push_word(online_word(row.online), out)
}

fn push_property(prop: &Prop, out: &mut Vec<u8>) -> Result<(), NoMemory>
    ensures { OnOk result (out.new.items ≡ out.old.items ++ property prop.now) }
{
    push_spaced_text(&prop.name, out)?;
    push_spaced_text(&prop.value, out)
}

fn push_properties(props: &[Prop], out: &mut Vec<u8>) -> Result<(), NoMemory>
    ensures { OnOk result (out.new.items ≡ out.old.items ++ flat_map property props.now) }
{
    for prop in props {
        push_property(prop, out)?;
    }
    Ok(())
}

fn push_entity_row(alloc: Global, row: &EntityRow, out: &mut Vec<u8>) -> Result<(), NoMemory>
    ensures { OnOk result (out.new.items ≡ out.old.items ++ entity_row row.now) }
{
    push_entity_start(alloc, row, out)?;
    push_entity_branch(alloc, row, out)?;
    push_properties(row.props.as_slice(), out)?;
    push_word("\n", out)
}

fn push_entity_rows(alloc: Global, rows: &[EntityRow], out: &mut Vec<u8>) -> Result<(), NoMemory>
    ensures { OnOk result (out.new.items ≡ out.old.items ++ flat_map entity_row rows.now) }
{
    for row in rows {
        push_entity_row(alloc, row, out)?;
    }
    Ok(())
}

pub(crate) fn push_answer_rows(
    alloc: Global,
    answer: &Answer,
    out: &mut Vec<u8>,
) -> Result<(), NoMemory>
    ensures { OnOk result (out.new.items ≡ out.old.items ++ answer_rows answer.now) }
{
    match answer {
        Answer::Done
        | Answer::Number(_)
        | Answer::Bulk(_)
        | Answer::Settings(_)
        | Answer::Doc(_)
        | Answer::NextSend(_)
        | Answer::Counts(_) => Ok(()),
        Answer::Entities(rows) => push_entity_rows(alloc, rows.as_slice(), out),
        Answer::Forms(forms) => push_form_rows(forms.as_slice(), out),
        Answer::Instances(instances) => push_instance_rows(alloc, instances.as_slice(), out),
        Answer::EntryNow(entry) => push_entry_rows(entry, out),
    }
}
