ghost use Rattle.std.specs.Prelude.{◌≡◌, ◌++◌, IfOk, OnOk, string_bytes};
ghost use Rattle.std.specs.List.{flat_map};
ghost use Rattle.document_cases.specs.Outlines.{answers_printed, bind_printed};
ghost use Rattle.document_cases.specs.Outlines.{content_printed, control_part_printed, control_printed};
ghost use Rattle.document_cases.specs.Outlines.{entity_printed, field_printed};
ghost use Rattle.document_cases.specs.Outlines.{inner_field_printed, model_part_printed, named_printed};
ghost use Rattle.document_cases.specs.Outlines.{others_printed, outline_printed, primary_part_printed};
ghost use Rattle.document_cases.specs.Outlines.{root_printed, setvalue_printed, table_printed};
ghost use Rattle.document_cases.specs.Outlines.{body_first_printed, text_printed};
ghost use Rattle.document_cases.specs.Parts.{back_of, document_of, front_of, part_named, part_printed};

use crate::Printer;
use case_lines::{Prints, RowPrinter, bytes_of, cut, print_all, push_all};
use field_text::{NoMemory, Text};
use form_outline::*;
use std::alloc::{AllocError, Global};

fn print_named(out: &mut String, name: &str, text: &Option<Text>) -> Result<(), AllocError>
    ensures { OnOk result (string_bytes out.new ≡ string_bytes out.old ++ named_printed name.now text.now) }
{
    match text {
        Some(text) => push_all(out, &[" ", name, "=[", text.as_str(), "]"]),
        None => Ok(()),
    }
}

fn print_text(out: &mut String, text: &Option<Text>) -> Result<(), AllocError>
    ensures { OnOk result (string_bytes out.new ≡ string_bytes out.old ++ text_printed text.now) }
{
    match text {
        Some(text) => push_all(out, &[" [", text.as_str(), "]"]),
        None => out.push_str(" -"),
    }
}

fn print_field(out: &mut String, field: &PrimaryField) -> Result<(), AllocError>
    ensures { OnOk result (string_bytes out.new ≡ string_bytes out.old ++ field_printed field.now) }
{
    let kind = if field.is_group { "group " } else { "field " };
    push_all(
        out,
        &[kind, field.path.as_str(), " [", field.initial.as_str(), "]"],
    )
}

impl Prints<PrimaryField> for Printer {
    ghost printed = { inner_field_printed };

    fn print(out: &mut String, value: &PrimaryField) -> Result<(), AllocError> {
        out.push_str(" ")?;
        print_field(out, value)
    }
}

fn print_entity(out: &mut String, entity: &EntityPart) -> Result<(), AllocError>
    ensures { OnOk result (string_bytes out.new ≡ string_bytes out.old ++ entity_printed entity.now) }
{
    out.push_str("entity")?;
    print_text(out, &entity.dataset)?;
    print_all::<_, Printer>(out, entity.fields.as_slice())
}

impl Prints<PrimaryPart> for Printer {
    ghost printed = { primary_part_printed };

    fn print(out: &mut String, value: &PrimaryPart) -> Result<(), AllocError> {
        match value {
            PrimaryPart::Field(field) => print_field(out, field)?,
            PrimaryPart::Meta(field) => {
                out.push_str("meta ")?;
                print_field(out, field)?;
            }
            PrimaryPart::Entity(entity) => print_entity(out, entity)?,
        }
        out.push_str(";")
    }
}

#[tactic(auto, unfolding(crate::specs::Outlines::answers_printed))]
fn print_answers(out: &mut String, bind: &Bind) -> Result<(), AllocError>
    ensures { OnOk result (string_bytes out.new ≡ string_bytes out.old ++ answers_printed bind.now) }
{
    print_named(out, "relevant", &bind.relevant)?;
    print_named(out, "constraint", &bind.constraint)?;
    print_named(out, "required", &bind.required)
}

#[tactic(auto, unfolding(crate::specs::Outlines::others_printed))]
fn print_others(out: &mut String, bind: &Bind) -> Result<(), AllocError>
    ensures { OnOk result (string_bytes out.new ≡ string_bytes out.old ++ others_printed bind.now) }
{
    print_named(out, "readonly", &bind.readonly)?;
    print_named(out, "calculate", &bind.calculate)?;
    print_named(out, "saveto", &bind.saveto)
}

fn print_bind(out: &mut String, bind: &Bind) -> Result<(), AllocError>
    ensures { OnOk result (string_bytes out.new ≡ string_bytes out.old ++ bind_printed bind.now) }
{
    push_all(out, &["bind [", bind.nodeset.as_str(), "]"])?;
    print_named(out, "type", &bind.data_type)?;
    print_answers(out, bind)?;
    print_others(out, bind)
}

fn print_content(out: &mut String, content: &TableContent) -> Result<(), AllocError>
    ensures { OnOk result (string_bytes out.new ≡ string_bytes out.old ++ content_printed content.now) }
{
    match content {
        TableContent::Rows(rows) => {
            out.push_str(" rows")?;
            print_all::<_, RowPrinter>(out, rows.as_slice())
        }
        TableContent::Source(source) => push_all(out, &[" src=[", source.as_str(), "]"]),
        TableContent::Nothing => out.push_str(" nothing"),
    }
}

fn print_table(out: &mut String, table: &Table) -> Result<(), AllocError>
    ensures { OnOk result (string_bytes out.new ≡ string_bytes out.old ++ table_printed table.now) }
{
    push_all(out, &["table [", table.id.as_str(), "]"])?;
    print_content(out, &table.content)
}

fn print_setvalue(out: &mut String, setvalue: &SetValue) -> Result<(), AllocError>
    ensures { OnOk result (string_bytes out.new ≡ string_bytes out.old ++ setvalue_printed setvalue.now) }
{
    out.push_str("setvalue")?;
    print_named(out, "ref", &setvalue.target)?;
    print_named(out, "event", &setvalue.event)?;
    print_named(out, "value", &setvalue.value)
}

impl Prints<ModelPart> for Printer {
    ghost printed = { model_part_printed };

    fn print(out: &mut String, value: &ModelPart) -> Result<(), AllocError> {
        match value {
            ModelPart::Primary => out.push_str("primary")?,
            ModelPart::Bind(bind) => print_bind(out, bind)?,
            ModelPart::Table(table) => print_table(out, table)?,
            ModelPart::Submission(auto_send) => {
                out.push_str("submission")?;
                print_text(out, auto_send)?;
            }
            ModelPart::SetValue(setvalue) => print_setvalue(out, setvalue)?,
            ModelPart::Other(name) => push_all(out, &["other [", name.as_str(), "]"])?,
        }
        out.push_str(";")
    }
}

impl Prints<ControlPart> for Printer {
    ghost printed = { control_part_printed };

    fn print(out: &mut String, value: &ControlPart) -> Result<(), AllocError> {
        match value {
            ControlPart::Item(value) => {
                out.push_str(" item")?;
                print_text(out, value)
            }
            ControlPart::Itemset(itemset) => {
                push_all(out, &[" itemset [", itemset.nodeset.as_str(), "]"])?;
                print_named(out, "value", &itemset.value)
            }
            ControlPart::Other(name) => push_all(out, &[" other [", name.as_str(), "]"]),
        }
    }
}

impl Prints<Control> for Printer {
    ghost printed = { control_printed };

    fn print(out: &mut String, value: &Control) -> Result<(), AllocError> {
        push_all(
            out,
            &[value.name.as_str(), " [", value.target.as_str(), "]"],
        )?;
        print_all::<_, Printer>(out, value.parts.as_slice())?;
        out.push_str(";")
    }
}

#[tactic(auto, unfolding(crate::specs::Outlines::root_printed))]
fn print_root(out: &mut String, outline: &Outline) -> Result<(), AllocError>
    ensures { OnOk result (string_bytes out.new ≡ string_bytes out.old ++ root_printed outline.now) }
{
    let root = outline.root.as_str();
    let id = outline.id.as_str();
    let version = outline.version.as_str();
    push_all(
        out,
        &["root [", root, "] id [", id, "] version [", version, "];"],
    )
}

fn print_body_first(out: &mut String, body_first: bool) -> Result<(), AllocError>
    ensures { OnOk result (string_bytes out.new ≡ string_bytes out.old ++ body_first_printed body_first) }
{
    if body_first {
        out.push_str("body first;")?;
    }
    Ok(())
}

fn print_outline(out: &mut String, outline: &Outline) -> Result<(), AllocError>
    ensures { OnOk result (string_bytes out.new ≡ string_bytes out.old ++ outline_printed outline.now) }
{
    print_root(out, outline)?;
    print_all::<_, Printer>(out, outline.primary.as_slice())?;
    print_all::<_, Printer>(out, outline.model.as_slice())?;
    print_all::<_, Printer>(out, outline.controls.as_slice())?;
    print_body_first(out, outline.body_first)
}

/// Where the rest of a line stands, and what is printed.
#[derive(Clone, Copy)]
enum Part {
    Primary,
    Model,
    Body,
    Whole,
}

/// The part that a line names; of another name the whole document.
fn part_named(name: &str) -> Part
    ensures { result ≡ part_named name.now }
{
    if name == "primary" {
        Part::Primary
    } else if name == "model" {
        Part::Model
    } else if name == "body" {
        Part::Body
    } else {
        Part::Whole
    }
}

fn front_of(part: Part) -> &'static str
    ensures { result.now ≡ front_of part }
{
    match part {
        Part::Primary => "<h><head><model><instance>",
        Part::Model => "<h><head><model><instance><d/></instance>",
        Part::Body => "<h><head><model><instance><d/></instance></model></head><body>",
        Part::Whole => "",
    }
}

fn back_of(part: Part) -> &'static str
    ensures { result.now ≡ back_of part }
{
    match part {
        Part::Primary => "</instance></model></head><body/></h>",
        Part::Model => "</model></head><body/></h>",
        Part::Body => "</body></h>",
        Part::Whole => "",
    }
}

fn print_part(out: &mut String, part: Part, outline: &Outline) -> Result<(), AllocError>
    ensures { OnOk result (string_bytes out.new ≡ string_bytes out.old ++ part_printed part outline.now) }
{
    match part {
        Part::Primary => print_all::<_, Printer>(out, outline.primary.as_slice()),
        Part::Model => print_all::<_, Printer>(out, outline.model.as_slice()),
        Part::Body => print_all::<_, Printer>(out, outline.controls.as_slice()),
        Part::Whole => print_outline(out, outline),
    }
}

/// The document in which a text stands at the place of a part.
fn document(alloc: Global, part: Part, text: &str) -> Result<Vec<u8>, AllocError>
    ensures { IfOk result (λ document. document.items ≡ document_of part text.now) }
{
    let mut document = Vec::new(alloc);
    document.extend_from_slice(front_of(part).as_bytes())?;
    document.extend_from_slice(bytes_of(alloc, text)?.as_slice())?;
    document.extend_from_slice(back_of(part).as_bytes())?;
    Ok(document)
}

fn outline_of(alloc: Global, document: &[u8]) -> Result<Outline, OutlineFault> {
    read_outline(alloc, document)
}

/// What an outline says of the part that a line names, where the rest of the line stands there; of a document all.
pub fn answer(alloc: Global, line: &str) -> Result<String, NoMemory> {
    let (name, text) = cut(line);
    let part = part_named(name);
    let document = document(alloc, part, text)?;
    let mut out = String::new(alloc);
    match outline_of(alloc, document.as_slice()) {
        Ok(outline) => print_part(&mut out, part, &outline)?,
        Err(fault) => write!(out, "{fault:?}")?,
    }
    Ok(out)
}
