ghost use Rattle.std.specs.Prelude.{◌≡◌, ◌++◌, IfOk, OnOk, codes, string_bytes};
ghost use Rattle.instance_doc.specs.Documents.{action_attributes, entity_attribute, entity_attributes, entity_tag};
ghost use Rattle.instance_doc.specs.Documents.{entity_text, label_content, label_text, version_attributes};
ghost use Rattle.instance_doc.specs.Rows.{meta_path};
ghost use Rattle.instance_doc.specs.Views.{rows_in};

use crate::markup::{close_element, push_attribute, push_end, push_start};
use crate::rows::{Rows, meta_path, push_content, row_at};
use field_text::{NoMemory, Text};
use form_def::EntityDef;
use std::alloc::Global;

/// The path of an attribute of the entity.
fn attribute_path(alloc: Global, root: &Text, name: &str) -> Result<String, NoMemory>
    ensures { IfOk result (λ path. string_bytes path ≡ meta_path root.now (codes "entity/@" ++ name.now)) }
{
    let mut path = meta_path(alloc, root, "entity/@")?;
    path.push_str(name)?;
    Ok(path)
}

fn push_entity_attribute(
    alloc: Global,
    root: &Text,
    rows: &Rows,
    name: &str,
    out: &mut Vec<u8>,
) -> Result<(), NoMemory>
    ensures { OnOk result (out.new.items ≡ out.old.items ++ entity_attribute root.now (rows_in rows.now) name.now) }
{
    let path = attribute_path(alloc, root, name)?;
    match row_at(path.as_bytes(), rows) {
        Some(row) => push_attribute(name, row.text, out),
        None => Ok(()),
    }
}

fn push_action_attributes(
    alloc: Global,
    root: &Text,
    rows: &Rows,
    out: &mut Vec<u8>,
) -> Result<(), NoMemory>
    ensures { OnOk result (out.new.items ≡ out.old.items ++ action_attributes root.now (rows_in rows.now)) }
{
    push_entity_attribute(alloc, root, rows, "id", out)?;
    push_entity_attribute(alloc, root, rows, "create", out)?;
    push_entity_attribute(alloc, root, rows, "update", out)
}

fn push_version_attributes(
    alloc: Global,
    root: &Text,
    rows: &Rows,
    out: &mut Vec<u8>,
) -> Result<(), NoMemory>
    ensures { OnOk result (out.new.items ≡ out.old.items ++ version_attributes root.now (rows_in rows.now)) }
{
    push_entity_attribute(alloc, root, rows, "baseVersion", out)?;
    push_entity_attribute(alloc, root, rows, "trunkVersion", out)?;
    push_entity_attribute(alloc, root, rows, "branchId", out)
}

fn push_entity_attributes(
    alloc: Global,
    root: &Text,
    rows: &Rows,
    entity: &EntityDef,
    out: &mut Vec<u8>,
) -> Result<(), NoMemory>
    ensures { OnOk result (out.new.items
        ≡ out.old.items ++ entity_attributes root.now (rows_in rows.now) entity.now) }
{
    push_attribute("dataset", &entity.dataset, out)?;
    push_action_attributes(alloc, root, rows, out)?;
    push_version_attributes(alloc, root, rows, out)
}

fn push_entity_tag(
    alloc: Global,
    root: &Text,
    rows: &Rows,
    entity: &EntityDef,
    out: &mut Vec<u8>,
) -> Result<(), NoMemory>
    ensures { OnOk result (out.new.items ≡ out.old.items ++ entity_tag root.now (rows_in rows.now) entity.now) }
{
    out.extend_from_slice(b"<entities:entity")?;
    push_entity_attributes(alloc, root, rows, entity, out)?;
    Ok(out.push(b'>')?)
}

fn push_label_content(
    alloc: Global,
    root: &Text,
    rows: &Rows,
    out: &mut Vec<u8>,
) -> Result<(), NoMemory>
    ensures { OnOk result (out.new.items ≡ out.old.items ++ label_content root.now (rows_in rows.now)) }
{
    let path = meta_path(alloc, root, "entity/label")?;
    match row_at(path.as_bytes(), rows) {
        Some(row) => push_content(&row, out),
        None => Ok(()),
    }
}

fn push_label(alloc: Global, root: &Text, rows: &Rows, out: &mut Vec<u8>) -> Result<(), NoMemory>
    ensures { OnOk result (out.new.items ≡ out.old.items ++ label_text root.now (rows_in rows.now)) }
{
    push_start("entities:label", out)?;
    let inside = out.len();
    push_label_content(alloc, root, rows, out)?;
    close_element("entities:label", inside, out)
}

/// Appends the entity, if the form has one.
pub fn push_entity(
    alloc: Global,
    root: &Text,
    rows: &Rows,
    entity: &Option<EntityDef>,
    out: &mut Vec<u8>,
) -> Result<(), NoMemory>
    ensures { OnOk result (out.new.items ≡ out.old.items ++ entity_text root.now (rows_in rows.now) entity.now) }
{
    let Some(entity) = entity else {
        return Ok(());
    };
    push_entity_tag(alloc, root, rows, entity, out)?;
    push_label(alloc, root, rows, out)?;
    push_end("entities:entity", out)
}
