ghost use Rattle.std.specs.Prelude.{◌≡◌, ◌++◌, OnOk};
ghost use Rattle.instance_doc.specs.Documents.{deprecated_text, ids_text, meta_content, meta_text, name_element};
ghost use Rattle.instance_doc.specs.Documents.{name_text};
ghost use Rattle.instance_doc.specs.Views.{row_in, rows_in};

use crate::entity::push_entity;
use crate::markup::{close_element, push_end, push_start, push_text_element};
use crate::rows::{Row, Rows, meta_path, push_content, row_at};
use field_text::{NoMemory, Text};
use form_def::FormDef;
use std::alloc::Global;

/// The ids of an instance (OpenRosa metadata).
#[derive(Debug, Drop)]
pub struct Meta {
    pub instance_id: Text,
    /// The id of the instance that this one is an edit of.
    pub deprecated: Option<Text>,
}

fn push_deprecated(deprecated: &Option<Text>, out: &mut Vec<u8>) -> Result<(), NoMemory>
    ensures { OnOk result (out.new.items ≡ out.old.items ++ deprecated_text deprecated.now) }
{
    match deprecated {
        Some(id) => push_text_element("orx:deprecatedID", id, out),
        None => Ok(()),
    }
}

fn push_ids(meta: &Meta, out: &mut Vec<u8>) -> Result<(), NoMemory>
    ensures { OnOk result (out.new.items ≡ out.old.items ++ ids_text meta.now) }
{
    push_text_element("orx:instanceID", &meta.instance_id, out)?;
    push_deprecated(&meta.deprecated, out)
}

fn push_name_element(row: &Row, out: &mut Vec<u8>) -> Result<(), NoMemory>
    ensures { OnOk result (out.new.items ≡ out.old.items ++ name_element (row_in row.now)) }
{
    push_start("orx:instanceName", out)?;
    let inside = out.len();
    push_content(row, out)?;
    close_element("orx:instanceName", inside, out)
}

fn push_name_of(alloc: Global, root: &Text, rows: &Rows, out: &mut Vec<u8>) -> Result<(), NoMemory>
    ensures { OnOk result (out.new.items ≡ out.old.items ++ name_text root.now (rows_in rows.now)) }
{
    let path = meta_path(alloc, root, "instanceName")?;
    match row_at(path.as_bytes(), rows) {
        Some(row) => push_name_element(&row, out),
        None => Ok(()),
    }
}

fn push_meta_content(
    alloc: Global,
    form: &FormDef,
    rows: &Rows,
    meta: &Meta,
    out: &mut Vec<u8>,
) -> Result<(), NoMemory>
    ensures { OnOk result (out.new.items ≡ out.old.items ++ meta_content form.now (rows_in rows.now) meta.now) }
{
    push_ids(meta, out)?;
    push_name_of(alloc, &form.root, rows, out)?;
    push_entity(alloc, &form.root, rows, &form.entity, out)
}

/// Appends the metadata of an instance, with its entity.
pub fn push_meta(
    alloc: Global,
    form: &FormDef,
    rows: &Rows,
    meta: &Meta,
    out: &mut Vec<u8>,
) -> Result<(), NoMemory>
    ensures { OnOk result (out.new.items ≡ out.old.items ++ meta_text form.now (rows_in rows.now) meta.now) }
{
    push_start("orx:meta", out)?;
    push_meta_content(alloc, form, rows, meta, out)?;
    push_end("orx:meta", out)
}
