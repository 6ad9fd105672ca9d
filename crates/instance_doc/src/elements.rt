ghost use Rattle.std.specs.Prelude.{◌≡◌, ◌++◌, ◌≤◌, ℕ, List, [], IfOk, OnOk, length};
ghost use Rattle.instance_doc.specs.Rows.{content};
ghost use Rattle.instance_doc.specs.Elements.{behind, children, field_text, fields_text, is_written};
ghost use Rattle.instance_doc.specs.Elements.{placed, values};
ghost use Rattle.instance_doc.specs.Views.{row_in, rows_in};

use crate::markup::{close_element, push_start};
use crate::rows::{Row, Rows, is_group, last_name, meta_path, push_content, split_rows};
use field_text::{NoMemory, Text};
use form_def::parent_path;
use std::alloc::Global;

/// Whether a field is written outside `meta`, where paths begin with this.
fn is_written(meta: &[u8], row: &Row) -> bool
    ensures { result ≡ is_written meta.now (row_in row.now) }
{
    row.shown && !row.field.path.bytes().starts_with(meta)
}

/// The rows behind those below a path.
fn past_children<'a>(parent: &[u8], rows: &Rows<'a>) -> Rows<'a>
    ensures rest { (meta : List ℕ)
        → placed (field_text meta) (rows_in result) ≡ behind parent.now (placed (field_text meta) (rows_in rows.now)) }
    ensures shorter { length result.fields.now ≤ length rows.now.fields.now }
{
    let mut rest = *rows;
    while let Some((row, others)) = split_rows(&rest) {
        if parent_path(row.field.path.bytes()) != parent {
            return rest;
        }
        rest = past_children(row.field.path.bytes(), &others);
    }
    rest
}

/// Appends the elements right below a path, and gives the rows behind them.
#[cycle(elements)]
fn push_children<'a>(
    meta: &[u8],
    parent: &[u8],
    rows: &Rows<'a>,
    out: &mut Vec<u8>,
) -> Result<Rows<'a>, NoMemory>
    ensures text { OnOk result (out.new.items
        ≡ out.old.items ++ values (children parent.now (placed (field_text meta.now) (rows_in rows.now)))) }
    ensures rest { IfOk result (λ rest. placed (field_text meta.now) (rows_in rest)
        ≡ behind parent.now (placed (field_text meta.now) (rows_in rows.now))) }
    ensures shorter { IfOk result (λ rest. length rest.fields.now ≤ length rows.now.fields.now) }
{
    let mut rest = *rows;
    while let Some((row, others)) = split_rows(&rest) {
        if parent_path(row.field.path.bytes()) != parent {
            return Ok(rest);
        }
        rest = push_field(meta, &row, &others, out)?;
    }
    Ok(rest)
}

/// Appends what stands inside a field's element, and gives the rows behind it.
#[cycle(elements)]
fn push_inside<'a>(
    meta: &[u8],
    row: &Row,
    others: &Rows<'a>,
    out: &mut Vec<u8>,
) -> Result<Rows<'a>, NoMemory>
    ensures text { OnOk result (out.new.items ≡ out.old.items ++ content (row_in row.now)
        (values (children row.now.field.now.path (placed (field_text meta.now) (rows_in others.now))))) }
    ensures rest { IfOk result (λ rest. placed (field_text meta.now) (rows_in rest)
        ≡ behind row.now.field.now.path (placed (field_text meta.now) (rows_in others.now))) }
    ensures shorter { IfOk result (λ rest. length rest.fields.now ≤ length others.now.fields.now) }
{
    let path = row.field.path.bytes();
    if is_group(row.field.kind) {
        push_children(meta, path, others, out)
    } else {
        push_content(row, out)?;
        Ok(past_children(path, others))
    }
}

/// Appends a field's element, and gives the rows behind it.
#[cycle(elements)]
fn push_field<'a>(
    meta: &[u8],
    row: &Row,
    others: &Rows<'a>,
    out: &mut Vec<u8>,
) -> Result<Rows<'a>, NoMemory>
    ensures text { OnOk result (out.new.items ≡ out.old.items ++ field_text meta.now (row_in row.now)
        (values (children row.now.field.now.path (placed (field_text meta.now) (rows_in others.now))))) }
    ensures rest { IfOk result (λ rest. placed (field_text meta.now) (rows_in rest)
        ≡ behind row.now.field.now.path (placed (field_text meta.now) (rows_in others.now))) }
    ensures shorter { IfOk result (λ rest. length rest.fields.now ≤ length others.now.fields.now) }
{
    if !is_written(meta, row) {
        return Ok(past_children(row.field.path.bytes(), others));
    }
    let name = last_name(row.field.path.as_str());
    push_start(name, out)?;
    let inside = out.len();
    let rest = push_inside(meta, row, others, out)?;
    close_element(name, inside, out)?;
    Ok(rest)
}

/// Appends the elements of the fields outside `meta`.
pub fn push_fields(
    alloc: Global,
    root: &Text,
    rows: &Rows,
    out: &mut Vec<u8>,
) -> Result<(), NoMemory>
    ensures { OnOk result (out.new.items ≡ out.old.items ++ fields_text root.now (rows_in rows.now)) }
{
    let meta = meta_path(alloc, root, "")?;
    let mut rest = *rows;
    while let Some((row, others)) = split_rows(&rest) {
        rest = push_field(meta.as_bytes(), &row, &others, out)?;
    }
    Ok(())
}
