ghost use Rattle.std.specs.Prelude.{◌≡◌, ◌↔◌, length, IsTrue, IfOk};
ghost use Rattle.form_def.specs.Fields.{number_of, parent_of, parents_of, have_paths, PathsDiffer, LacksPath};
ghost use Rattle.form_def.specs.Fields.{reads_below, are_within};

use crate::field::Field;
use crate::paths::{is_path, parent_path};
use crate::reads::reads_of_field;
use field_text::{Items, NoMemory};
use std::alloc::Global;

fn place_of(fields: &[Field], path: &[u8]) -> Option<usize>
    ensures { result ≡ number_of fields.now path.now }
{
    fields.iter().position(|field| field.path.bytes() == path)
}

/// The number of the field of a path.
fn number_of(fields: &[Field], path: &[u8]) -> Option<u64>
    ensures { result ≡ number_of fields.now path.now }
{
    match place_of(fields, path) {
        Some(place) => Some(place as u64),
        None => None,
    }
}

/// The number of the field that a path stands below.
pub fn parent_of(fields: &[Field], path: &[u8]) -> Option<u64>
    ensures { result ≡ parent_of fields.now path.now }
{
    number_of(fields, parent_path(path))
}

/// The parent of each field.
pub fn parents_of(alloc: Global, fields: &[Field]) -> Result<Items<Option<u64>>, NoMemory>
    ensures { IfOk result (λ parents. parents ≡ parents_of fields.now) }
{
    let mut parents = Items::new(alloc);
    for field in fields {
        parents.push(parent_of(fields, field.path.bytes()))?;
    }
    Ok(parents)
}

/// Whether every path begins with the root's name and goes on with names.
pub fn have_paths(root: &str, fields: &[Field]) -> bool
    ensures { result ≡ have_paths root.now fields.now }
{
    let mut rest = fields;
    while let [first, others @ ..] = rest {
        if !is_path(root, first.path.as_str()) {
            return false;
        }
        rest = others;
    }
    true
}

/// Whether none of the fields has the path.
fn is_new(path: &[u8], fields: &[Field]) -> bool
    ensures { IsTrue result ↔ LacksPath path.now fields.now }
{
    fields.iter().all(|field| field.path.bytes() != path)
}

/// Whether no two fields have one path.
pub fn paths_differ(fields: &[Field]) -> bool
    ensures { IsTrue result ↔ PathsDiffer fields.now }
{
    let mut rest = fields;
    while let Some((first, others)) = rest.split_first() {
        if !is_new(first.path.bytes(), others) {
            return false;
        }
        rest = others;
    }
    true
}

/// Whether the field reads only fields with numbers below the count.
fn is_within(alloc: Global, count: u64, own: u64, field: &Field) -> Result<bool, NoMemory>
    ensures { IfOk result (λ within. within ≡ reads_below count own field.now) }
{
    let numbers = reads_of_field(alloc, own, field)?;
    Ok(numbers.iter().all(|number| *number < count))
}

/// Whether each field reads only fields of the form.
pub fn are_within(alloc: Global, fields: &[Field]) -> Result<bool, NoMemory>
    ensures { IfOk result (λ within. within ≡ are_within (length fields.now) 0 fields.now) }
{
    let count = fields.len() as u64;
    let mut own = 0;
    let mut rest = fields;
    while let [first, others @ ..] = rest {
        if !is_within(alloc, count, own, first)? {
            return Ok(false);
        }
        own += 1;
        rest = others;
    }
    Ok(true)
}
