ghost use Rattle.std.specs.Prelude.{◌≡◌, IfOk};
ghost use Rattle.rule_cases.specs.Documents.{document_of};

use crate::printing::{print_form, print_head, print_order};
use case_lines::{bytes_of, cut};
use field_text::NoMemory;
use form_def::FormDef;
use form_read::{FormRefused, read_form};
use std::alloc::{AllocError, Global};

fn print_refusal(out: &mut String, refusal: &FormRefused) -> Result<(), NoMemory> {
    match refusal {
        FormRefused::Doc(refusal) => write!(out, "Doc {refusal:?}")?,
        FormRefused::NoPrimary => out.push_str("NoPrimary")?,
        FormRefused::NoId => out.push_str("NoId")?,
        FormRefused::BadExpr { path, at } => write!(out, "BadExpr {} at {at}", path.as_str())?,
        FormRefused::UnknownPath { path } => write!(out, "UnknownPath [{}]", path.as_str())?,
        FormRefused::UnknownControl { name } => write!(out, "UnknownControl {}", name.as_str())?,
        FormRefused::UnknownType { path } => write!(out, "UnknownType {}", path.as_str())?,
        FormRefused::Cycle { path } => write!(out, "Cycle {}", path.as_str())?,
        FormRefused::UnknownList { name } => write!(out, "UnknownList {}", name.as_str())?,
        FormRefused::TooManyFields { count } => write!(out, "TooManyFields {count}")?,
        FormRefused::BadEntity { path } => write!(out, "BadEntity {}", path.as_str())?,
        FormRefused::NoMemory => out.push_str("NoMemory")?,
    }
    Ok(())
}

/// A document of these fields, these further children of the model, and this body.
fn document_of(alloc: Global, fields: &str, model: &str, body: &str) -> Result<Vec<u8>, AllocError>
    ensures { IfOk result (λ document. document.items ≡ document_of fields.now model.now body.now) }
{
    let mut document = Vec::new(alloc);
    document.extend_from_slice(b"<h><head><model><instance><d id='f'>")?;
    document.extend_from_slice(bytes_of(alloc, fields)?.as_slice())?;
    document.extend_from_slice(b"</d></instance>")?;
    document.extend_from_slice(bytes_of(alloc, model)?.as_slice())?;
    document.extend_from_slice(b"</model></head><body>")?;
    document.extend_from_slice(bytes_of(alloc, body)?.as_slice())?;
    document.extend_from_slice(b"</body></h>")?;
    Ok(document)
}

/// The document of a line's parts: fields, further children of the model, and a body.
pub fn document(alloc: Global, line: &str) -> Result<Vec<u8>, AllocError> {
    let (fields, rest) = cut(line);
    let (model, body) = cut(rest);
    document_of(alloc, fields, model, body)
}

/// The form that bytes describe, or why they describe none.
pub fn form_of(alloc: Global, document: &[u8]) -> Result<FormDef, FormRefused> {
    read_form(alloc, document)
}

/// The form that bytes describe; where they describe none, why not is appended.
pub fn form_or_refusal(
    alloc: Global,
    document: &[u8],
    out: &mut String,
) -> Result<Option<FormDef>, NoMemory> {
    match form_of(alloc, document) {
        Ok(form) => Ok(Some(form)),
        Err(refusal) => {
            print_refusal(out, &refusal)?;
            Ok(None)
        }
    }
}

/// What a form of these fields, children of the model and body is read as.
pub fn answer(alloc: Global, line: &str) -> Result<String, NoMemory> {
    let document = document(alloc, line)?;
    let mut out = String::new(alloc);
    if let Some(form) = form_or_refusal(alloc, document.as_slice(), &mut out)? {
        print_form(&mut out, &form)?;
    }
    Ok(out)
}

/// What a whole document is read as, with the head of the form.
pub fn answer_whole(alloc: Global, line: &str) -> Result<String, NoMemory> {
    let document = bytes_of(alloc, line)?;
    let mut out = String::new(alloc);
    if let Some(form) = form_or_refusal(alloc, document.as_slice(), &mut out)? {
        print_head(&mut out, &form)?;
        print_form(&mut out, &form)?;
    }
    Ok(out)
}

/// The order of a form's fields, or why there is none.
pub fn answer_order(alloc: Global, line: &str) -> Result<String, NoMemory> {
    let document = document(alloc, line)?;
    let mut out = String::new(alloc);
    if let Some(form) = form_or_refusal(alloc, document.as_slice(), &mut out)? {
        print_order(&mut out, form.order.as_slice())?;
    }
    Ok(out)
}
