ghost use Rattle.std.specs.Prelude.{◌≡◌, ◌++◌, IfOk, OnOk, true};
ghost use Rattle.field_text.specs.Steps.{Gives};
ghost use Rattle.instance_doc.specs.Documents.{declaration, doc_of, document, fault_of, limited};
ghost use Rattle.instance_doc.specs.Documents.{namespaces, root_attributes, root_content, root_name, root_tag};
ghost use Rattle.instance_doc.specs.Documents.{root_text};
ghost use Rattle.instance_doc.specs.Instances.{ReadsAs};
ghost use Rattle.instance_doc.specs.ReadBack.{are_kept, given, is_readable};
ghost use Rattle.instance_doc.specs.Returns.{lacks_return};
ghost use Rattle.instance_doc.specs.Rows.{rows_of};
ghost use Rattle.instance_doc.specs.Trees.{HasFields};
ghost use Rattle.instance_doc.specs.Views.{rows_in};

use crate::elements::push_fields;
use crate::markup::{push_attribute, push_end, push_name};
use crate::meta::push_meta;
use crate::rows::Rows;
use crate::{DocFault, Meta};
use field_text::{Blob, NoMemory, Text};
use form_def::FormDef;
use std::alloc::Global;

/// How many bytes the document of an instance may have.
pub const DOCUMENT_LIMIT: usize = 131_072;

#[tactic(auto, unfolding(crate::specs::Documents::declaration))]
fn push_declaration(out: &mut Vec<u8>) -> Result<(), NoMemory>
    ensures { OnOk result (out.new.items ≡ out.old.items ++ declaration) }
{
    Ok(out.extend_from_slice(b"<?xml version=\"1.0\" encoding=\"UTF-8\"?>")?)
}

#[tactic(auto, unfolding(crate::specs::Documents::namespaces))]
fn push_namespaces(out: &mut Vec<u8>) -> Result<(), NoMemory>
    ensures { OnOk result (out.new.items ≡ out.old.items ++ namespaces) }
{
    out.extend_from_slice(b" xmlns:orx=\"http://openrosa.org/xforms\"")?;
    out.extend_from_slice(b" xmlns:entities=\"http://www.opendatakit.org/xforms/entities\"")?;
    Ok(())
}

fn push_root_name(form: &FormDef, out: &mut Vec<u8>) -> Result<(), NoMemory>
    ensures { OnOk result (out.new.items ≡ out.old.items ++ root_name form.now) }
{
    out.push(b'<')?;
    push_name(form.root.as_str(), out)?;
    push_namespaces(out)
}

fn push_root_attributes(form: &FormDef, out: &mut Vec<u8>) -> Result<(), NoMemory>
    ensures { OnOk result (out.new.items ≡ out.old.items ++ root_attributes form.now) }
{
    push_attribute("id", &form.id, out)?;
    push_attribute("version", &form.version, out)
}

fn push_root_tag(form: &FormDef, out: &mut Vec<u8>) -> Result<(), NoMemory>
    ensures { OnOk result (out.new.items ≡ out.old.items ++ root_tag form.now) }
{
    push_root_name(form, out)?;
    push_root_attributes(form, out)?;
    Ok(out.push(b'>')?)
}

fn push_root_content(
    alloc: Global,
    form: &FormDef,
    rows: &Rows,
    meta: &Meta,
    out: &mut Vec<u8>,
) -> Result<(), NoMemory>
    ensures { OnOk result (out.new.items ≡ out.old.items ++ root_content form.now (rows_in rows.now) meta.now) }
{
    push_fields(alloc, &form.root, rows, out)?;
    push_meta(alloc, form, rows, meta, out)
}

fn push_root(
    alloc: Global,
    form: &FormDef,
    rows: &Rows,
    meta: &Meta,
    out: &mut Vec<u8>,
) -> Result<(), NoMemory>
    ensures { OnOk result (out.new.items ≡ out.old.items ++ root_text form.now (rows_in rows.now) meta.now) }
{
    push_root_tag(form, out)?;
    push_root_content(alloc, form, rows, meta, out)?;
    push_end(form.root.as_str(), out)
}

fn document(alloc: Global, form: &FormDef, rows: &Rows, meta: &Meta) -> Result<Vec<u8>, NoMemory>
    ensures { IfOk result (λ bytes. bytes.items ≡ document form.now (rows_in rows.now) meta.now) }
{
    let mut out = Vec::new(alloc);
    push_declaration(&mut out)?;
    push_root(alloc, form, rows, meta, &mut out)?;
    Ok(out)
}

fn limited(document: Vec<u8>) -> Result<Blob, DocFault>
    ensures { Gives fault_of (λ blob. blob) result (limited document.items) }
{
    if document.len() > DOCUMENT_LIMIT {
        return Err(DocFault::TooLong {
            length: document.len() as u64,
        });
    }
    Ok(Blob::from_vec(document))
}

/// The document of an instance of the form, with a text for each field and whether the field is shown: the fields that
/// are shown, the ids, and the name and the entity where the form has them. It is refused where it has more bytes than
/// `DOCUMENT_LIMIT`.
pub fn doc_bytes(
    alloc: Global,
    form: &FormDef,
    texts: &[Text],
    shown: &[bool],
    meta: &Meta,
) -> Result<Blob, DocFault>
    ensures document { Gives fault_of (λ blob. blob) result (limited (doc_of form.now texts.now shown.now meta.now)) }
    ensures no_return { IfOk result (λ blob. lacks_return blob ≡ true) }
    ensures read_back { IfOk result (λ blob. is_readable form.now (rows_of form.now.fields texts.now shown.now) ≡ true
        → are_kept form.now meta.now ≡ true → ReadsAs blob (given form.now meta.now)) }
    ensures fields { IfOk result (λ blob. is_readable form.now (rows_of form.now.fields texts.now shown.now) ≡ true
        → HasFields blob form.now.root (rows_of form.now.fields texts.now shown.now)) }
{
    let rows = Rows {
        fields: form.fields.as_slice(),
        texts,
        shown,
    };
    limited(document(alloc, form, &rows, meta)?)
}
