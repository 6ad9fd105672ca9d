ghost use Rattle.std.specs.Prelude.{◌≡◌, ◌++◌, IfOk, OnOk, codes};
ghost use Rattle.std.specs.List.{flat_map};
ghost use Rattle.rosa_nodes.specs.Writing.{end_text, leaf, leaf_text, start_text};
ghost use Rattle.form_list.specs.Writing.{file_leaves, file_start, file_text, form_leaves, form_text, list_start};
ghost use Rattle.form_list.specs.Writing.{list_text, manifest_leaf, manifest_start, manifest_text};

use crate::{Listed, MediaFile};
use field_text::{Blob, NoMemory, Text};
use rosa_doc::write_text;
use std::alloc::Global;

fn push_start(name: &str, out: &mut Vec<u8>) -> Result<(), NoMemory>
    ensures { OnOk result (out.new.items ≡ out.old.items ++ start_text name.now) }
{
    out.push(b'<')?;
    out.extend_from_slice(name.as_bytes())?;
    Ok(out.push(b'>')?)
}

fn push_end(name: &str, out: &mut Vec<u8>) -> Result<(), NoMemory>
    ensures { OnOk result (out.new.items ≡ out.old.items ++ end_text name.now) }
{
    out.extend_from_slice(b"</")?;
    out.extend_from_slice(name.as_bytes())?;
    Ok(out.push(b'>')?)
}

#[tactic(auto, unfolding(rosa_nodes::specs::Writing::leaf_text))]
fn push_leaf(name: &str, text: &Text, out: &mut Vec<u8>) -> Result<(), NoMemory>
    ensures { OnOk result (out.new.items ≡ out.old.items ++ leaf_text (leaf name.now text.now)) }
{
    push_start(name, out)?;
    write_text(text, out)?;
    push_end(name, out)
}

fn push_manifest_leaf(manifest: &Option<Text>, out: &mut Vec<u8>) -> Result<(), NoMemory>
    ensures { OnOk result (out.new.items ≡ out.old.items ++ flat_map leaf_text (manifest_leaf manifest.now)) }
{
    match manifest {
        Some(manifest) => Ok(push_leaf("manifestUrl", manifest, out)?),
        None => Ok(()),
    }
}

fn push_form_leaves(form: &Listed, out: &mut Vec<u8>) -> Result<(), NoMemory>
    ensures { OnOk result (out.new.items ≡ out.old.items ++ flat_map leaf_text (form_leaves form.now)) }
{
    push_leaf("formID", &form.form_id, out)?;
    push_leaf("name", &form.name, out)?;
    push_leaf("version", &form.version, out)?;
    push_leaf("hash", &form.hash, out)?;
    push_leaf("downloadUrl", &form.download, out)?;
    Ok(push_manifest_leaf(&form.manifest, out)?)
}

#[tactic(auto, unfolding(crate::specs::Writing::form_text))]
fn push_form(form: &Listed, out: &mut Vec<u8>) -> Result<(), NoMemory>
    ensures { OnOk result (out.new.items ≡ out.old.items ++ form_text form.now) }
{
    push_start("xform", out)?;
    push_form_leaves(form, out)?;
    push_end("xform", out)
}

fn push_forms(forms: &[Listed], out: &mut Vec<u8>) -> Result<(), NoMemory>
    ensures { OnOk result (out.new.items ≡ out.old.items ++ flat_map form_text forms.now) }
{
    for form in forms {
        push_form(form, out)?;
    }
    Ok(())
}

/// The document of a form list. It reads back as these forms where the law `written_lists_read` says so.
#[tactic(auto, unfolding(crate::specs::Writing::list_text))]
pub fn write_list(alloc: Global, forms: &[Listed]) -> Result<Blob, NoMemory>
    ensures { IfOk result (λ document. document ≡ list_text forms.now) }
{
    let mut out = Vec::from_slice(
        alloc,
        b"<xforms xmlns=\"http://openrosa.org/xforms/xformsList\">",
    )?;
    push_forms(forms, &mut out)?;
    push_end("xforms", &mut out)?;
    Ok(Blob::from_vec(out))
}

fn push_file_start(file: &MediaFile, out: &mut Vec<u8>) -> Result<(), NoMemory>
    ensures { OnOk result (out.new.items ≡ out.old.items ++ file_start file.now) }
{
    if file.entity_list {
        Ok(out.extend_from_slice(b"<mediaFile type=\"entityList\">")?)
    } else {
        push_start("mediaFile", out)
    }
}

fn push_file_leaves(file: &MediaFile, out: &mut Vec<u8>) -> Result<(), NoMemory>
    ensures { OnOk result (out.new.items ≡ out.old.items ++ flat_map leaf_text (file_leaves file.now)) }
{
    push_leaf("filename", &file.filename, out)?;
    push_leaf("hash", &file.hash, out)?;
    Ok(push_leaf("downloadUrl", &file.download, out)?)
}

#[tactic(auto, unfolding(crate::specs::Writing::file_text))]
fn push_file(file: &MediaFile, out: &mut Vec<u8>) -> Result<(), NoMemory>
    ensures { OnOk result (out.new.items ≡ out.old.items ++ file_text file.now) }
{
    push_file_start(file, out)?;
    push_file_leaves(file, out)?;
    push_end("mediaFile", out)
}

fn push_files(files: &[MediaFile], out: &mut Vec<u8>) -> Result<(), NoMemory>
    ensures { OnOk result (out.new.items ≡ out.old.items ++ flat_map file_text files.now) }
{
    for file in files {
        push_file(file, out)?;
    }
    Ok(())
}

/// The document of a manifest. It reads back as these files where the law `written_lists_read` says so.
#[tactic(auto, unfolding(crate::specs::Writing::manifest_text))]
pub fn write_manifest(alloc: Global, files: &[MediaFile]) -> Result<Blob, NoMemory>
    ensures { IfOk result (λ document. document ≡ manifest_text files.now) }
{
    let mut out = Vec::from_slice(
        alloc,
        b"<manifest xmlns=\"http://openrosa.org/xforms/xformsManifest\">",
    )?;
    push_files(files, &mut out)?;
    push_end("manifest", &mut out)?;
    Ok(Blob::from_vec(out))
}
