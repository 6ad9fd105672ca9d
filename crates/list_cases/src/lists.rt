use form_list::{
    ListRefused, Listed, MediaFile, read_list, read_manifest, write_list, write_manifest,
};
use std::alloc::{AllocError, Global};

/// Lists that are long, by the names of root and entry and the number of entries.
pub static LENGTHS: [(&str, &str, u64); 4] = [
    ("xforms", "xform", 1000),
    ("xforms", "xform", 1001),
    ("manifest", "mediaFile", 100),
    ("manifest", "mediaFile", 101),
];

fn refused(alloc: Global, refused: ListRefused) -> Result<String, AllocError> {
    format!(in alloc; "refused {refused:?}")
}

fn push_form(alloc: Global, form: &Listed, line: &mut String) -> Result<(), AllocError> {
    let id = form.form_id.as_str();
    let name = form.name.as_str();
    let version = form.version.as_str();
    let hash = form.hash.as_str();
    let download = form.download.as_str();
    let item = format!(in alloc; " [{id}] [{name}] [{version}] {hash} [{download}]")?;
    line.push_str(item.as_str())?;
    if let Some(manifest) = &form.manifest {
        line.push_str(" [")?;
        line.push_str(manifest.as_str())?;
        line.push_str("]")?;
    }
    Ok(())
}

fn forms_line(alloc: Global, forms: &[Listed]) -> Result<String, AllocError> {
    let mut line = String::from_str(alloc, "forms")?;
    for form in forms {
        push_form(alloc, form, &mut line)?;
    }
    Ok(line)
}

/// The forms that a document lists, or why it is refused.
pub fn form_list(alloc: Global, document: &str) -> Result<String, AllocError> {
    let forms = match read_list(alloc, document.as_bytes()) {
        Ok(forms) => forms,
        Err(fault) => return refused(alloc, fault),
    };
    let line = forms_line(alloc, forms.as_slice())?;
    let Ok(written) = write_list(alloc, forms.as_slice()) else {
        return Err(AllocError);
    };
    match read_list(alloc, written.bytes()) {
        Ok(again) if forms_line(alloc, again.as_slice())?.as_str() == line.as_str() => Ok(line),
        _ => String::from_str(alloc, "not read back"),
    }
}

fn push_file(alloc: Global, file: &MediaFile, line: &mut String) -> Result<(), AllocError> {
    let filename = file.filename.as_str();
    let hash = file.hash.as_str();
    let download = file.download.as_str();
    let item = format!(in alloc; " [{filename}] {hash} [{download}]")?;
    line.push_str(item.as_str())?;
    if file.entity_list {
        line.push_str(" entities")?;
    }
    Ok(())
}

fn files_line(alloc: Global, files: &[MediaFile]) -> Result<String, AllocError> {
    let mut line = String::from_str(alloc, "files")?;
    for file in files {
        push_file(alloc, file, &mut line)?;
    }
    Ok(line)
}

/// The media files of a manifest, or why it is refused.
pub fn manifest(alloc: Global, document: &str) -> Result<String, AllocError> {
    let files = match read_manifest(alloc, document.as_bytes()) {
        Ok(files) => files,
        Err(fault) => return refused(alloc, fault),
    };
    let line = files_line(alloc, files.as_slice())?;
    let Ok(written) = write_manifest(alloc, files.as_slice()) else {
        return Err(AllocError);
    };
    match read_manifest(alloc, written.bytes()) {
        Ok(again) if files_line(alloc, again.as_slice())?.as_str() == line.as_str() => Ok(line),
        _ => String::from_str(alloc, "not read back"),
    }
}

/// What a list of so many empty entries is refused with.
pub fn length(alloc: Global, root: &str, entry: &str, count: u64) -> Result<String, AllocError> {
    let mut document = format!(in alloc; "<{root}>")?;
    for _ in 0..count {
        document.push_str("<")?;
        document.push_str(entry)?;
        document.push_str("/>")?;
    }
    document.push_str("</")?;
    document.push_str(root)?;
    document.push_str(">")?;
    if root == "xforms" {
        form_list(alloc, document.as_str())
    } else {
        manifest(alloc, document.as_str())
    }
}
