use device_state::OpenEntry;
use entity_lists::EntityLists;
use field_text::{Blob, Text};
use kept_forms::KeptForm;
use question_rules::Sheet;
use savepoints::KeyBase;
use std::alloc::Global;
use std::process::Abort;
use std::test::Fail;

static FORM: &[u8] = b"<html xmlns=\"http://www.w3.org/1999/xhtml\"><head><model>\
<instance><data id=\"leaf\" version=\"2\"><name/><twice/></data></instance>\
<bind nodeset=\"/data/name\" type=\"string\"/>\
<bind nodeset=\"/data/twice\" calculate=\"concat(/data/name, /data/name)\"/>\
<submission xmlns:orx=\"http://openrosa.org/xforms\" orx:auto-send=\"true\"/>\
</model></head><body><input ref=\"/data/name\"/></body></html>";

fn kept_form(alloc: Global) -> Result<KeptForm, Fail> {
    match KeptForm::read(alloc, Blob::from_bytes(alloc, FORM)?) {
        Ok(form) => Ok(form),
        Err(_) => Err("no form".into()),
    }
}

fn check_form(rt: &impl Abort, form: &KeptForm) -> Result<(), Fail> {
    assert_eq!(rt; form.id().as_str(), "leaf");
    assert_eq!(rt; form.version().as_str(), "2");
    assert_eq!(rt; form.auto_send(), Some(true));
    assert_eq!(rt; form.document().bytes(), FORM);
    Ok(())
}

fn is_no_form(alloc: Global, bytes: &[u8]) -> Result<bool, Fail> {
    let document = Blob::from_bytes(alloc, bytes)?;
    match KeptForm::read(alloc, document) {
        Ok(_) => Ok(false),
        Err(_) => Ok(true),
    }
}

#[test]
fn a_form_keeps_its_document(rt: HostRuntime) -> Result<(), Fail> {
    let form = kept_form(rt.alloc())?;
    let checked = check_form(&rt, &form);
    assert_eq!(rt; form.into_document().bytes(), FORM);
    checked
}

fn check_sheets(rt: &impl Abort, alloc: Global, form: &KeptForm) -> Result<(), Fail> {
    let lists = EntityLists::make(alloc);
    let sheet = form.initial_sheet(alloc, &lists)?;
    assert_eq!(rt; sheet.texts().len(), 2);
    let settled = form.settled_sheet(alloc, &lists, &sheet)?;
    assert_eq!(rt; settled.texts().len(), 2);
    Ok(())
}

#[test]
fn other_bytes_are_no_form(rt: HostRuntime) -> Result<(), Fail> {
    assert!(rt; is_no_form(rt.alloc(), b"<a/>")?);
    Ok(())
}

#[test]
fn sheets_begin_settled(rt: HostRuntime) -> Result<(), Fail> {
    let form = kept_form(rt.alloc())?;
    let checked = check_sheets(&rt, rt.alloc(), &form);
    form.into_document();
    checked
}

fn named(alloc: Global, form: &KeptForm) -> Result<Sheet, Fail> {
    let lists = EntityLists::make(alloc);
    let sheet = form.initial_sheet(alloc, &lists)?;
    let path = Text::from_bytes(alloc, b"/data/name")?;
    let oak = Text::from_bytes(alloc, b"oak")?;
    match form.filled_sheet(alloc, &lists, &sheet, &path, &oak) {
        Ok(filled) => Ok(filled),
        Err(_) => Err("refused".into()),
    }
}

// The line of the second field once the first one has an answer.
fn check_line(rt: &impl Abort, alloc: Global, form: &KeptForm) -> Result<(), Fail> {
    let filled = named(alloc, form)?;
    let lines = form.lines(alloc, &EntityLists::make(alloc), &filled)?;
    let line = lines.get(1).ok_or("no line")?;
    assert_eq!(rt; line.path.as_str(), "/data/twice");
    assert_eq!(rt; line.value.as_str(), "oakoak");
    assert!(rt; line.shown);
    Ok(())
}

#[test]
fn answers_are_settled_and_shown(rt: HostRuntime) -> Result<(), Fail> {
    let form = kept_form(rt.alloc())?;
    let checked = check_line(&rt, rt.alloc(), &form);
    form.into_document();
    checked
}

fn check_key(rt: &impl Abort, alloc: Global, entry: &OpenEntry) -> Result<(), Fail> {
    let key = entry.key(alloc)?;
    assert_eq!(rt; key.form.as_str(), "leaf");
    assert_eq!(rt; key.version.as_str(), "2");
    assert_eq!(rt; key.base, KeyBase::Draft(3));
    Ok(())
}

#[test]
fn an_entry_has_a_key(rt: HostRuntime) -> Result<(), Fail> {
    let form = kept_form(rt.alloc())?;
    let entry = OpenEntry {
        base: KeyBase::Draft(3),
        form,
        sheet: Sheet::from_texts(Vec::new(rt.alloc())),
    };
    let checked = check_key(&rt, rt.alloc(), &entry);
    entry.form.into_document();
    checked
}
