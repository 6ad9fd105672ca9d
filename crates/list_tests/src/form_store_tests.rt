use field_text::{Blob, Text};
use form_store::*;
use std::alloc::Global;
use std::test::Fail;

fn text(alloc: Global, text: &str) -> Result<Text, Fail> {
    Ok(Text::from_bytes(alloc, text.as_bytes())?)
}

// Puts a form whose id, version and document are these.
fn put(
    alloc: Global,
    store: &mut FormStore,
    form: (&str, &str, &str),
    put_at: u64,
) -> Result<(), Fail> {
    let (id, version, bytes) = form;
    let item = FormRec {
        id: text(alloc, id)?,
        version: text(alloc, version)?,
        bytes: Blob::from_bytes(alloc, bytes.as_bytes())?,
        hash: text(alloc, bytes)?,
        auto: None,
        put_at,
        visible: true,
        complete: false,
    };
    store.reserve()?;
    store.put(item);
    Ok(())
}

fn check(alloc: Global, store: &FormStore, form: (&str, &str, &str)) -> Result<Check, Fail> {
    let (id, version, bytes) = form;
    Ok(store.check(&text(alloc, id)?, &text(alloc, version)?, bytes.as_bytes()))
}

// Two versions of one form, the first of them put again.
fn two_versions(alloc: Global) -> Result<FormStore, Fail> {
    let mut store = FormStore::make(alloc);
    put(alloc, &mut store, ("a", "1", "x"), 5)?;
    put(alloc, &mut store, ("a", "2", "y"), 9)?;
    put(alloc, &mut store, ("a", "1", "x"), 12)?;
    put(alloc, &mut store, ("a", "1", "z"), 13)?;
    Ok(store)
}

#[test]
fn forms_are_found(rt: HostRuntime) -> Result<(), Fail> {
    let alloc = rt.alloc();
    let store = two_versions(alloc)?;
    assert_eq!(rt; store.count(), 2);
    let id = text(alloc, "a")?;
    assert_eq!(rt; store.latest(&id), Some(0));
    assert_eq!(rt; store.exact(&id, &text(alloc, "2")?), Some(1));
    assert_eq!(rt; check(alloc, &store, ("a", "2", "y"))?, Check::Same(1));
    assert_eq!(rt;
        check(alloc, &store, ("a", "2", "x"))?,
        Check::OtherBytes(1)
    );
    assert_eq!(rt; check(alloc, &store, ("b", "2", "y"))?, Check::Fresh);
    Ok(())
}

#[test]
fn records_change(rt: HostRuntime) -> Result<(), Fail> {
    let alloc = rt.alloc();
    let mut store = two_versions(alloc)?;
    assert!(rt; 1 < store.count());
    store.hide(0);
    assert!(rt; 1 < store.count());
    store.mark_complete(1);
    assert!(rt; 1 < store.count());
    assert!(rt; !store.get(0).visible && store.get(1).complete);
    let hidden = store.remove(0);
    assert_eq!(rt; hidden.put_at, 12);
    assert_eq!(rt; store.as_slice().len(), 1);
    Ok(())
}

#[test]
fn forms_of_an_id_are_hidden(rt: HostRuntime) -> Result<(), Fail> {
    let alloc = rt.alloc();
    let mut store = two_versions(alloc)?;
    put(alloc, &mut store, ("b", "1", "x"), 14)?;
    let id = text(alloc, "a")?;
    assert!(rt; store.has_shown(&id));
    store.hide_all(&id);
    assert!(rt; store.has_id(&id) && !store.has_shown(&id));
    assert!(rt; store.has_shown(&text(alloc, "b")?));
    Ok(())
}
