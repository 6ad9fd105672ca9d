use field_text::Text;
use instance_store::*;
use question_rules::Sheet;
use std::alloc::Global;
use std::test::Fail;

fn instance(alloc: Global, number: u64) -> Result<InstanceRec, Fail> {
    Ok(InstanceRec {
        number,
        form: Text::from_bytes(alloc, b"tree")?,
        version: Text::from_bytes(alloc, b"1")?,
        status: Status::Draft,
        sheet: Sheet::from_texts(Vec::new(alloc)),
        doc: None,
        instance_id: None,
        edit_of: None,
        deprecated: None,
        final_at: 0,
        tried: 0,
    })
}

#[test]
fn instances_are_kept(rt: HostRuntime) -> Result<(), Fail> {
    let alloc = rt.alloc();
    let mut store = InstanceStore::make(alloc);
    store.reserve()?;
    store.add(instance(alloc, 3)?);
    assert_eq!(rt; store.as_slice().len(), 1);
    assert_eq!(rt; store.place_of(3), Some(0));
    assert_eq!(rt; store.place_of(2), None);
    store.set_status(0, Status::Sent);
    assert!(rt; 0 < store.as_slice().len());
    store.set_tried(0, 9);
    assert!(rt; 0 < store.as_slice().len());
    let kept = &store.as_slice()[0];
    assert_eq!(rt; (kept.status, kept.tried), (Status::Sent, 9));
    let sent = store.remove(0);
    assert_eq!(rt; sent.number, 3);
    assert!(rt; store.as_slice().is_empty());
    Ok(())
}

#[test]
fn a_record_is_replaced(rt: HostRuntime) -> Result<(), Fail> {
    let alloc = rt.alloc();
    let mut store = InstanceStore::make(alloc);
    store.reserve()?;
    store.add(instance(alloc, 3)?);
    let mut item = instance(alloc, 4)?;
    assert!(rt; 0 < store.as_slice().len());
    item.number = store.as_slice()[0].number;
    item.final_at = 7;
    let old = store.replace(0, item);
    assert_eq!(rt; old.final_at, 0);
    assert_eq!(rt; store.as_slice().len(), 1);
    Ok(())
}
