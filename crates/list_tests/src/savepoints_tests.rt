use field_text::Text;
use question_rules::Sheet;
use savepoints::*;
use std::alloc::Global;
use std::test::Fail;

fn key(alloc: Global, form: &str, base: KeyBase) -> Result<Key, Fail> {
    Ok(Key {
        form: Text::from_bytes(alloc, form.as_bytes())?,
        version: Text::from_bytes(alloc, b"1")?,
        base,
    })
}

fn sheet(alloc: Global, answer: &str) -> Result<Sheet, Fail> {
    let mut texts = Vec::new(alloc);
    texts.push(Text::from_bytes(alloc, answer.as_bytes())?)?;
    Ok(Sheet::from_texts(texts))
}

fn put(alloc: Global, savepoints: &mut Savepoints, key: Key, answer: &str) -> Result<bool, Fail> {
    let sheet = sheet(alloc, answer)?;
    savepoints.reserve()?;
    Ok(savepoints.put(key, sheet).is_some())
}

// What the sheet of this key has in its first field.
fn answer_of<'a>(savepoints: &'a Savepoints, key: &Key) -> Option<&'a str> {
    let text = savepoints.find(key)?.texts().first()?;
    Some(text.as_str())
}

#[test]
fn sheets_are_found_by_their_keys(rt: HostRuntime) -> Result<(), Fail> {
    let alloc = rt.alloc();
    let mut savepoints = Savepoints::make(alloc);
    let draft = key(alloc, "tree", KeyBase::Draft(3))?;
    assert!(rt;
        !put(
            alloc,
            &mut savepoints,
            key(alloc, "tree", KeyBase::Blank)?,
            "oak"
        )?
    );
    assert!(rt;
        !put(
            alloc,
            &mut savepoints,
            key(alloc, "tree", KeyBase::Draft(3))?,
            "elm"
        )?
    );
    assert!(rt;
        put(
            alloc,
            &mut savepoints,
            key(alloc, "tree", KeyBase::Draft(3))?,
            "ash"
        )?
    );
    assert_eq!(rt; answer_of(&savepoints, &draft), Some("ash"));
    let edit = key(alloc, "tree", KeyBase::Edit(3))?;
    assert_eq!(rt; answer_of(&savepoints, &edit), None);
    assert!(rt; savepoints.remove(&draft).is_some());
    assert_eq!(rt; answer_of(&savepoints, &draft), None);
    assert_eq!(rt; savepoints.as_slice().len(), 1);
    Ok(())
}

#[test]
fn savepoints_on_an_instance_are_removed(rt: HostRuntime) -> Result<(), Fail> {
    let alloc = rt.alloc();
    let mut savepoints = Savepoints::make(alloc);
    let blank = key(alloc, "tree", KeyBase::Blank)?;
    let draft = key(alloc, "tree", KeyBase::Draft(3))?;
    for base in [KeyBase::Blank, KeyBase::Draft(3), KeyBase::Edit(3)] {
        let key = key(alloc, "tree", base)?;
        let _kept = put(alloc, &mut savepoints, key, "oak")?;
    }
    savepoints.remove_on(3);
    assert_eq!(rt; savepoints.as_slice().len(), 1);
    assert_eq!(rt; answer_of(&savepoints, &blank), Some("oak"));
    assert_eq!(rt; answer_of(&savepoints, &draft), None);
    Ok(())
}
