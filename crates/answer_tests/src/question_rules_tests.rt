use field_text::Text;
use question_rules::*;
use std::alloc::Global;
use std::test::Fail;

fn text(alloc: Global, text: &str) -> Result<Text, Fail> {
    Ok(Text::from_bytes(alloc, text.as_bytes())?)
}

#[test]
fn texts_are_put_and_kept(rt: HostRuntime) -> Result<(), Fail> {
    let alloc = rt.alloc();
    let mut texts = Vec::new(alloc);
    texts.push(text(alloc, "a")?)?;
    texts.push(text(alloc, "b")?)?;
    let mut sheet = Sheet::from_texts(texts);
    let copy = sheet.copy(alloc)?;
    let old = sheet.put_text(1, text(alloc, "c")?);
    assert_eq!(rt; old.as_str(), "b");
    assert_eq!(rt; sheet.texts().len(), copy.texts().len());
    Ok(())
}
