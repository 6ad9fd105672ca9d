use field_text::Text;
use rosa_doc::*;
use std::alloc::Global;
use std::test::Fail;

fn root_of(alloc: Global, text: &str) -> Result<Element, Fail> {
    Ok(read(alloc, text.as_bytes())?.root)
}

fn refusal_of(alloc: Global, bytes: &[u8]) -> Option<DocRefused> {
    read(alloc, bytes).err()
}

#[test]
fn a_document_is_read(rt: HostRuntime) -> Result<(), Fail> {
    let root = root_of(rt.alloc(), "<p:a k='v\"\n'>x&amp;\u{E9}<b/></p:a>")?;
    assert_eq!(rt; root.name.as_str(), "a");
    let attribute = root.attributes.get(0).ok_or("an attribute")?;
    assert_eq!(rt; attribute.name.as_str(), "k");
    assert_eq!(rt; attribute.value.as_str(), "v\" ");
    assert_eq!(rt; root.children.len(), 2);
    let first = root.children.get(0).ok_or("a child")?;
    assert!(rt; matches!(first, Node::Words(text) if text.as_str() == "x&\u{E9}"));
    Ok(())
}

static REFUSED: [(&[u8], DocRefused); 6] = [
    (b"<a>", DocRefused::Unclosed { at: 3 }),
    (b"<a></b>", DocRefused::BadMarkup { at: 3 }),
    (b"</a>\xFF", DocRefused::NotUtf8 { at: 4 }),
    (b"<a/><!DOCTYPE b>", DocRefused::HasDoctype { at: 4 }),
    (b"<!DOCTYP a><a/>", DocRefused::BadMarkup { at: 0 }),
    (
        b"<a><a><a><a><a><a><a><a><a><a><a><a><a><a><a><a><a>",
        DocRefused::TooDeep { at: 48 },
    ),
];

#[test]
fn others_are_refused(rt: HostRuntime) -> Result<(), Fail> {
    for (bytes, want) in &REFUSED {
        assert_eq!(rt; refusal_of(rt.alloc(), bytes), Some(*want));
    }
    Ok(())
}

#[test]
fn written_texts(rt: HostRuntime) -> Result<(), Fail> {
    let mut bytes = Vec::new(rt.alloc());
    let text = Text::from_bytes(rt.alloc(), b"a&\r\"\n\x01")?;
    write_text(&text, &mut bytes)?;
    write_attr(&text, &mut bytes)?;
    let want = "a&amp;&#13;\"\n\u{FFFD}a&amp;&#13;&quot;&#10;\u{FFFD}";
    assert!(rt; bytes.as_slice() == want.as_bytes());
    Ok(())
}
