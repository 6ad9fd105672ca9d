use field_text::Text;
use rosa_nodes::*;
use std::test::Fail;

// The content of an element, and the trimmed text of its first child `a`.
static TEXTS: [(&str, &str); 9] = [
    ("", ""),
    ("<b>x</b>", ""),
    ("<a/>", ""),
    ("<a>x</a>", "x"),
    ("<a> &#9;\n x  y &#13; </a>", "x  y"),
    ("<a>&#160;x&#160;</a>", "\u{A0}x\u{A0}"),
    ("<a> x<b> y </b> z </a>", "x z"),
    ("<p:a>1</p:a><a>2</a>", "1"),
    ("<a> \n </a><a>2</a>", ""),
];

#[test]
fn texts_of_children(rt: HostRuntime) -> Result<(), Fail> {
    let alloc = rt.alloc();
    for (content, want) in &TEXTS {
        let document = std::format!(in alloc; "<r>{content}</r>")?;
        let doc = rosa_doc::read(alloc, document.as_bytes())?;
        let text = text_of_child(alloc, doc.root.children.as_slice(), "a")?;
        assert_eq!(rt; text.as_str(), *want);
    }
    Ok(())
}

#[test]
fn attributes_and_children(rt: HostRuntime) -> Result<(), Fail> {
    let alloc = rt.alloc();
    let document = b"<r k='1' p:k='2' e=''>w<a/><b>v</b></r>";
    let doc = rosa_doc::read(alloc, document)?;
    let attributes = doc.root.attributes.as_slice();
    let nodes = doc.root.children.as_slice();
    let value = attribute(alloc, attributes, "k")?;
    assert_eq!(rt;
        value.as_ref().map(|value: &Text| value.as_str()),
        Some("1")
    );
    let empty = attribute_or_empty(alloc, attributes, "none")?;
    assert_eq!(rt; empty.as_str(), "");
    assert!(rt; attribute_of(attributes, "e").is_some());
    assert!(rt; has_elements(nodes));
    let words = words_of(alloc, nodes)?;
    assert_eq!(rt; words.as_str(), "w");
    assert!(rt; element_in(&nodes[0]).is_none());
    let child = child_named(nodes, "b").ok_or("no child")?;
    assert!(rt; !has_elements(child.children.as_slice()));
    Ok(())
}
