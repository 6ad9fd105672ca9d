use field_text::Text;
use http_wire::Address;
use std::alloc::Global;
use std::test::Fail;
use wire_laws::{accepts, server_base};

static REPLIES: [(&str, bool); 5] = [
    ("HTTP/1.1 201 Created\r\n\r\n", true),
    (
        "HTTP/1.1 100 Continue\r\n\r\nHTTP/1.1 202 Accepted\r\nContent-Length: 9\r\n\r\n",
        true,
    ),
    ("HTTP/1.1 201 Created\r\n", false),
    ("HTTP/1.1 200 OK\r\n\r\n", false),
    ("", false),
];

// Texts, and their authority and target as a base.
static BASES: [(&str, Option<(&str, &str)>); 4] = [
    ("http://localhost:8080", Some(("localhost:8080", ""))),
    ("http://h/a/", Some(("h", "/a"))),
    ("http://h?a=b", None),
    ("/a", None),
];

#[test]
fn bytes_accept_or_not(rt: HostRuntime) -> Result<(), Fail> {
    for (text, is_accepted) in &REPLIES {
        assert_eq!(rt; accepts(text.as_bytes()), *is_accepted);
    }
    Ok(())
}

fn base_of(alloc: Global, text: &str) -> Result<Option<Address>, Fail> {
    let text = Text::from_string(String::from_str(alloc, text)?);
    Ok(server_base(alloc, &text).ok().ok_or("no memory")?)
}

fn is_base(found: &Option<Address>, parts: Option<(&str, &str)>) -> bool {
    match (found, parts) {
        (None, None) => true,
        (Some(base), Some((authority, target))) => {
            base.authority.as_str() == authority && base.target.as_str() == target
        }
        (None, Some(_)) | (Some(_), None) => false,
    }
}

#[test]
fn texts_are_bases_or_not(rt: HostRuntime) -> Result<(), Fail> {
    for (text, parts) in &BASES {
        let found = base_of(rt.alloc(), text)?;
        assert!(rt; is_base(&found, *parts));
    }
    Ok(())
}
