use field_io::{MemDialer, Stage};
use field_text::Text;
use http_exchange::{Got, exchange};
use http_wire::*;
use std::alloc::Global;
use std::process::Abort;
use std::test::Fail;

// Texts, and what they are as a base and beside the base `http://base/b`.
static ADDRESSES: [(&str, &str, &str); 13] = [
    (
        "http://localhost:8080",
        "localhost:8080 ",
        "localhost:8080 /",
    ),
    ("HTTP://h/a/", "h /a", "h /a/"),
    ("http://h//", "h /", "h //"),
    ("http://h/a#b", "h /a", "h /a"),
    ("http://h?a=b", "-", "h /?a=b"),
    ("http://h/a/?", "-", "h /a/?"),
    ("http://u@h/a", "-", "-"),
    ("https://h/a", "-", "-"),
    ("/forms/1?a", "-", "base /forms/1?a"),
    ("//host/x", "-", "base //host/x"),
    ("h:80", "-", "-"),
    ("*", "-", "-"),
    ("a b", "-", "-"),
];

const GET: &str = "GET /formList HTTP/1.1\r\n\
    Host: localhost:8080\r\n\
    X-OpenRosa-Version: 1.0\r\n\
    Date: Thu, 01 Jan 1970 00:00:00 GMT\r\n\
    Accept-Encoding: identity\r\n\
    Connection: close\r\n\
    \r\n";

const REPLY: &[u8] = b"HTTP/1.1 201 Created\r\nContent-Length: 2\r\n\r\nok";

fn text_of(alloc: Global, text: &str) -> Result<Text, Fail> {
    Ok(Text::from_string(String::from_str(alloc, text)?))
}

fn shown(alloc: Global, found: Option<Address>) -> Result<String, Fail> {
    let Some(address) = found else {
        return Ok(String::from_str(alloc, "-")?);
    };
    let authority = address.authority.as_str();
    let target = address.target.as_str();
    Ok(format!(in alloc; "{authority} {target}")?)
}

fn shown_base(alloc: Global, text: &str) -> Result<String, Fail> {
    let found = read_base(alloc, &text_of(alloc, text)?);
    shown(alloc, found.ok().ok_or("no memory")?)
}

fn shown_beside(alloc: Global, base: &Address, text: &str) -> Result<String, Fail> {
    let found = read_address(alloc, base, &text_of(alloc, text)?);
    shown(alloc, found.ok().ok_or("no memory")?)
}

fn address(alloc: Global, authority: &str, target: &str) -> Result<Address, Fail> {
    Ok(Address {
        authority: text_of(alloc, authority)?,
        target: text_of(alloc, target)?,
    })
}

#[test]
fn addresses_are_read(rt: HostRuntime) -> Result<(), Fail> {
    let alloc = rt.alloc();
    let base = address(alloc, "base", "/b")?;
    for (text, as_base, beside) in &ADDRESSES {
        assert_eq!(rt; shown_base(alloc, text)?.as_str(), *as_base);
        assert_eq!(rt; shown_beside(alloc, &base, text)?.as_str(), *beside);
    }
    Ok(())
}

#[test]
fn a_get_is_these_bytes(rt: HostRuntime) -> Result<(), Fail> {
    let alloc = rt.alloc();
    let request = get_text(alloc, &address(alloc, "localhost:8080", "/formList")?, 0);
    assert_eq!(rt; request.ok().ok_or("no memory")?.bytes(), GET.as_bytes());
    Ok(())
}

fn dialer(alloc: Global, fails: &[u64]) -> Result<MemDialer, Fail> {
    let mut replies = Vec::new(alloc);
    replies.push(Vec::from_slice(alloc, REPLY)?)?;
    Ok(MemDialer::make(alloc, replies, Vec::from_slice(alloc, fails)?))
}

fn exchanged(alloc: Global, fails: &[u64]) -> Result<Got, Fail> {
    let mut dialer = dialer(alloc, fails)?;
    Ok(exchange(alloc, &mut dialer, &text_of(alloc, "h")?, GET.as_bytes()))
}

fn stage(got: &Got) -> Option<Stage> {
    match got {
        Got::Fault(stage) => Some(*stage),
        Got::Reply(_) | Got::NoMemory => None,
    }
}

fn reply(got: &Got) -> Option<&[u8]> {
    match got {
        Got::Reply(bytes) => Some(bytes.bytes()),
        Got::Fault(_) | Got::NoMemory => None,
    }
}

#[test]
fn an_exchange_gives_its_reply_or_the_call_that_failed(rt: HostRuntime) -> Result<(), Fail> {
    let alloc = rt.alloc();
    assert_eq!(rt; reply(&exchanged(alloc, &[])?), Some(REPLY));
    assert_eq!(rt; stage(&exchanged(alloc, &[1])?), Some(Stage::Dial));
    assert_eq!(rt; stage(&exchanged(alloc, &[2])?), Some(Stage::Send));
    assert_eq!(rt; stage(&exchanged(alloc, &[3])?), Some(Stage::Take));
    Ok(())
}
