use field_io::Stage;
use field_text::{Blob, Items, Text};
use http_exchange::{Got, exchange};
use rosa_box::*;
use std::alloc::Global;
use std::process::Abort;
use std::test::Fail;

const POST: &[u8] = b"POST /submission HTTP/1.1\r\n\
    Content-Type: multipart/form-data; boundary=b\r\n\
    Content-Length: 125\r\n\
    \r\n\
    --b\r\n\
    Content-Disposition: form-data; name=\"xml_submission_file\"\r\n\
    \r\n\
    <d><meta><instanceID>uuid:1</instanceID></meta></d>\r\n\
    --b--";

const TAKEN: &[u8] = b"HTTP/1.1 201 Created\r\n\
    X-OpenRosa-Version: 1.0\r\n\
    Content-Type: text/xml\r\n\
    Content-Length: 106\r\n\
    Connection: close\r\n\
    \r\n\
    <OpenRosaResponse xmlns=\"http://openrosa.org/http/response\"><message>accepted</message></OpenRosaResponse>";

const MISSING: &[u8] = b"HTTP/1.1 404 Not Found\r\n\
    X-OpenRosa-Version: 1.0\r\n\
    Content-Type: text/xml\r\n\
    Content-Length: 0\r\n\
    Connection: close\r\n\
    \r\n";

fn text_of(alloc: Global, text: &str) -> Result<Text, Fail> {
    Ok(Text::from_string(String::from_str(alloc, text)?))
}

fn server(alloc: Global) -> Result<BoxState, Fail> {
    Ok(BoxState {
        authority: text_of(alloc, "h")?,
        forms: Items::new(alloc),
        lists: Items::new(alloc),
        kept: Items::new(alloc),
    })
}

fn served(alloc: Global, state: &mut BoxState, request: &[u8]) -> Result<Blob, Fail> {
    Ok(serve(alloc, state, request).ok().ok_or("no memory")?)
}

#[test]
fn answers_are_these_bytes(rt: HostRuntime) -> Result<(), Fail> {
    let alloc = rt.alloc();
    let mut state = server(alloc)?;
    assert_eq!(rt; served(alloc, &mut state, POST)?.bytes(), TAKEN);
    assert_eq!(rt;
        served(alloc, &mut state, b"GET / HTTP/1.1\r\n\r\n")?.bytes(),
        MISSING
    );
    assert_eq!(rt; state.kept.len(), 1);
    Ok(())
}

fn dialer(alloc: Global, fails: &[u64]) -> Result<BoxDialer, Fail> {
    Ok(BoxDialer::make(alloc, server(alloc)?, Vec::from_slice(alloc, fails)?))
}

// The call at which sending the document fails.
fn fault(alloc: Global, dialer: &mut BoxDialer) -> Result<Option<Stage>, Fail> {
    match exchange(alloc, dialer, &text_of(alloc, "h")?, POST) {
        Got::Fault(stage) => Ok(Some(stage)),
        Got::Reply(_) | Got::NoMemory => Ok(None),
    }
}

fn kept(dialer: &BoxDialer) -> usize {
    dialer.state().kept.len()
}

fn starved(dialer: &BoxDialer) -> u64 {
    dialer.starved()
}

#[test]
fn a_take_that_fails_has_asked_the_server(rt: HostRuntime) -> Result<(), Fail> {
    let alloc = rt.alloc();
    let mut dialer = dialer(alloc, &[3])?;
    assert_eq!(rt; fault(alloc, &mut dialer)?, Some(Stage::Take));
    assert_eq!(rt; kept(&dialer), 1);
    assert_eq!(rt; starved(&dialer), 0);
    Ok(())
}

#[test]
fn submissions_stay_kept(_rt: HostRuntime) -> Result<(), Fail> {
    submissions_stay();
    Ok(())
}
