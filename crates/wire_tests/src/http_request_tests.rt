use field_text::NoMemory;
use http_request::{Request, read_request};
use std::alloc::Global;
use std::process::Abort;
use std::test::Fail;

// Bytes, and the method, target, content type and body that they have as a request.
static REQUESTS: [(&[u8], &str); 9] = [
    (
        b"GET /formList HTTP/1.1\r\nHost: h\r\n\r\n",
        "GET /formList  ",
    ),
    (
        b"POST /a HTTP/1.0\ncontent-type: \ta ;b \ncontent-length: 2\n\nxy",
        "POST /a a ;b xy",
    ),
    (
        b"PUT * HTTP/1.1\r\nContent-Type: a\r\nContent-Type: b\r\nTransfer-Encoding: x\r\n\r\n",
        "PUT * a ",
    ),
    (b"GET / HTTP/1.1\r\n\r\nx", "-"),
    (b"GET / HTTP/1.1\r\nContent-Length: 1\r\n\r\n", "-"),
    (
        b"GET / HTTP/1.1\r\nContent-Length: 1\r\nContent-Length: 2\r\n\r\nx",
        "-",
    ),
    (b"GET / HTTP/1.1\r\nContent-Length: 01\r\n\r\nx", "-"),
    (b"GET / HTTP/1.1\r\nContent-Type: \xff\r\n\r\n", "-"),
    (b"GET / HTTP/1.1\r\n", "-"),
];

fn shown(alloc: Global, request: &Request) -> Result<String, Fail> {
    let mut text = String::from_str(alloc, request.method.as_str())?;
    for part in [request.target.as_str(), request.content_type.as_str()] {
        text.push_str(" ")?;
        text.push_str(part)?;
    }
    text.push_str(" ")?;
    text.push_str(
        std::str::from_utf8(request.body.bytes())
            .ok()
            .ok_or("no text")?,
    )?;
    Ok(text)
}

fn shown_read(alloc: Global, bytes: &[u8]) -> Result<String, Fail> {
    match read_request(alloc, bytes) {
        Ok(Some(request)) => shown(alloc, &request),
        Ok(None) => Ok(String::from_str(alloc, "-")?),
        Err(NoMemory) => Ok(String::from_str(alloc, "no memory")?),
    }
}

#[test]
fn requests_are_read(rt: HostRuntime) -> Result<(), Fail> {
    for (bytes, request) in &REQUESTS {
        assert_eq!(rt; shown_read(rt.alloc(), bytes)?.as_str(), *request);
    }
    Ok(())
}
