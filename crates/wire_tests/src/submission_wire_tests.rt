use field_text::{Blob, NoMemory, Text};
use http_request::{Request, read_request};
use http_wire::Address;
use std::alloc::Global;
use std::process::Abort;
use std::test::Fail;
use submission_wire::{accepted, post_text, read_submission};

const POST: &str = "POST /submission HTTP/1.1\r\n\
    Host: localhost:8080\r\n\
    X-OpenRosa-Version: 1.0\r\n\
    Date: Thu, 01 Jan 1970 00:00:00 GMT\r\n\
    Accept-Encoding: identity\r\n\
    Content-Type: multipart/form-data; boundary=odk-part\r\n\
    Content-Length: 145\r\n\
    Connection: close\r\n\
    \r\n\
    --odk-part\r\n\
    Content-Disposition: form-data; name=\"xml_submission_file\"; filename=\"submission.xml\"\r\n\
    Content-Type: text/xml\r\n\
    \r\n\
    <d/>\r\n\
    --odk-part--\r\n";

// Documents without a CR.
static DOCUMENTS: [&str; 3] = ["<d/>", "", "<d>&#13;\n--odk-part--\n--odk-part</d>"];

// A content type, a head and what is behind it, and the document of the body that is opened by the boundary `b`.
static BODIES: [(&str, &str, &str, &str); 14] = [
    (
        "multipart/form-data; boundary=b",
        "name=\"xml_submission_file\"",
        "x\r\n--b--\r\n",
        "x",
    ),
    (
        "multipart/form-data; boundary=b",
        "name=\"xml_submission_file\"",
        "\r\n--b--",
        "",
    ),
    (
        "multipart/form-data; boundary=b",
        "name=\"xml_submission_file\"",
        "--b--\n--b\r\n--b--",
        "--b--\n--b",
    ),
    (
        "Multipart/Form-Data ;a=\"\\\"; boundary=c\" ; BOUNDARY=\"b\"",
        "NAME=\"xml_submission_file\"",
        "x\r\n--b--",
        "x",
    ),
    (
        "multipart/form-data; boundary=b; boundary=c",
        "a=\";name=b\"; name=\"xml_submission_file\"",
        "x\r\n--b--",
        "x",
    ),
    (
        "multipart/form-data; boundary=c; boundary=b",
        "name=\"xml_submission_file\"",
        "x\r\n--b--",
        "-",
    ),
    (
        "multipart/mixed; boundary=b",
        "name=\"xml_submission_file\"",
        "x\r\n--b--",
        "-",
    ),
    (
        "multipart/form-data",
        "name=\"xml_submission_file\"",
        "x\r\n--b--",
        "-",
    ),
    (
        "multipart/form-data; boundary=b",
        "name=xml_submission_file",
        "x\r\n--b--",
        "-",
    ),
    (
        "multipart/form-data; boundary=b",
        "name=\"other\"",
        "x\r\n--b--",
        "-",
    ),
    (
        "multipart/form-data; boundary=b",
        "name=\"xml_submission_file\"",
        "x\r\n--b--\r\n\r\n",
        "-",
    ),
    (
        "multipart/form-data; boundary=b",
        "name=\"xml_submission_file\"",
        "x\r\n--b\r\ny\r\n--b--",
        "-",
    ),
    (
        "multipart/form-data; boundary=b",
        "name=\"xml_submission_file\"",
        "x\r\n--bb\r\n--b--",
        "-",
    ),
    (
        "multipart/form-data; boundary=b",
        "name=\"xml_submission_file\"",
        "x\n--b--",
        "-",
    ),
];

static REPLIES: [(&str, bool); 6] = [
    (
        "HTTP/1.1 201 Created\r\nContent-Encoding: gzip\r\n\r\n",
        true,
    ),
    ("HTTP/1.1 202 Accepted\r\nContent-Length: 9\r\n\r\n", true),
    ("HTTP/1.1 200 OK\r\n\r\n", false),
    ("HTTP/1.1 203 Other\r\n\r\n", false),
    ("HTTP/1.1 201 Created\r\n", false),
    (
        "HTTP/1.1 100 Continue\r\n\r\nHTTP/1.1 201 Created\r\n\r\n",
        true,
    ),
];

fn text_of(alloc: Global, text: &str) -> Result<Text, Fail> {
    Ok(Text::from_string(String::from_str(alloc, text)?))
}

fn blob_of(alloc: Global, text: &str) -> Result<Blob, Fail> {
    Ok(
        Blob::from_bytes(alloc, text.as_bytes())
            .ok()
            .ok_or("no memory")?,
    )
}

fn post_of(alloc: Global, document: &str) -> Result<Blob, Fail> {
    let base = Address {
        authority: text_of(alloc, "localhost:8080")?,
        target: text_of(alloc, "")?,
    };
    let document = blob_of(alloc, document)?;
    Ok(
        post_text(alloc, &base, 0, &document)
            .ok()
            .ok_or("no memory")?,
    )
}

fn shown_submission(alloc: Global, request: &Request) -> Result<String, Fail> {
    match read_submission(alloc, request) {
        Ok(Some(document)) => {
            let text = std::str::from_utf8(document.bytes()).ok().ok_or("no text")?;
            Ok(String::from_str(alloc, text)?)
        }
        Ok(None) => Ok(String::from_str(alloc, "-")?),
        Err(NoMemory) => Ok(String::from_str(alloc, "no memory")?),
    }
}

fn shown_return(alloc: Global, post: &Blob) -> Result<String, Fail> {
    match read_request(alloc, post.bytes()) {
        Ok(Some(request)) => shown_submission(alloc, &request),
        Ok(None) => Ok(String::from_str(alloc, "no request")?),
        Err(NoMemory) => Ok(String::from_str(alloc, "no memory")?),
    }
}

#[test]
fn a_post_is_these_bytes(rt: HostRuntime) -> Result<(), Fail> {
    assert_eq!(rt; post_of(rt.alloc(), "<d/>")?.bytes(), POST.as_bytes());
    Ok(())
}

#[test]
fn documents_come_back(rt: HostRuntime) -> Result<(), Fail> {
    let alloc = rt.alloc();
    for document in &DOCUMENTS {
        assert_eq!(rt;
            shown_return(alloc, &post_of(alloc, document)?)?.as_str(),
            *document
        );
    }
    Ok(())
}

fn request_of(
    alloc: Global,
    content_type: &str,
    named: &str,
    content: &str,
) -> Result<Request, Fail> {
    let mut body = String::from_str(alloc, "--b\r\nContent-Disposition: form-data; ")?;
    for part in [named, "\r\n\r\n", content] {
        body.push_str(part)?;
    }
    Ok(Request {
        method: text_of(alloc, "POST")?,
        target: text_of(alloc, "/submission")?,
        content_type: text_of(alloc, content_type)?,
        body: blob_of(alloc, body.as_str())?,
    })
}

#[test]
fn submissions_are_read(rt: HostRuntime) -> Result<(), Fail> {
    let alloc = rt.alloc();
    for (content_type, named, content, document) in &BODIES {
        let request = request_of(alloc, content_type, named, content)?;
        assert_eq!(rt; shown_submission(alloc, &request)?.as_str(), *document);
    }
    Ok(())
}

#[test]
fn replies_201_and_202_accept(rt: HostRuntime) -> Result<(), Fail> {
    for (text, is_accepted) in &REPLIES {
        assert_eq!(rt; accepted(text.as_bytes()), *is_accepted);
    }
    Ok(())
}
