use http_reply::fields::FieldList;
use http_reply::{
    Class, Framing, ReplyView, body_of, is_framed, read_length, read_reply, stated_framing,
};
use std::test::Fail;

static REPLIES: [(&str, Class, u16, bool); 5] = [
    ("", Class::Short, 0, false),
    ("HTTP/1.1 201 Created\r\n\r\n", Class::Whole, 201, false),
    (
        "HTTP/1.1 100 Continue\r\n\r\nHTTP/1.1 202 Accepted\r\nContent-Length: 0\r\n\r\n",
        Class::Whole,
        202,
        true,
    ),
    (
        "HTTP/1.1 200 OK\r\nContent-Encoding: gzip\r\n\r\n",
        Class::Bad,
        200,
        true,
    ),
    (
        "HTTP/1.1 200 OK\r\nTransfer-Encoding: chunked\r\n\r\n3\r\nabc\r\n0\r\n",
        Class::Short,
        200,
        false,
    ),
];

#[test]
fn replies_have_one_class_and_status(rt: HostRuntime) -> Result<(), Fail> {
    for (text, class, status, framed) in &REPLIES {
        let view = ReplyView {
            class: *class,
            status: *status,
        };
        assert_eq!(rt; read_reply(text.as_bytes()), view);
        assert_eq!(rt; is_framed(text.as_bytes()), *framed);
    }
    let chunked = b"HTTP/1.1 200 OK\r\nTransfer-Encoding: chunked\r\n\r\n3\r\nabc\r\n0\r\n\r\n";
    let Ok(Some(body)) = body_of(rt.alloc(), chunked) else {
        return Ok(assert!(rt; false));
    };
    assert_eq!(rt; body.bytes(), b"abc".as_slice());
    assert_eq!(rt; read_length(b"12"), Some(12));
    let fields = FieldList::new(b"", &[]);
    assert_eq!(rt; stated_framing(&fields), Framing::ToEnd);
    assert_eq!(rt; fields.len(), 0);
    Ok(())
}
