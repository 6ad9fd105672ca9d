use field_io::*;
use field_text::Text;
use std::io::{Read, Write};
use std::net::TcpListener;
use std::process::Abort;
use std::test::Fail;
use std::time::Duration;

// Takes in pieces of three bytes until the end or a fault.
fn taken<S: Source>(rt: &impl Abort, source: &mut S, out: &mut Vec<u8>) -> Result<(), Fail> {
    for _ in 0..10 {
        let mut piece = [0u8; 3];
        match source.take(&mut piece) {
            Ok(0) => return Ok(()),
            Ok(count) => {
                assert!(rt; count <= 3);
                out.extend_from_slice(&piece[..count])?;
            }
            Err(Failed) => out.push(b'!')?,
        }
    }
    Ok(())
}

#[test]
fn sources_give_their_bytes(rt: HostRuntime) -> Result<(), Fail> {
    let alloc = rt.alloc();
    let mut out = Vec::new(alloc);
    let fails = Vec::from_slice(alloc, &[2, 4])?;
    let mut source = MemSource::make(Vec::from_slice(alloc, b"seven b")?, fails);
    taken(&rt, &mut source, &mut out)?;
    assert_eq!(rt; out.as_slice(), b"sev!en !b".as_slice());
    out.clear();
    taken(&rt, &mut StdSource::new(b"seven b".as_slice()), &mut out)?;
    assert_eq!(rt; out.as_slice(), b"seven b".as_slice());
    Ok(())
}

#[test]
fn sinks_keep_what_goes_out(rt: HostRuntime) -> Result<(), Fail> {
    let alloc = rt.alloc();
    let fails = Vec::from_slice(alloc, &[2])?;
    let mut sink = MemSink::make(Vec::from_slice(alloc, b"a")?, fails);
    assert_eq!(rt; sink.put(b"bc"), Ok(2));
    assert_eq!(rt; sink.put(b"bc"), Err(Failed));
    assert_eq!(rt; sink.put(b"d"), Ok(1));
    assert_eq!(rt; sink.bytes(), b"abcd".as_slice());
    let mut std_sink = StdSink::new(Vec::new(alloc));
    assert_eq!(rt; std_sink.put(b"bc"), Ok(2));
    Ok(())
}

#[test]
fn clocks_answer_moments(rt: HostRuntime) -> Result<(), Fail> {
    assert_eq!(rt; FixedClock::make(7).now(), 7);
    assert!(rt; SystemClock::new(rt.clone()?).now() > 1_700_000_000);
    Ok(())
}

#[test]
fn dialers_answer_with_their_replies(rt: HostRuntime) -> Result<(), Fail> {
    let alloc = rt.alloc();
    let authority = Text::from_string(String::from_str(alloc, "localhost:8080")?);
    let mut replies = Vec::new(alloc);
    replies.push(Vec::from_slice(alloc, b"hello")?)?;
    let mut dialer = MemDialer::make(alloc, replies, Vec::from_slice(alloc, &[2])?);
    assert_eq!(rt; dialer.dial(&authority), Ok(()));
    assert_eq!(rt; dialer.send(b"hi"), Err(Failed));
    assert_eq!(rt; dialer.send(b"hi"), Ok(2));
    let mut piece = [0u8; 4];
    assert_eq!(rt; dialer.take(&mut piece), Ok(4));
    assert_eq!(rt; piece.as_slice(), b"hell".as_slice());
    assert_eq!(rt; dialer.take(&mut piece), Ok(1));
    assert_eq!(rt; dialer.take(&mut piece), Ok(0));
    dialer.hang_up();
    assert_eq!(rt; dialer.dial(&authority), Err(Failed));
    Ok(())
}

#[test]
fn calm_objects_never_fail(rt: HostRuntime) -> Result<(), Fail> {
    let alloc = rt.alloc();
    let authority = Text::from_string(String::from_str(alloc, "localhost")?);
    let mut piece = [0u8; 4];
    let mut source = CalmSource::make(Vec::from_slice(alloc, b"seven")?);
    assert_eq!(rt; source.take(&mut piece), Ok(4));
    assert_eq!(rt; piece.as_slice(), b"seve".as_slice());
    assert_eq!(rt; CalmSink::make().put(b"ab"), Ok(2));
    let mut dialer = CalmDialer::make(Vec::new(alloc));
    assert_eq!(rt; dialer.dial(&authority), Ok(()));
    assert_eq!(rt; dialer.send(b"hi"), Ok(2));
    assert_eq!(rt; dialer.take(&mut piece), Ok(0));
    dialer.hang_up();
    Ok(())
}

// A peer on a port of this machine that answers, then keeps silent, then closes.
#[test]
fn tcp_dialers_reach_a_listener(rt: HostRuntime) -> Result<(), Fail> {
    let alloc = rt.alloc();
    let listener = TcpListener::bind(&rt, "127.0.0.1:0")?;
    let port = listener.local_addr()?.port();
    let authority = Text::from_string(format!(in alloc; "127.0.0.1:{port}")?);
    let mut dialer = TcpDialer::new(rt.clone()?, Duration::from_millis(200));
    assert_eq!(rt; dialer.dial(&authority), Ok(()));
    assert_eq!(rt; dialer.send(b"ping"), Ok(4));
    let (mut peer, _) = listener.accept()?;
    let mut piece = [0u8; 4];
    assert_eq!(rt; peer.read(&mut piece)?, 4);
    assert_eq!(rt; peer.write(b"pong")?, 4);
    assert_eq!(rt; dialer.take(&mut piece), Ok(4));
    assert_eq!(rt; piece.as_slice(), b"pong".as_slice());
    assert_eq!(rt; dialer.take(&mut piece), Err(Failed));
    drop(peer);
    assert_eq!(rt; dialer.take(&mut piece), Ok(0));
    dialer.hang_up();
    drop(listener);
    assert_eq!(rt; dialer.dial(&authority), Err(Failed));
    Ok(())
}
