use field_io::{MemSink, MemSource};
use line_io::*;
use std::test::Fail;

#[test]
fn a_line_is_read_and_put(rt: HostRuntime) -> Result<(), Fail> {
    let alloc = rt.alloc();
    let bytes = Vec::from_slice(alloc, b"oak\nelm")?;
    let mut source = MemSource::make(bytes, Vec::new(alloc));
    let mut sink = MemSink::make(Vec::new(alloc), Vec::new(alloc));
    let mut reader = LineReader::new(alloc);
    let Some(line) = reader.next_line(alloc, &mut source)? else {
        return Ok(());
    };
    assert_eq!(rt; put_all(&mut sink, &line), Ok(()));
    assert_eq!(rt; sink.bytes(), b"oak".as_slice());
    Ok(())
}
