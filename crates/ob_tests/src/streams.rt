//! Sources and sinks.
use ob_base::Failed;
use ob_io::{MemSink, MemSource, Sink, Source, StdSink, StdSource};
use std::test::Fail;

#[test]
fn reads_in_parts(rt: HostRuntime) -> Result<(), Fail> {
    let a = rt.alloc();
    let mut source = MemSource::new(vec![in a; 1, 2, 3]?, vec![in a; 2]?);
    let mut buf = [0; 2];
    assert_eq!(rt; source.read(&mut buf), Ok(2));
    assert_eq!(rt; buf, [1, 2]);
    assert_eq!(rt; source.read(&mut buf), Err(Failed));
    assert_eq!(rt; source.read(&mut buf), Ok(1));
    assert_eq!(rt; buf[0], 3);
    assert_eq!(rt; source.read(&mut buf), Ok(0));
    Ok(())
}

#[test]
fn fills_its_room(rt: HostRuntime) -> Result<(), Fail> {
    let a = rt.alloc();
    let mut sink = MemSink::new(a, 3, vec![in a; 2]?)?;
    assert_eq!(rt; sink.write(b"ab"), Ok(2));
    assert_eq!(rt; sink.write(b"cd"), Err(Failed));
    assert_eq!(rt; sink.write(b"cd"), Ok(1));
    assert_eq!(rt; sink.write(b"d"), Err(Failed));
    assert_eq!(rt; sink.write(b""), Ok(0));
    assert_eq!(rt; sink.bytes(), b"abc".as_slice());
    Ok(())
}

#[test]
fn adapts_std(rt: HostRuntime) -> Result<(), Fail> {
    let mut source = StdSource::new(b"abc".as_slice());
    let mut buf = [0; 4];
    assert_eq!(rt; source.read(&mut buf), Ok(3));
    assert_eq!(rt; source.read(&mut buf), Ok(0));
    let mut room = [0; 2];
    let mut sink = StdSink::new(room.as_mut_slice());
    assert_eq!(rt; sink.write(b"abc"), Ok(2));
    assert_eq!(rt; sink.write(b"c"), Err(Failed));
    Ok(())
}
