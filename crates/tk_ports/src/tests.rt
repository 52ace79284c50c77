//! The streams and the whole texts at work, with ample memory.

use crate::whole::{ReadError, read_within, write_whole};
use crate::{Failed, MemSink, MemSource, Sink, Source, StdSink, StdSource};
use std::test::Fail;

/// The second read of three fails and takes nothing.
#[test]
fn source_fails_on_its_list(rt: HostRuntime) -> Result<(), Fail> {
    let mut source = MemSource::new(rt.alloc(), b"abcde", &[2])?;
    let mut places = [0u8; 3];
    assert_eq!(rt; source.read(&mut places), Ok(3));
    assert_eq!(rt; places, *b"abc");
    assert_eq!(rt; source.read(&mut places), Err(Failed));
    assert_eq!(rt; source.faults(), 1);
    assert_eq!(rt; source.read(&mut places), Ok(2));
    assert_eq!(rt; places, *b"dec");
    assert_eq!(rt; source.read(&mut places), Ok(0));
    assert_eq!(rt; source.faults(), 1);
    Ok(())
}

/// A failed write appends nothing, and the next one goes on behind what there was.
#[test]
fn write_fails_on_the_second_call(rt: HostRuntime) -> Result<(), Fail> {
    let mut sink = MemSink::new(rt.alloc(), 100, &[2])?;
    assert_eq!(rt; write_whole(&mut sink, b"one "), Ok(()));
    assert_eq!(rt; write_whole(&mut sink, b"two "), Err(Failed));
    assert_eq!(rt; sink.faults(), 1);
    assert_eq!(rt; write_whole(&mut sink, b"three"), Ok(()));
    assert_eq!(rt; sink.bytes(), b"one three".as_slice());
    assert_eq!(rt; sink.faults(), 1);
    Ok(())
}

/// A sink that is too small takes the front that fits, and then fails.
#[test]
fn write_fills_a_sink_of_little_room(rt: HostRuntime) -> Result<(), Fail> {
    let mut sink = MemSink::new(rt.alloc(), 3, &[])?;
    assert_eq!(rt; write_whole(&mut sink, b"hello"), Err(Failed));
    assert_eq!(rt; sink.bytes(), b"hel".as_slice());
    assert_eq!(rt; sink.faults(), 1);
    assert_eq!(rt; write_whole(&mut sink, b""), Ok(()));
    assert_eq!(rt; sink.faults(), 1);
    Ok(())
}

/// An input past its limit is read to one byte more, over several turns, and no further.
#[test]
fn reading_ends_one_byte_past_the_limit(rt: HostRuntime) -> Result<(), Fail> {
    let input = vec![in rt.alloc(); 7u8; 30_000]?;
    let mut source = MemSource::new(rt.alloc(), &input, &[])?;
    let bytes = read_within(rt.alloc(), &mut source, 20_000)?;
    assert_eq!(rt; bytes.len(), 20_001);
    let rest = read_within(rt.alloc(), &mut source, 20_000)?;
    assert_eq!(rt; rest.len(), 9_999);
    assert_eq!(rt; source.faults(), 0);
    Ok(())
}

/// An input of just its limit is read whole, unless the turn that finds its end fails.
#[test]
fn reading_finds_the_end(rt: HostRuntime) -> Result<(), Fail> {
    let mut source = MemSource::new(rt.alloc(), b"utk 1", &[3])?;
    let bytes = read_within(rt.alloc(), &mut source, 5)?;
    assert_eq!(rt; bytes.as_slice(), b"utk 1".as_slice());
    let again = read_within(rt.alloc(), &mut source, 5);
    assert_eq!(rt; again.err(), Some(ReadError::Failed));
    assert_eq!(rt; source.faults(), 1);
    Ok(())
}

/// Whatever the standard input is in a test, a fault counts and nothing else does.
#[test]
fn standard_source_counts_its_faults(rt: HostRuntime) {
    let mut source = StdSource::new(&rt);
    let mut places = [0u8; 4];
    let faults = match source.read(&mut places) {
        Ok(_) => 0,
        Err(Failed) => 1,
    };
    assert_eq!(rt; source.faults(), faults);
}

/// A line goes to the standard output.
#[test]
fn standard_sink_takes_a_line(rt: HostRuntime) {
    let mut sink = StdSink::new(&rt);
    assert_eq!(rt;
        write_whole(&mut sink, b"a line of the standard sink\n"),
        Ok(())
    );
    assert_eq!(rt; sink.faults(), 0);
}
