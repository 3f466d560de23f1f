//! The sources and sinks by their results.
ghost use Rattle.std.specs.Prelude.{◌<◌, length};

use outside_io::{
    Fill, Gate, MemSink, MemSource, OpenGate, Put, Sink, Source, StdSink, StdSource, SureSink,
    SureSource,
};
use std::test::Fail;

// Reads into the buffer, and returns whether the result is this.
fn reads<S: Source>(source: &mut S, buf: &mut [u8], fill: Fill) -> bool
    requires { 0 < length buf.old }
{
    source.read(buf) == fill
}

#[test]
fn a_source_in_memory_gives_what_fits(rt: HostRuntime) -> Result<(), Fail> {
    let mut source = SureSource::new(rt.alloc(), b"abcde")?;
    let mut buf = [0; 3];
    assert!(rt; reads(&mut source, &mut buf, Fill::Got(3)) && buf == *b"abc");
    assert!(rt; reads(&mut source, &mut buf, Fill::Got(2)) && buf == *b"dec");
    assert!(rt; reads(&mut source, &mut buf, Fill::End) && buf == *b"dec");
    Ok(())
}

#[test]
fn a_sink_in_memory_tells_until_its_room_is_passed(rt: HostRuntime) -> Result<(), Fail> {
    let mut sink = SureSink::new(rt.alloc(), 4)?;
    assert!(rt; sink.write(b"abc") == Put::Took(3));
    assert!(rt; sink.bytes() == Some(b"abc".as_slice()));
    assert!(rt; sink.write(b"de") == Put::Took(2));
    assert!(rt; sink.bytes().is_none());
    Ok(())
}

#[test]
fn streams_are_read_and_written(rt: HostRuntime) -> Result<(), Fail> {
    let mut source = StdSource::new(b"xy".as_slice());
    let mut buf = [0; 3];
    assert!(rt; reads(&mut source, &mut buf[..2], Fill::Got(2)) && buf == *b"xy\0");
    assert!(rt; reads(&mut source, &mut buf[..2], Fill::End) && buf == *b"xy\0");
    let mut sink = StdSink::new(Vec::new(rt.alloc()));
    assert!(rt; sink.write(b"z") == Put::Took(1));
    OpenGate.passed(&rt, 0, 1, 0, 0);
    Ok(())
}

#[test]
fn a_source_in_memory_fails_at_its_calls(rt: HostRuntime) -> Result<(), Fail> {
    let mut source = MemSource::new(rt.alloc(), b"abcde", 2, &[2, 5])?;
    let mut buf = [0; 3];
    assert!(rt; reads(&mut source, &mut buf, Fill::Got(2)) && buf == *b"ab\0");
    assert!(rt; reads(&mut source, &mut buf, Fill::Failed) && buf == *b"ab\0");
    assert!(rt; reads(&mut source, &mut buf, Fill::Got(2)) && buf == *b"cd\0");
    assert!(rt; reads(&mut source, &mut buf[..1], Fill::Got(1)) && buf == *b"ed\0");
    assert!(rt; reads(&mut source, &mut buf, Fill::Failed) && buf == *b"ed\0");
    assert!(rt; reads(&mut source, &mut buf, Fill::End) && buf == *b"ed\0");
    Ok(())
}

#[test]
fn a_sink_in_memory_fails_at_its_calls_and_where_it_is_full(rt: HostRuntime) -> Result<(), Fail> {
    let mut sink = MemSink::new(rt.alloc(), 6, 4, &[2])?;
    assert!(rt; sink.write(b"abcde") == Put::Took(4));
    assert!(rt; sink.write(b"e") == Put::Failed);
    assert!(rt; sink.bytes() == b"abcd".as_slice());
    assert!(rt; sink.write(b"e") == Put::Took(1));
    assert!(rt; sink.write(b"fg") == Put::Took(1));
    assert!(rt; sink.write(b"g") == Put::Failed);
    assert!(rt; sink.bytes() == b"abcdef".as_slice());
    Ok(())
}
