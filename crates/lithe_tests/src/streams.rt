//! Streams that fail, by themselves and under the top call.
use crate::serving::{RUN, Served, open, status_of};
use lithe_call::{Status, no_form_for_words, no_memory_for_words, printed_bytes_are_served};
use outside_io::{Fill, Put, Sink, Source, StdSink, StdSource, SureSink, SureSource};
use std::alloc::Global;
use std::io::{self, Error, ErrorKind, Read, Write};
use std::sync::Wait;
use std::test::Fail;
use std::thread::Threads;

const PROGRAM: &[u8] = b"array a[2]; a[1] = 7;";

// The room of each sink, in bytes.
const ROOM: usize = 4096;

// The text for words that are no form.
const USAGE: &[u8] =
    b"usage: lithe_run run --harts N\n       lithe_run solo\n       lithe_run audit --harts N\n       lithe_run make --seed X --size K --harts N\n       lithe_run tally --harts N\n       lithe_run pipe --harts N\n";

// Whether a sink took exactly this, all within its room.
fn took(sink: &SureSink, bytes: &[u8]) -> bool {
    match sink.bytes() {
        Some(taken) => taken == bytes,
        None => false,
    }
}

/// A stream that fails once it has given its bytes.
#[derive(Drop)]
struct Torn {
    bytes: &'static [u8],
    kind: ErrorKind,
}

impl Read for Torn {
    fn read(&mut self, buf: &mut [u8]) -> io::Result<usize> {
        if self.bytes.is_empty() {
            return Err(Error::from(self.kind));
        }
        self.bytes.read(buf)
    }
}

/// A stream that fails, or takes no more bytes, once its room is full.
#[derive(Drop)]
struct Narrow {
    taken: Vec<u8>,
    room: usize,
    fails: bool,
}

impl Write for Narrow {
    fn write(&mut self, buf: &[u8]) -> io::Result<usize> {
        let count = buf.len().min(self.room.saturating_sub(self.taken.len()));
        if count == 0 && self.fails {
            return Err(Error::from(ErrorKind::BrokenPipe));
        }
        self.taken.extend_from_slice(&buf[..count])?;
        Ok(count)
    }

    fn flush(&mut self) -> io::Result<()> {
        Ok(())
    }
}

// Whether a torn stream of three bytes gives two, then one, and fails twice.
fn is_read_until_it_fails(source: &mut StdSource<Torn>) -> bool {
    let mut buf = [0; 2];
    let two = source.read(&mut buf) == Fill::Got(2);
    let same = buf.as_slice() == b"xy".as_slice();
    let one = source.read(&mut buf) == Fill::Got(1);
    let fails = source.read(&mut buf) == Fill::Failed;
    let again = source.read(&mut buf) == Fill::Failed;
    two && same && one && fails && again
}

#[test]
fn a_stream_is_read_until_it_fails_and_may_fail_again(rt: HostRuntime) -> Result<(), Fail> {
    let mut source = StdSource::new(Torn {
        bytes: b"xyz",
        kind: ErrorKind::Other,
    });
    assert!(rt; is_read_until_it_fails(&mut source));
    Ok(())
}

// A stream with so much room.
fn stream_of(alloc: Global, room: usize, fails: bool) -> Narrow {
    Narrow {
        taken: Vec::new(alloc),
        room,
        fails,
    }
}

// Whether a stream with room for three bytes takes two, then one, and fails.
fn is_written_until_it_fails(stream: &mut Narrow) -> bool {
    let mut sink = StdSink::new(stream);
    let two = sink.write(b"ab") == Put::Took(2);
    let one = sink.write(b"cd") == Put::Took(1);
    let fails = sink.write(b"d") == Put::Failed;
    two && one && fails
}

#[test]
fn a_stream_is_written_until_it_fails(rt: HostRuntime) -> Result<(), Fail> {
    let mut stream = stream_of(rt.alloc(), 3, true);
    let written = is_written_until_it_fails(&mut stream);
    assert!(rt; written && stream.taken.as_slice() == b"abc".as_slice());
    Ok(())
}

#[test]
fn a_stream_that_takes_nothing_has_failed(rt: HostRuntime) -> Result<(), Fail> {
    let mut sink = StdSink::new(stream_of(rt.alloc(), 0, false));
    assert!(rt; sink.write(b"a") == Put::Failed);
    Ok(())
}

// A source that gives a program and then fails by an error of this kind.
fn broken_off(kind: ErrorKind) -> StdSource<Torn> {
    StdSource::new(Torn {
        bytes: PROGRAM,
        kind,
    })
}

// The results of serving such a source.
fn served<R: AllocGlobal + Threads + Wait + Sync>(rt: &R, kind: ErrorKind) -> Result<Served, Fail> {
    let mut source = broken_off(kind);
    let mut out = open(rt.alloc(), 16)?;
    let mut err = open(rt.alloc(), 16)?;
    let status = status_of(rt, RUN, &mut source, &mut out, &mut err)?;
    Ok(Served { status, out, err })
}

#[test]
fn an_input_that_breaks_off_is_a_read_fault(rt: HostRuntime) -> Result<(), Fail> {
    for kind in [ErrorKind::Other, ErrorKind::Interrupted] {
        let served = served(&rt, kind)?;
        assert!(rt; served.is(Status::ReadFault, b"", b"read fault\n"));
    }
    Ok(())
}

// Serves the program alone to a stream.
fn solo_into<R: AllocGlobal + Threads + Wait + Sync>(
    rt: &R,
    stream: &mut Narrow,
    err: &mut SureSink,
) -> Result<Status, Fail> {
    let mut source = StdSource::new(PROGRAM);
    let mut out = StdSink::new(stream);
    status_of(rt, &["solo"], &mut source, &mut out, err)
}

// Whether a stream that takes five bytes of the output leads to a write fault, which is reported.
fn is_write_fault<R: AllocGlobal + Threads + Wait + Sync>(
    rt: &R,
    stream: &mut Narrow,
) -> Result<bool, Fail> {
    let mut err = SureSink::new(rt.alloc(), ROOM)?;
    let status = solo_into(rt, stream, &mut err)?;
    let printed = took(&err, b"write fault\n");
    let same = stream.taken.as_slice() == b"a = 0".as_slice();
    Ok(status == Status::WriteFault && status.number() == 7 && printed && same)
}

// The same for a stream that fails, or takes no more bytes, once its room is full.
fn breaks_off<R: AllocGlobal + Threads + Wait + Sync>(rt: &R, fails: bool) -> Result<bool, Fail> {
    let mut stream = stream_of(rt.alloc(), 5, fails);
    is_write_fault(rt, &mut stream)
}

#[test]
fn an_output_that_breaks_off_is_a_write_fault(rt: HostRuntime) -> Result<(), Fail> {
    for fails in [true, false] {
        assert!(rt; breaks_off(&rt, fails)?);
    }
    Ok(())
}

// Serves a text that spells no program, and reports that to a stream.
fn print_fault<R: AllocGlobal + Threads + Wait + Sync>(
    rt: &R,
    stream: &mut Narrow,
) -> Result<Status, Fail> {
    let mut source = SureSource::new(rt.alloc(), b"array 4;")?;
    let mut out = SureSink::new(rt.alloc(), ROOM)?;
    let mut err = StdSink::new(stream);
    status_of(rt, RUN, &mut source, &mut out, &mut err)
}

#[test]
fn an_error_stream_that_breaks_off_changes_no_status(rt: HostRuntime) -> Result<(), Fail> {
    let mut stream = stream_of(rt.alloc(), 6, true);
    let status = print_fault(&rt, &mut stream)?;
    assert!(rt; status == Status::Syntax && stream.taken.as_slice() == b"syntax".as_slice());
    Ok(())
}

// Whether the allocation failure of the words is reported.
fn prints_no_memory(err: &mut SureSink) -> bool {
    let status = no_memory_for_words(err);
    let printed = took(err, b"no memory\n");
    status == Status::NoMemory && status.number() == 8 && printed
}

#[test]
fn words_without_memory_are_printed(rt: HostRuntime) -> Result<(), Fail> {
    printed_bytes_are_served();
    let mut err = SureSink::new(rt.alloc(), ROOM)?;
    assert!(rt; prints_no_memory(&mut err));
    Ok(())
}

// Whether the usage is reported for words that are no text.
fn prints_no_form(err: &mut SureSink) -> bool {
    let status = no_form_for_words(err);
    let printed = took(err, USAGE);
    status == Status::Usage && status.number() == 2 && printed
}

#[test]
fn words_that_are_no_text_are_printed(rt: HostRuntime) -> Result<(), Fail> {
    let mut err = SureSink::new(rt.alloc(), ROOM)?;
    assert!(rt; prints_no_form(&mut err));
    Ok(())
}
