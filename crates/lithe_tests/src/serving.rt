//! Calls of `lithe` and of `serve_picture` with a source and sinks in memory.
ghost use Rattle.std.specs.Prelude.{◌≤◌};

use lithe_call::{Status, lithe};
use outside_io::{MemSink, MemSource, OpenGate, Sink, Source};
use picture_call::serve_picture;
use std::alloc::{AllocError, Global};
use std::process::Abort;
use std::sync::Wait;
use std::test::Fail;
use std::thread::Threads;

pub const RUN: &[&str] = &["run", "--harts=1"];

pub const AUDIT: &[&str] = &["audit", "--harts=2"];

/// Two branches that write two cells of one array.
pub const BRANCHES: &[u8] = b"array a[4]; par { { a[0] = 1; } { a[1] = 2; } }";

/// Serves the words, and returns the status.
pub fn status_of<R: AllocGlobal + Threads + Wait + Sync, A: Source, B: Sink, E: Sink>(
    rt: &R,
    words: &[&str],
    source: &mut A,
    out: &mut B,
    err: &mut E,
) -> Result<Status, Fail> {
    let alloc = rt.alloc();
    let mut own = Vec::new(alloc);
    for word in words {
        own.push(String::from_str(alloc, word)?)?;
    }
    Ok(lithe(rt, alloc, &own, source, out, err, &OpenGate))
}

/// Draws by the words, and returns the status.
pub fn drawn(
    alloc: Global,
    words: &[&str],
    source: &mut MemSource,
    out: &mut MemSink,
    err: &mut MemSink,
) -> Result<Status, AllocError> {
    let mut own = Vec::new(alloc);
    for word in words {
        own.push(String::from_str(alloc, word)?)?;
    }
    Ok(serve_picture(alloc, &own, source, out, err))
}

/// The results of a call.
#[derive(Drop)]
pub struct Served {
    pub status: Status,
    pub out: MemSink,
    pub err: MemSink,
}

impl Served {
    /// Whether the status is this, and the sinks took these bytes.
    pub fn is(&self, status: Status, out: &[u8], err: &[u8]) -> bool {
        self.status == status && self.out.bytes() == out && self.err.bytes() == err
    }
}

/// A sink that takes all bytes, at most so many a call.
pub fn open(alloc: Global, most: usize) -> Result<MemSink, AllocError>
    requires { 1 ≤ most }
{
    MemSink::new(alloc, 4096, most, &[])
}

/// Serves the words with a source.
pub fn serve_into<R: AllocGlobal + Threads + Wait + Sync>(
    rt: &R,
    words: &[&str],
    mut source: MemSource,
    mut out: MemSink,
    mut err: MemSink,
) -> Result<Served, Fail> {
    let status = status_of(rt, words, &mut source, &mut out, &mut err)?;
    Ok(Served { status, out, err })
}

/// Serves the words with the input. Each call reads and writes at most so many bytes.
pub fn serve_by<R: AllocGlobal + Threads + Wait + Sync>(
    rt: &R,
    words: &[&str],
    input: &[u8],
    reads: usize,
    writes: usize,
) -> Result<Served, Fail>
    requires reads { 1 ≤ reads }
    requires writes { 1 ≤ writes }
{
    let source = MemSource::new(rt.alloc(), input, reads, &[])?;
    let out = open(rt.alloc(), writes)?;
    serve_into(rt, words, source, out, open(rt.alloc(), writes)?)
}

/// Serves the words with the input, and compares the status and the bytes that the sinks took.
pub fn serve<R: AllocGlobal + Abort + Threads + Wait + Sync>(
    rt: &R,
    words: &[&str],
    input: &[u8],
    status: Status,
    out: &[u8],
    err: &[u8],
) -> Result<(), Fail> {
    let served = serve_by(rt, words, input, 4096, 16)?;
    assert!(rt; served.is(status, out, err));
    Ok(())
}
