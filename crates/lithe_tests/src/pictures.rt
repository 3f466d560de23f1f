//! Pictures of outputs that runs wrote, and words that are no text or have no memory.
use crate::examples::input;
use crate::serving::{BRANCHES, Served, drawn, open, serve_by};
use lithe_call::Status;
use outside_io::{MemSink, MemSource};
use picture_call::{no_memory_for_picture, no_picture_for_words};
use std::alloc::{AllocError, Global};
use std::sync::Wait;
use std::test::Fail;
use std::thread::Threads;

const USAGE: &[u8] = b"usage: lithe_picture text --harts N [--of run|tally|pipe]
       lithe_picture svg --harts N [--of run|tally|pipe]
";

// Draws the input on so many harts.
fn draw(alloc: Global, harts: &str, input: &[u8]) -> Result<Served, AllocError> {
    let mut source = MemSource::new(alloc, input, 4096, &[])?;
    let mut out = open(alloc, 4096)?;
    let mut err = open(alloc, 4096)?;
    let status = drawn(alloc, &["text", harts], &mut source, &mut out, &mut err)?;
    Ok(Served { status, out, err })
}

// Whether the output of a run on so many harts is drawn and legal.
fn is_drawn<R: AllocGlobal + Threads + Wait + Sync>(rt: &R, harts: &str) -> Result<bool, Fail> {
    let run = serve_by(rt, &["run", harts], BRANCHES, 4096, 4096)?;
    let mut program = BRANCHES.to_vec(rt.alloc())?;
    program.push(b'\n')?;
    let input = input(rt.alloc(), &program, run.out.bytes())?;
    let served = draw(rt.alloc(), harts, &input)?;
    Ok(served.status == Status::Done && served.err.bytes().is_empty())
}

#[test]
fn runs_are_drawn(rt: HostRuntime) -> Result<(), Fail> {
    for harts in ["--harts=1", "--harts=2", "--harts=5", "--harts=16"] {
        assert!(rt; is_drawn(&rt, harts)?, "on {harts}");
    }
    Ok(())
}

// Whether an allocation failure for the words is reported.
fn reports_no_memory(err: &mut MemSink) -> bool {
    let status = no_memory_for_picture(err);
    status.number() == 8 && err.bytes() == b"no memory\n".as_slice()
}

#[test]
fn words_without_memory_are_reported(rt: HostRuntime) -> Result<(), Fail> {
    let mut err = open(rt.alloc(), 8)?;
    assert!(rt; reports_no_memory(&mut err));
    Ok(())
}

// Whether the usage is reported for words that are no text.
fn reports_usage(err: &mut MemSink) -> bool {
    let status = no_picture_for_words(err);
    status.number() == 2 && err.bytes() == USAGE
}

#[test]
fn words_that_are_no_text_are_reported(rt: HostRuntime) -> Result<(), Fail> {
    let mut err = open(rt.alloc(), 8)?;
    assert!(rt; reports_usage(&mut err));
    Ok(())
}
