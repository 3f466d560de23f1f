//! Each status, with its number.
use crate::serving::{AUDIT, BRANCHES, RUN, open, serve_by, serve_into};
use lithe_call::{Status, no_memory_for_words};
use outside_io::{MemSink, MemSource};
use std::process::Abort;
use std::sync::Wait;
use std::test::Fail;
use std::thread::Threads;

// A call: its words and its input, the calls at which source and output fail, and the status with its number.
struct Call {
    words: &'static [&'static str],
    input: &'static [u8],
    reads: &'static [u32],
    writes: &'static [u32],
    status: Status,
    number: u8,
}

// Makes the call, and compares its status.
fn ends<R: AllocGlobal + Abort + Threads + Wait + Sync>(rt: &R, call: &Call) -> Result<(), Fail> {
    let status = status_after(rt, call)?;
    assert!(rt; status == call.status && status.number() == call.number);
    Ok(())
}

// The status of the call.
fn status_after<R: AllocGlobal + Threads + Wait + Sync>(
    rt: &R,
    call: &Call,
) -> Result<Status, Fail> {
    let source = MemSource::new(rt.alloc(), call.input, 8, call.reads)?;
    let out = MemSink::new(rt.alloc(), 4096, 8, call.writes)?;
    let served = serve_into(rt, call.words, source, out, open(rt.alloc(), 8)?)?;
    Ok(served.status)
}

const CALLS: [Call; 7] = [
    Call {
        words: RUN,
        input: BRANCHES,
        reads: &[],
        writes: &[],
        status: Status::Done,
        number: 0,
    },
    Call {
        words: AUDIT,
        input: b"array a[1];\n%%\na = 1\ntransfers 0\n",
        reads: &[],
        writes: &[],
        status: Status::Illegal,
        number: 1,
    },
    Call {
        words: &["run"],
        input: BRANCHES,
        reads: &[],
        writes: &[],
        status: Status::Usage,
        number: 2,
    },
    Call {
        words: RUN,
        input: b"array",
        reads: &[],
        writes: &[],
        status: Status::Syntax,
        number: 3,
    },
    Call {
        words: RUN,
        input: b"a[0] = 1;",
        reads: &[],
        writes: &[],
        status: Status::Refused,
        number: 4,
    },
    Call {
        words: RUN,
        input: BRANCHES,
        reads: &[2],
        writes: &[],
        status: Status::ReadFault,
        number: 6,
    },
    Call {
        words: RUN,
        input: BRANCHES,
        reads: &[],
        writes: &[2],
        status: Status::WriteFault,
        number: 7,
    },
];

#[test]
fn calls_end_with_each_status(rt: HostRuntime) -> Result<(), Fail> {
    for call in &CALLS {
        ends(&rt, call)?;
    }
    Ok(())
}

// The status of a run of this input.
fn status_of_run<R: AllocGlobal + Threads + Wait + Sync>(
    rt: &R,
    input: &[u8],
) -> Result<Status, Fail> {
    let served = serve_by(rt, RUN, input, 4096, 8)?;
    Ok(served.status)
}

// Whether the allocation failure of the words is reported, with the number 8.
fn reports_no_memory(err: &mut MemSink) -> bool {
    let status = no_memory_for_words(err);
    status.number() == 8 && err.bytes() == b"no memory\n".as_slice()
}

#[test]
fn too_long_and_no_memory_are_5_and_8(rt: HostRuntime) -> Result<(), Fail> {
    let past = vec![in rt.alloc(); b' '; 65537]?;
    let status = status_of_run(&rt, &past)?;
    assert!(rt; status == Status::TooLong && status.number() == 5);
    let mut err = open(rt.alloc(), 8)?;
    assert!(rt; reports_no_memory(&mut err));
    Ok(())
}
