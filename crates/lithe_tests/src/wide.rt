//! Runs on more harts than four, and the longest journal of one hart.
use crate::serving::{RUN, Served, open, serve, serve_into};
use lithe_call::Status;
use outside_io::{MemSink, MemSource};
use std::sync::Wait;
use std::test::Fail;
use std::thread::Threads;

const FIVE: &[&str] = &["run", "--harts", "5"];

const SIXTEEN: &[&str] = &["run", "--harts", "16"];

// The results of serving the words with the program, and with so much room for the output.
fn served<R: AllocGlobal + Threads + Wait + Sync>(
    rt: &R,
    words: &[&str],
    program: &[u8],
    room: usize,
) -> Result<Served, Fail> {
    let source = MemSource::new(rt.alloc(), program, 4096, &[])?;
    let out = MemSink::new(rt.alloc(), room, 4096, &[])?;
    serve_into(rt, words, source, out, open(rt.alloc(), 4096)?)
}

// Whether a call is done, and its output begins and ends so.
fn is_done(served: &Served, begin: &[u8], end: &[u8]) -> bool {
    let text = served.out.bytes();
    let whole = text.starts_with(begin) && text.ends_with(end);
    served.status == Status::Done && whole
}

#[test]
fn two_branches_write_two_cells_on_five_and_on_sixteen_harts(rt: HostRuntime) -> Result<(), Fail> {
    let program = b"array a[4]; par { { a[0] = 1; } { a[1] = 2; } }";
    let begin = b"a = 1 2 0 0\ntransfers ";
    for words in [FIVE, SIXTEEN] {
        let served = served(&rt, words, program, 4096)?;
        assert!(rt; is_done(&served, begin, b" h0 unregister s1\n"));
    }
    Ok(())
}

#[test]
fn sixteen_harts_have_1394_sites(rt: HostRuntime) -> Result<(), Fail> {
    let program = b"for k in 0..1394 { par { { } } }";
    let served = served(&rt, SIXTEEN, program, 1 << 20)?;
    let begin = b"transfers 2788\n0 h0 register s1 under s0\n";
    assert!(rt; is_done(&served, begin, b"\n2787 h0 unregister s1394\n"));
    Ok(())
}

#[test]
fn one_site_more_is_refused_to_sixteen_harts(rt: HostRuntime) -> Result<(), Fail> {
    let program = b"for k in 0..1395 { par { { } } }";
    let printed = b"refused: 1395 sites\n";
    serve(&rt, SIXTEEN, program, Status::Refused, b"", printed)
}

#[test]
fn the_greatest_journal_is_written_whole(rt: HostRuntime) -> Result<(), Fail> {
    let program = b"for k in 0..4095 { par { { } } }";
    let served = served(&rt, RUN, program, 1 << 20)?;
    let begin = b"transfers 8190\n0 h0 register s1 under s0\n";
    assert!(rt; is_done(&served, begin, b"\n8189 h0 unregister s4095\n"));
    Ok(())
}

#[test]
fn a_summary_is_the_same_on_sixteen_harts(rt: HostRuntime) -> Result<(), Fail> {
    let words = &["make", "--seed", "7", "--size", "16", "--harts", "16"];
    let summary = b"cells 528\nsum 85920000\nsites 82\nregisters 82\n";
    serve(&rt, words, b"", Status::Done, summary, b"")
}
