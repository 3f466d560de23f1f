//! `pipe`: members that overtake.
use crate::serving::{serve, serve_by};
use lithe_call::Status;
use std::process::Abort;
use std::sync::Wait;
use std::test::Fail;
use std::thread::Threads;

const ONE: &[&str] = &["pipe", "--harts=1"];

const FOUR: &[&str] = &["pipe", "--harts", "4"];

const SIXTEEN: &[&str] = &["pipe", "--harts", "16"];

const AUDIT: &[&str] = &["audit", "--harts", "4"];

// In the second phase, each member reads the cell below its own.
const TWO_STEPS: &[u8] =
    b"array a[6]; array b[6]; team i in 0..6 by 3 { a[i] = i + 1; } barrier { b[i] = a[i / 2] * 10; }";

// Pools inside a pipe inside a pool.
const NESTED: &[u8] = b"array a[8]; array b[8];
par { { team i in 0..4 by 2 { par { { a[2 * i] = i; } { a[2 * i + 1] = i + 1; } } } barrier { b[i] = a[i]; } } { } }";

// A wavefront: each member goes on from the cell that the member below it wrote in the phase before.
const WAVE: &[u8] = b"array a[5]; array b[5]; array c[5];
team i in 1..5 by 4 { a[i] = i; } barrier { b[i] = a[i - 1] + a[i]; } barrier { c[i] = b[i - 1] + b[i]; }";

// In the second phase, each member chooses by the cell below its own.
const CHOICE: &[u8] = b"array a[6]; array b[6];
team i in 0..6 by 3 { a[i] = i % 2; } barrier { if a[i / 2] { par { { b[i] = 1; } { } } } }";

#[test]
fn a_member_goes_on_behind_those_below_it(rt: HostRuntime) -> Result<(), Fail> {
    let reported = b"a = 1 2 3 4 5 6
b = 10 10 20 20 30 30
transfers 2
0 h0 register s1 under s0
1 h0 unregister s1
";
    serve(&rt, ONE, TWO_STEPS, Status::Done, reported, b"")
}

#[test]
fn pieces_that_cross_are_refused(rt: HostRuntime) -> Result<(), Fail> {
    let text =
        b"array a[6]; array b[6]; team i in 0..6 by 3 { a[i] = i + 1; } barrier { b[i] = a[5 - i]; }";
    let reported = b"refused: crossing on a[4] at line 1\n";
    serve(&rt, ONE, text, Status::Refused, b"", reported)
}

#[test]
fn what_run_refuses_is_reported_first(rt: HostRuntime) -> Result<(), Fail> {
    let text = b"array a[2];\nteam i in 0..2 by 2 { a[0] = i; } barrier { a[1 - i] = i; }";
    let reported = b"refused: overlap on a[0] at line 2\n";
    serve(&rt, ONE, text, Status::Refused, b"", reported)
}

// Whether members that overtake write these array lines, on so many harts.
fn writes<R: AllocGlobal + Abort + Threads + Wait + Sync>(
    rt: &R,
    words: &[&str],
    text: &[u8],
    arrays: &[u8],
) -> Result<(), Fail> {
    let served = serve_by(rt, words, text, 4096, 4096)?;
    assert!(rt; served.status == Status::Done && served.out.bytes().starts_with(arrays));
    Ok(())
}

#[test]
fn overtaking_is_not_seen_in_the_arrays(rt: HostRuntime) -> Result<(), Fail> {
    for words in [ONE, FOUR, SIXTEEN] {
        let steps = b"a = 1 2 3 4 5 6\nb = 10 10 20 20 30 30\ntransfers ";
        writes(&rt, words, TWO_STEPS, steps)?;
        let nested = b"a = 0 1 1 2 2 3 3 4\nb = 0 1 1 2 0 0 0 0\ntransfers ";
        writes(&rt, words, NESTED, nested)?;
        let wave = b"a = 0 1 2 3 4\nb = 0 1 3 5 7\nc = 0 1 4 8 12\ntransfers ";
        writes(&rt, words, WAVE, wave)?;
        let choice = b"a = 0 1 0 1 0 1\nb = 0 0 1 1 0 0\ntransfers ";
        writes(&rt, words, CHOICE, choice)?;
    }
    Ok(())
}

#[test]
fn an_audit_takes_what_overtaking_members_wrote(rt: HostRuntime) -> Result<(), Fail> {
    let run = serve_by(&rt, FOUR, TWO_STEPS, 4096, 4096)?;
    let mut input = TWO_STEPS.to_vec(rt.alloc())?;
    input.extend_from_slice(b"\n%%\n")?;
    input.extend_from_slice(run.out.bytes())?;
    let audit = serve_by(&rt, AUDIT, &input, 4096, 4096)?;
    assert!(rt; run.status == Status::Done && audit.status == Status::Done);
    Ok(())
}
