//! `tally`: branches and members that add into one cell.
use crate::serving::{RUN, serve, serve_by};
use lithe_call::Status;
use std::process::Abort;
use std::sync::Wait;
use std::test::Fail;
use std::thread::Threads;

const ONE: &[&str] = &["tally", "--harts=1"];

const FOUR: &[&str] = &["tally", "--harts", "4"];

const SIXTEEN: &[&str] = &["tally", "--harts", "16"];

const TWO_ADDS: &[u8] =
    b"array t_sum[1]; par { { t_sum[0] = t_sum[0] + 3; } { t_sum[0] = t_sum[0] + 4; } }";

const SQUARES: &[u8] = b"array a[8]; array q_sum[1];
team i in 0..8 by 4 { a[i] = i * i; } barrier { q_sum[0] = q_sum[0] + a[i]; }";

// The members' adds in a loop around the construct: rows begin at 0 each time.
const TURNS: &[u8] = b"array q_sum[2];
for k in 0..3 { team i in -3..4 by 8 { if i < 0 { q_sum[0] = q_sum[0] + 1; } else { q_sum[1] = q_sum[1] + i; } } }";

// Writes that wrap, into two arrays in one construct.
const TWO_ARRAYS: &[u8] = b"array p_sum[1]; array q_sum[1];
par { { p_sum[0] = p_sum[0] + 9223372036854775807; q_sum[0] = q_sum[0] + 1; } { p_sum[0] = p_sum[0] + 2; } }";

#[test]
fn branches_add_into_one_cell(rt: HostRuntime) -> Result<(), Fail> {
    let reported = b"t_sum = 7\ntransfers 2\n0 h0 register s1 under s0\n1 h0 unregister s1\n";
    serve(&rt, ONE, TWO_ADDS, Status::Done, reported, b"")
}

#[test]
fn run_refuses_what_tally_takes(rt: HostRuntime) -> Result<(), Fail> {
    let reported = b"refused: overlap on t_sum[0] at line 1\n";
    serve(&rt, RUN, TWO_ADDS, Status::Refused, b"", reported)
}

#[test]
fn members_add_what_an_earlier_phase_wrote(rt: HostRuntime) -> Result<(), Fail> {
    let reported = b"a = 0 1 4 9 16 25 36 49
q_sum = 140
transfers 2
0 h0 register s1 under s0
1 h0 unregister s1
";
    serve(&rt, ONE, SQUARES, Status::Done, reported, b"")
}

#[test]
fn members_have_uneven_parts(rt: HostRuntime) -> Result<(), Fail> {
    let text = b"array q_sum[1]; team i in 0..65 by 4 { q_sum[0] = q_sum[0] + 1; }";
    let reported = b"q_sum = 65\ntransfers 2\n0 h0 register s1 under s0\n1 h0 unregister s1\n";
    serve(&rt, ONE, text, Status::Done, reported, b"")
}

// Whether a tally writes these array lines, on so many harts.
fn writes<R: AllocGlobal + Abort + Threads + Wait + Sync>(
    rt: &R,
    words: &[&str],
    text: &[u8],
    arrays: &[u8],
) -> Result<(), Fail> {
    let served = serve_by(rt, words, text, 4096, 4096)?;
    assert!(rt; served.status == Status::Done && served.out.bytes().starts_with(arrays));
    Ok(())
}

#[test]
fn four_and_sixteen_harts_add_up_the_same(rt: HostRuntime) -> Result<(), Fail> {
    let squares = b"a = 0 1 4 9 16 25 36 49\nq_sum = 140\ntransfers ";
    for words in [FOUR, SIXTEEN] {
        writes(&rt, words, TWO_ADDS, b"t_sum = 7\ntransfers ")?;
        writes(&rt, words, SQUARES, squares)?;
    }
    writes(&rt, FOUR, TURNS, b"q_sum = 9 18\ntransfers ")
}

#[test]
fn rows_begin_at_0_in_each_turn(rt: HostRuntime) -> Result<(), Fail> {
    writes(&rt, ONE, TURNS, b"q_sum = 9 18\ntransfers 6\n")
}

#[test]
fn sums_wrap(rt: HostRuntime) -> Result<(), Fail> {
    writes(
        &rt,
        ONE,
        TWO_ARRAYS,
        b"p_sum = -9223372036854775807\nq_sum = 1\ntransfers 2\n",
    )
}

#[test]
fn what_is_no_add_is_reported(rt: HostRuntime) -> Result<(), Fail> {
    let text = b"array q_sum[1]; par { { q_sum[0] = 1; } }";
    let reported = b"refused: accumulation at line 1\n";
    serve(&rt, ONE, text, Status::Refused, b"", reported)
}

#[test]
fn a_name_that_rows_need_is_reported(rt: HostRuntime) -> Result<(), Fail> {
    let text = b"array q_sum[1]; array q_sum_rows[1]; par { { q_sum[0] = q_sum[0] + 1; } }";
    let reported = b"refused: name taken at line 1\n";
    serve(&rt, ONE, text, Status::Refused, b"", reported)
}

#[test]
fn the_first_of_three_refusals_is_reported(rt: HostRuntime) -> Result<(), Fail> {
    let text = b"array q_sum[1]; par { { q_sum[1] = 1; } }";
    let reported = b"refused: index 1 outside 1 cells at line 1\n";
    serve(&rt, ONE, text, Status::Refused, b"", reported)?;
    // With a row for each branch there are too many cells. The line is the array's own.
    let text = b"array q_sum[4000];\npar { { q_sum[0] = q_sum[0] + 1; } { } }";
    let reported = b"refused: length 8000 at line 1\n";
    serve(&rt, ONE, text, Status::Refused, b"", reported)?;
    // Other overlaps are refused as before.
    let text = b"array a[1];\npar { { a[0] = 1; } { a[0] = 2; } }";
    let reported = b"refused: overlap on a[0] at line 2\n";
    serve(&rt, ONE, text, Status::Refused, b"", reported)
}
