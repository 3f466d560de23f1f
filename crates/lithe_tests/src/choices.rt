//! Constructs under an `if`: the sites of the side that isn't taken are skipped.
use crate::examples::{input, runs_are_legal};
use crate::serving::{RUN, serve, serve_by};
use lithe_call::Status;
use std::process::Abort;
use std::sync::Wait;
use std::test::Fail;
use std::thread::Threads;

const ONE: &[&str] = &["audit", "--harts", "1"];

// The first side has a site inside a site, the second one has one.
const TWO_SIDES: &[u8] =
    b"array a[2]; if a[0] { par { { par { { } } } } } else { par { { a[1] = 4; } } }\n";

#[test]
fn a_side_that_is_taken_registers(rt: HostRuntime) -> Result<(), Fail> {
    let text = b"array a[1]; if 1 { par { { a[0] = 1; } } }";
    let reported = b"a = 1\ntransfers 2\n0 h0 register s1 under s0\n1 h0 unregister s1\n";
    serve(&rt, RUN, text, Status::Done, reported, b"")
}

#[test]
fn a_side_that_is_not_taken_is_skipped(rt: HostRuntime) -> Result<(), Fail> {
    let text = b"array a[1]; if 0 { par { { a[0] = 1; } } }";
    serve(
        &rt,
        RUN,
        text,
        Status::Done,
        b"a = 0\ntransfers 1\n0 h0 skip s1\n",
        b"",
    )
}

#[test]
fn the_outermost_sites_of_a_side_are_skipped(rt: HostRuntime) -> Result<(), Fail> {
    let reported = b"a = 0 4
transfers 3
0 h0 skip s1
1 h0 register s3 under s0
2 h0 unregister s3
";
    serve(&rt, RUN, TWO_SIDES, Status::Done, reported, b"")
}

#[test]
fn an_audit_wants_the_other_side_skipped(rt: HostRuntime) -> Result<(), Fail> {
    let output = b"a = 0 4
transfers 5
0 h0 register s1 under s0
1 h0 register s2 under s1
2 h0 unregister s2
3 h0 unregister s1
4 h0 skip s3
";
    let audited = input(rt.alloc(), TWO_SIDES, output)?;
    let reported = b"illegal: entry 5, s1 isn't skipped\n";
    serve(&rt, ONE, &audited, Status::Illegal, reported, b"")
}

// Two sides of one site each, which write nothing, and the same with the sides taken the other way.
const EITHER: &[u8] = b"array a[1]; if a[0] { par { { } { } } } else { team i in 0..4 by 2 { } }\n";

const OTHER: &[u8] =
    b"array a[1]; if a[0] == 0 { par { { } { } } } else { team i in 0..4 by 2 { } }\n";

#[test]
fn an_audit_distinguishes_the_sides(rt: HostRuntime) -> Result<(), Fail> {
    let run = serve_by(&rt, RUN, EITHER, 4096, 4096)?;
    let audited = input(rt.alloc(), OTHER, run.out.bytes())?;
    let reported = b"illegal: entry 3, s1 is skipped\n";
    serve(&rt, ONE, &audited, Status::Illegal, reported, b"")
}

// A team with pools inside.
const POOLS: &[u8] = b"array a[8];
if a[0] {
  team i in 0..4 by 2 { par { { a[2 * i] = 1; } { a[2 * i + 1] = 2; } } }
} else { a[7] = 3; }
";

#[test]
fn pools_are_skipped_with_the_team_around_them(rt: HostRuntime) -> Result<(), Fail> {
    serve(
        &rt,
        RUN,
        POOLS,
        Status::Done,
        b"a = 0 0 0 0 0 0 0 3\ntransfers 1\n0 h0 skip s1\n",
        b"",
    )
}

// Three sites on the first side of the outer choice, of which the inner choice has two, and one on the second.
const INNER: &[u8] = b"array a[4]; a[0] = 1;
if a[0] {
  if a[1] { par { { a[2] = 1; } } } else { par { { a[2] = 2; } { a[3] = 3; } } }
  par { { a[1] = 5; } }
} else { par { { a[3] = 9; } } }
";

#[test]
fn each_choice_skips_its_other_side(rt: HostRuntime) -> Result<(), Fail> {
    let reported = b"a = 1 5 2 3
transfers 6
0 h0 skip s4
1 h0 skip s1
2 h0 register s2 under s0
3 h0 unregister s2
4 h0 register s3 under s0
5 h0 unregister s3
";
    serve(&rt, RUN, INNER, Status::Done, reported, b"")
}

// A choice in each turn of a loop.
const TURNS: &[u8] = b"array a[4]; array b[8];
for i in 0..4 {
  if i % 2 { par { { a[i] = 1; } { } } } else { team j in 0..2 by 2 { b[2 * i + j] = i + j + 1; } }
}
";

#[test]
fn each_turn_chooses(rt: HostRuntime) -> Result<(), Fail> {
    let reported = b"a = 0 1 0 1
b = 1 2 0 0 3 4 0 0
transfers 12
0 h0 skip s1
1 h0 register s2 under s0
2 h0 unregister s2
3 h0 skip s4
4 h0 register s3 under s0
5 h0 unregister s3
6 h0 skip s5
7 h0 register s6 under s0
8 h0 unregister s6
9 h0 skip s8
10 h0 register s7 under s0
11 h0 unregister s7
";
    serve(&rt, RUN, TURNS, Status::Done, reported, b"")
}

// Choices in branches.
const BRANCHES: &[u8] = b"array a[4];
par {
  { a[0] = 1; if a[0] { par { { a[1] = 2; } { a[2] = 3; } } } else { par { { } } } }
  { if a[3] { par { { } } } else { } }
}
";

#[test]
fn branches_choose(rt: HostRuntime) -> Result<(), Fail> {
    let reported = b"a = 1 2 3 0
transfers 6
0 h0 register s1 under s0
1 h0 skip s3
2 h0 register s2 under s1
3 h0 unregister s2
4 h0 skip s4
5 h0 unregister s1
";
    serve(&rt, RUN, BRANCHES, Status::Done, reported, b"")
}

// A choice in each phase; two of them read cells that an earlier phase wrote.
const PHASES: &[u8] = b"array a[4]; array b[4]; array c[4];
team i in 0..4 by 2 {
  a[i] = i % 2;
  if i == 3 { par { { } { } } }
} barrier {
  if a[i] { par { { b[i] = 7; } { } } }
} barrier {
  if a[3 - i] == 0 { team j in 0..1 by 2 { c[i] = b[i] + 1; } }
}
";

// The arrays of the members on so many harts.
fn members_choose<R: AllocGlobal + Abort + Threads + Wait + Sync>(
    rt: &R,
    harts: &str,
) -> Result<(), Fail> {
    let served = serve_by(rt, &["run", harts], PHASES, 4096, 4096)?;
    let arrays = b"a = 0 1 0 1\nb = 0 7 0 7\nc = 0 8 0 8\ntransfers ";
    assert!(rt; served.status == Status::Done && served.out.bytes().starts_with(arrays));
    Ok(())
}

#[test]
fn members_choose_by_what_an_earlier_phase_wrote(rt: HostRuntime) -> Result<(), Fail> {
    members_choose(&rt, "--harts=1")?;
    members_choose(&rt, "--harts=3")?;
    members_choose(&rt, "--harts=4")?;
    members_choose(&rt, "--harts=16")
}

#[test]
fn runs_with_choices_are_legal(rt: HostRuntime) -> Result<(), Fail> {
    runs_are_legal(&rt, TWO_SIDES)?;
    runs_are_legal(&rt, EITHER)?;
    runs_are_legal(&rt, POOLS)?;
    runs_are_legal(&rt, INNER)?;
    runs_are_legal(&rt, TURNS)?;
    runs_are_legal(&rt, BRANCHES)?;
    runs_are_legal(&rt, PHASES)
}
