//! Runs of programs on several harts, with source and sinks in memory.
ghost use Rattle.std.specs.Prelude.{◌≤◌};

use array_tree::Program;
use disjoint_check::check;
use hart_loop::{Journal, run_harts};
use lithe_call::{Status, lithe};
use outside_io::{Gate, OpenGate, SureSink, SureSource};
use sample_programs::parsed;
use std::alloc::Global;
use std::sync::Wait;
use std::test::Fail;
use std::thread::Threads;
use transfer_table::first_fault;

/// Two branches that write two cells.
pub const TWO_BRANCHES: &[u8] = b"array a[4]; par { { a[0] = 1; } { a[1] = 2; } }";

/// A team inside a branch.
pub const NESTED: &[u8] =
    b"array a[4]; par { { team i in 0..2 by 2 { a[i] = i + 5; } } { a[3] = 9; } }";

/// A team of two phases.
pub const PHASES: &[u8] =
    b"array a[6]; array b[6]; team i in 0..6 by 3 { a[i] = i + 1; } barrier { b[i] = a[5 - i]; }";

/// A `par` in each turn of a loop.
pub const TURNS: &[u8] = b"array c[3]; for k in 0..3 { par { { c[k] = k * k; } } }";

/// Pools inside teams inside a pool, as a user writes a stencil, on a grid of 8 by 8.
pub const STENCIL: &[u8] =
    b"array g[64]; array h[64]; team i in 0..8 by 4 { for j in 0..8 { g[i * 8 + j] = i * 3 + j; } } for t in 0..2 { par { { team i in 0..4 by 2 { par { { for j in 0..4 { h[i * 8 + j] = g[i * 8 + j] + g[(i + 1) % 8 * 8 + j]; } } { for j in 4..8 { h[i * 8 + j] = g[i * 8 + j] + g[(i + 7) % 8 * 8 + j]; } } } } } { team i in 4..8 by 2 { for j in 0..8 { h[i * 8 + j] = g[i * 8 + j]; } } } } team i in 0..8 by 4 { for j in 0..8 { g[i * 8 + j] = h[i * 8 + j]; } } }";

/// Choices by data, in members of a team and in turns of a loop, with sites on both sides.
pub const CHOICES: &[u8] =
    b"array a[8]; array b[8]; array c[32]; team i in 0..8 by 4 { a[i] = i % 3; } barrier { if a[i] { par { { b[i] = i; } { } } } else { par { { b[i] = 9; } { } { } } } } for i in 0..8 { if b[i] > 5 { par { { a[i] = 1; } { b[i] = 2; } } } else { team j in 0..4 by 4 { c[4 * i + j] = a[i]; } } }";

/// All programs that enter each of their sites.
pub const PROGRAMS: &[&[u8]] = &[b"", TWO_BRANCHES, NESTED, PHASES, TURNS, STENCIL];

/// The words of a run on two, three and four harts.
pub const TWO: &[&str] = &["run", "--harts", "2"];

pub const THREE: &[&str] = &["run", "--harts", "3"];

pub const FOUR: &[&str] = &["run", "--harts", "4"];

pub const FIVE: &[&str] = &["run", "--harts", "5"];

pub const SIXTEEN: &[&str] = &["run", "--harts", "16"];

/// The output of the words for the program.
///
/// # Errors
///
/// An error if the run isn't Done, or an allocation fails.
pub fn output_of<R: AllocGlobal + Threads + Wait + Sync, G: Gate>(
    rt: &R,
    words: &[&str],
    program: &[u8],
    gate: &G,
) -> Result<Vec<u8>, Fail> {
    let alloc = rt.alloc();
    let mut own = Vec::new(alloc);
    for word in words {
        own.push(String::from_str(alloc, word)?)?;
    }
    let mut source = SureSource::new(alloc, program)?;
    let mut out = SureSink::new(alloc, 1 << 20)?;
    let mut err = SureSink::new(alloc, 1 << 10)?;
    match lithe(rt, alloc, &own, &mut source, &mut out, &mut err, gate) {
        Status::Done => Ok(out.bytes().ok_or("too little room")?.to_vec(alloc)?),
        _ => Err(Fail::new("it isn't done")),
    }
}

#[test]
fn no_program_makes_no_transfer_on_four_harts(rt: HostRuntime) -> Result<(), Fail> {
    let output = output_of(&rt, FOUR, b"", &OpenGate)?;
    assert!(rt; output.as_slice() == b"transfers 0\n".as_slice());
    Ok(())
}

const ALONE: &[u8] =
    b"a = 1 2 0 0\ntransfers 3\n0 h0 register s1 under s0\n1 h0 request s1 1\n2 h0 unregister s1\n";

const VISITED: &[u8] =
    b"a = 1 2 0 0\ntransfers 5\n0 h0 register s1 under s0\n1 h0 request s1 1\n2 h1 enter s1\n3 h1 yield s1\n4 h0 unregister s1\n";

#[test]
fn the_second_hart_comes_or_does_not(rt: HostRuntime) -> Result<(), Fail> {
    let output = output_of(&rt, TWO, TWO_BRANCHES, &OpenGate)?;
    assert!(rt; output.as_slice() == ALONE || output.as_slice() == VISITED);
    Ok(())
}

// Whether the journal is that of the board for so many harts.
fn is_of_its_board(journal: &Journal, harts: u8) -> bool {
    match journal {
        Journal::Listed(_) => false,
        Journal::Board(_) => harts <= 4,
        Journal::Wide(_) => 4 < harts,
    }
}

// Whether the table accepts the journal of a run on so many harts as complete.
fn is_complete<R: Threads + Wait + Sync>(
    rt: &R,
    alloc: Global,
    program: &Program,
    harts: u8,
) -> Result<bool, Fail>
    requires several { 2 ≤ harts }
    requires few { harts ≤ 16 }
{
    let accepted = check(alloc, program, harts)?;
    let outcome = run_harts(rt, alloc, &accepted, &OpenGate)?;
    let all = vec![in alloc; true; accepted.plan().sites() as usize]?;
    let fault = first_fault(alloc, accepted.plan(), &all, outcome.journal.entries())?;
    Ok(fault.is_none() && is_of_its_board(&outcome.journal, harts))
}

#[test]
fn each_journal_is_complete(rt: HostRuntime) -> Result<(), Fail> {
    for text in PROGRAMS {
        let program = parsed(rt.alloc(), text)?;
        assert!(rt; is_complete(&rt, rt.alloc(), &program, 2)?);
        assert!(rt; is_complete(&rt, rt.alloc(), &program, 3)?);
        assert!(rt; is_complete(&rt, rt.alloc(), &program, 4)?);
        assert!(rt; is_complete(&rt, rt.alloc(), &program, 5)?);
        assert!(rt; is_complete(&rt, rt.alloc(), &program, 16)?);
    }
    Ok(())
}
