//! Two hundred rounds of each program by each number of harts. Each output is audited: its arrays, and its journal.
use crate::pipes::{FOUR_STEPS, PIPED};
use crate::runs::{CHOICES, FIVE, FOUR, PROGRAMS, SIXTEEN, THREE, TWO, output_of};
use outside_io::OpenGate;
use std::alloc::{AllocError, Global};
use std::process::Abort;
use std::sync::Wait;
use std::test::Fail;
use std::thread::Threads;

const ROUNDS: u32 = 200;

const PIPE_TWO: &[&str] = &["pipe", "--harts", "2"];

const PIPE_THREE: &[&str] = &["pipe", "--harts", "3"];

const PIPE_FOUR: &[&str] = &["pipe", "--harts", "4"];

const PIPE_SIXTEEN: &[&str] = &["pipe", "--harts", "16"];

// The input of an audit of this output.
fn audited(alloc: Global, program: &[u8], output: &[u8]) -> Result<Vec<u8>, AllocError> {
    let mut input = program.to_vec(alloc)?;
    input.extend_from_slice(b"\n%%\n")?;
    input.extend_from_slice(output)?;
    Ok(input)
}

// Runs the program by these words, and audits the output for as many harts. An error if the audit finds the output illegal.
fn run_and_audit<R: AllocGlobal + Abort + Threads + Wait + Sync>(
    rt: &R,
    words: &[&str],
    program: &[u8],
) -> Result<(), Fail> {
    let output = output_of(rt, words, program, &OpenGate)?;
    let input = audited(rt.alloc(), program, &output)?;
    let harts = words.last().ok_or("no number of harts")?;
    let verdict = output_of(rt, &["audit", "--harts", *harts], &input, &OpenGate)?;
    assert!(rt; verdict.starts_with(b"legal "));
    Ok(())
}

// Two hundred rounds of all these programs.
fn run_all<R: AllocGlobal + Abort + Threads + Wait + Sync>(
    rt: &R,
    words: &[&str],
    programs: &[&[u8]],
) -> Result<(), Fail> {
    for _ in 0..ROUNDS {
        for program in programs {
            run_and_audit(rt, words, program)?;
        }
    }
    Ok(())
}

// The same for runs, also of sites that are skipped and of four phases.
fn run_programs<R: AllocGlobal + Abort + Threads + Wait + Sync>(
    rt: &R,
    words: &[&str],
) -> Result<(), Fail> {
    run_all(rt, words, PROGRAMS)?;
    run_all(rt, words, &[CHOICES, FOUR_STEPS])
}

#[test]
fn runs_on_two_harts_are_legal(rt: HostRuntime) -> Result<(), Fail> {
    run_programs(&rt, TWO)
}

#[test]
fn runs_on_three_harts_are_legal(rt: HostRuntime) -> Result<(), Fail> {
    run_programs(&rt, THREE)
}

#[test]
fn runs_on_four_harts_are_legal(rt: HostRuntime) -> Result<(), Fail> {
    run_programs(&rt, FOUR)
}

#[test]
fn runs_on_five_harts_are_legal(rt: HostRuntime) -> Result<(), Fail> {
    run_and_audit(&rt, FIVE, CHOICES)
}

#[test]
fn runs_on_sixteen_harts_are_legal(rt: HostRuntime) -> Result<(), Fail> {
    run_programs(&rt, SIXTEEN)
}

#[test]
fn pipes_on_two_harts_are_legal(rt: HostRuntime) -> Result<(), Fail> {
    run_all(&rt, PIPE_TWO, PIPED)
}

#[test]
fn pipes_on_three_harts_are_legal(rt: HostRuntime) -> Result<(), Fail> {
    run_all(&rt, PIPE_THREE, PIPED)
}

#[test]
fn pipes_on_four_harts_are_legal(rt: HostRuntime) -> Result<(), Fail> {
    run_all(&rt, PIPE_FOUR, PIPED)
}

#[test]
fn pipes_on_sixteen_harts_are_legal(rt: HostRuntime) -> Result<(), Fail> {
    run_all(&rt, PIPE_SIXTEEN, PIPED)
}
