//! Contexts that run the body of a program.
ghost use Rattle.std.specs.Prelude.{◌≡◌, false, IfOk};
ghost use Rattle.step_eval.specs.Machines.{is_awaiting, fresh_machine};

use crate::driving::holds;
use array_jobs::{Job, Piece, body_job};
use contexts::{
    InitRefused, Running, Step, ctx_block, ctx_fini, ctx_init, ctx_pause, ctx_resume, ctx_run,
    ctx_unblock,
};
use disjoint_check::Accepted;
use std::alloc::{AllocError, Global};
use std::test::Fail;
use step_eval::StepMachine;

// A running context with a machine for the job.
fn run<'p>(alloc: Global, job: Job<'p>) -> Result<Running<StepMachine<'p>>, AllocError>
    ensures { IfOk result (λ c. c ≡ fresh_machine job.entry) }
{
    match ctx_init(alloc, StepMachine::new(alloc, job)?) {
        Ok(fresh) => Ok(ctx_run(fresh)),
        Err(InitRefused { machine: _ }) => Err(AllocError),
    }
}

// The actions between two steps: 0 for nothing, 1 for a pause, 2 for a wait at a mutex.
fn put_aside<'p>(running: Running<StepMachine<'p>>, how: u8) -> Running<StepMachine<'p>>
    ensures { result ≡ running.entry }
{
    match how {
        0 => running,
        1 => ctx_resume(ctx_pause(running)),
        _ => ctx_resume(ctx_unblock(ctx_block(running))),
    }
}

// Runs a context to its end, if it has at most so many steps left.
fn run_context<'p>(running: Running<StepMachine<'p>>, steps: u8, how: u8) -> Option<Piece<'p>>
    requires { is_awaiting running.stage ≡ false }
{
    let mut running = running;
    if steps > 0 {
        match running.step() {
            Step::More => return run_context(put_aside(running, how), steps - 1, how),
            Step::Finished => return Some(ctx_fini(running).into_machine().into_piece()),
            Step::Nest(_) | Step::NoMemory => {}
        }
    }
    drop(running.abandon());
    None
}

// Whether a context ends within so many steps exactly if they are three, with one cell written.
fn needs_three_steps(alloc: Global, accepted: &Accepted, steps: u8, how: u8) -> Result<bool, Fail> {
    let running = run(alloc, body_job(alloc, accepted.program())?)?;
    match run_context(running, steps, how) {
        Some(piece) => Ok(steps == 3 && piece.written.pairs() == [(0, 1)].as_slice()),
        None => Ok(steps == 2),
    }
}

// Whether a program of one assignment takes three steps, for any action between them.
fn is_run_in_three_steps(alloc: Global, accepted: &Accepted) -> Result<bool, Fail> {
    for how in 0..3 {
        // Why three: the assignment, the end of the block, and the step that finds no work.
        for steps in 2..4 {
            if !needs_three_steps(alloc, accepted, steps, how)? {
                return Ok(false);
            }
        }
    }
    Ok(true)
}

#[test]
fn a_context_runs_a_body(rt: HostRuntime) -> Result<(), Fail> {
    let text = b"array a[4]; a[0] = 1;";
    assert!(rt; holds(rt.alloc(), text.as_slice(), &is_run_in_three_steps)?);
    Ok(())
}
