//! What a hart does with a pipe, or with its hand on one.
use crate::moves::{Got, was};
use crate::samples::BOTH_STEPS;
use array_eval::Overlay;
use array_jobs::{Job, Piece, piece_of};
use array_tree::Program;
use pipe_sched::{Pipe, PipeWork};
use sample_programs::{first_construct, waiting};
use sched_api::{Next, Scheduler};
use std::alloc::Global;
use std::test::Fail;
use step_eval::Kind;

/// The pipe of a program that begins with a `team`.
///
/// # Errors
///
/// A failure of the test if the program begins with no `team`, or an allocation fails.
pub fn pipe_of<'p>(alloc: Global, program: &'p Program) -> Result<Pipe<'p>, Fail> {
    let nested = first_construct(alloc, program)?;
    match nested.kind() {
        Kind::Team => Ok(Pipe::new(alloc, nested)?),
        Kind::Par => Err(Fail::new("it is a par")),
    }
}

/// The piece that begins next, run to its end.
///
/// # Errors
///
/// A failure of the test if no piece begins, or an allocation fails.
pub fn next_piece<'p, S: Scheduler<Ctx = PipeWork<'p>>>(
    scheduler: &mut S,
    hold: S::Hold,
    alloc: Global,
) -> Result<Piece<'p>, Fail> {
    match scheduler.enter(hold) {
        Next::Run(PipeWork::Begin(job)) => Ok(piece_of(alloc, job)?),
        _ => Err(Fail::new("no piece is begun")),
    }
}

/// Puts a context back, with a machine for the first of the jobs.
///
/// # Errors
///
/// A failure of the test if there is no job, or an allocation fails.
pub fn put_back<'p, S: Scheduler<Ctx = PipeWork<'p>>>(
    scheduler: &mut S,
    hold: S::Hold,
    alloc: Global,
    jobs: &[Job<'p>],
) -> Result<Got, Fail> {
    let context = waiting(alloc, jobs)?;
    Ok(was(scheduler.unblock(hold, PipeWork::Ready(context)).is_ok()))
}

// The writes of a full pipe. A failed pipe, and one that isn't full, return none.
fn taken(pipe: Pipe) -> Option<Overlay> {
    if !pipe.is_full() {
        return None;
    }
    pipe.take_all().ok()
}

/// Whether there is an overlay, and if so, whether it has the writes of both phases.
pub fn writes_in(overlay: Option<Overlay>) -> Got {
    match overlay {
        Some(written) if written.pairs() == BOTH_STEPS.as_slice() => Got::BothSteps,
        Some(_) => Got::OtherWrites,
        None => Got::Nothing,
    }
}

/// What a pipe returns at its end.
pub fn end_of(pipe: Pipe) -> Got {
    let failed = pipe.is_full() && pipe.has_failed();
    match writes_in(taken(pipe)) {
        Got::Nothing if failed => Got::NoWrites,
        written => written,
    }
}
