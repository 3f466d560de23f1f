//! The first construct of a program, its jobs and their pieces.
ghost use Rattle.std.specs.Prelude.{IfOk, map};
ghost use Rattle.array_jobs.specs.Jobs.{job_of};
ghost use Rattle.array_jobs.specs.Groups.{IsGroup};

use crate::programs::accepted;
use array_jobs::{Job, Piece, body_job, piece_of};
use array_tree::Program;
use contexts::{InitRefused, Machine, Paused, Step, ctx_init, ctx_pause, ctx_run};
use std::alloc::Global;
use std::test::Fail;
use step_eval::{Found, Nested, StepMachine, jobs_of};

/// The construct with which an accepted program begins, as its machine hands it out.
///
/// # Errors
///
/// A failure of the test if the program begins with no construct, isn't accepted, or an allocation fails.
pub fn first_construct<'p>(alloc: Global, program: &'p Program) -> Result<Nested<'p>, Fail> {
    let accepted = accepted(alloc, program)?;
    let mut machine = StepMachine::new(alloc, body_job(alloc, accepted.program())?)?;
    match machine.step() {
        Step::Nest(Found::Nest(nested)) => Ok(nested),
        _ => Err(Fail::new("no construct")),
    }
}

/// The jobs of the first phase of that construct.
///
/// # Errors
///
/// As `first_construct`.
pub fn first_jobs<'p>(alloc: Global, program: &'p Program) -> Result<Vec<Job<'p>>, Fail>
    ensures { IfOk result (λ jobs. IsGroup (map job_of jobs.items)) }
{
    let nested = first_construct(alloc, program)?;
    // Why: reading its phases makes the construct's invariant known.
    let _phases = nested.phases();
    Ok(jobs_of(alloc, &nested, 0, &nested.store)?)
}

/// The piece of the job at an index of the list.
///
/// # Errors
///
/// A failure of the test if the list has no such index, or an allocation fails.
pub fn piece_at<'p>(alloc: Global, jobs: &[Job<'p>], place: usize) -> Result<Piece<'p>, Fail> {
    match jobs.get(place) {
        Some(job) => Ok(piece_of(alloc, job.copy()?)?),
        None => Err(Fail::new("no such place")),
    }
}

/// A context that waits, with a machine for the first of the jobs.
///
/// # Errors
///
/// A failure of the test if there is no job, or an allocation fails.
pub fn waiting<'p>(alloc: Global, jobs: &[Job<'p>]) -> Result<Paused<StepMachine<'p>>, Fail> {
    let Some(job) = jobs.first() else {
        return Err(Fail::new("no job"));
    };
    match ctx_init(alloc, StepMachine::new(alloc, job.copy()?)?) {
        Ok(fresh) => Ok(ctx_pause(ctx_run(fresh))),
        Err(InitRefused { machine: _ }) => Err(Fail::new("out of memory")),
    }
}
