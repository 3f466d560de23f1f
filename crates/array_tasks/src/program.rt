//! Programs on several harts.
ghost use Rattle.std.specs.Prelude.{◌≡◌, ◌<◌, ◌≤◌, ◌⊎◌, IfOk, IfErr, Err};
ghost use Rattle.array_tree.specs.Trees.{program_of};
ghost use Rattle.array_meaning.specs.Work.{final_store};
ghost use Rattle.array_jobs.specs.Jobs.{job_of};
ghost use Rattle.array_jobs.specs.PieceParts.{piece_of_job};
ghost use Rattle.array_tasks.specs.Errors.{IsNotRun};

use crate::error::ProgramError;
use crate::job_task::JobTask;
use array_eval::{Overlay, Store};
use array_jobs::{Job, body_job};
use disjoint_check::Accepted;
use std::alloc::Global;
use std::sync::Wait;
use std::thread::Threads;
use task_crew::{MOST_HARTS, run_observed_eight_levels};
use task_sites::{Observer, Unobserved};

/// The levels of tasks in a run: constructs of an accepted program nest at most three deep, so tasks run the jobs of each.
pub const LEVELS: u8 = 3;

/// Runs an accepted program on `harts` harts, 1 to 64, and returns the value of each cell at the end: that of the one-thread
/// meaning, whatever the number of harts. The number of harts for which the program was accepted doesn't matter.
///
/// # Errors
///
/// `HartCount` exactly if the number of harts is out of range. `OutOfMemory` if an allocation fails.
///
/// # Memory
///
/// What [`run_on_eight_levels`](task_crew::run_on_eight_levels) allocates, a machine for each job with a construct inside, and
/// the writes of each job.
pub fn run_program<R: Threads + Wait + Sync>(
    rt: &R,
    alloc: Global,
    harts: u8,
    accepted: &Accepted<'_>,
) -> Result<Store, ProgramError>
    ensures arrays { IfOk result
        (λ store. store ≡ final_store (program_of accepted.now.program)) }
    ensures error { IfErr result (IsNotRun harts) }
    ensures harts { (harts ≡ 0) ⊎ (64 < harts) → result ≡ Err (ProgramError.HartCount harts) }
{
    let unobserved = Unobserved::new(rt);
    run_program_observed::<Unobserved<'_, R>>(&unobserved, alloc, harts, accepted)
}

/// Runs a program as [`run_program`] does, with an observer: `rt` gets a call when a task begins and when it ends. The body of the
/// program is a task, and so is each job of a construct.
///
/// # Errors
///
/// As those of [`run_program`].
///
/// # Memory
///
/// As that of [`run_program`].
pub fn run_program_observed<R: Threads + Observer + Sync>(
    rt: &R,
    alloc: Global,
    harts: u8,
    accepted: &Accepted<'_>,
) -> Result<Store, ProgramError>
    ensures arrays { IfOk result
        (λ store. store ≡ final_store (program_of accepted.now.program)) }
    ensures error { IfErr result (IsNotRun harts) }
    ensures harts { (harts ≡ 0) ⊎ (64 < harts) → result ≡ Err (ProgramError.HartCount harts) }
{
    if harts == 0 || harts > MOST_HARTS {
        return Err(ProgramError::HartCount(harts));
    }
    let body = body_job(alloc, accepted.program())?;
    let zeros = body.store.copy()?;
    let written = run_body(rt, alloc, harts, body)?;
    let store = zeros.with(&written)?;
    Ok(store)
}

// The writes of a job that runs as a task.
fn run_body<R: Threads + Observer + Sync>(
    rt: &R,
    alloc: Global,
    harts: u8,
    job: Job<'_>,
) -> Result<Overlay, ProgramError>
    requires some { 1 ≤ harts }
    requires few { harts ≤ 64 }
    ensures written { IfOk result (λ written. written.pairs ≡ piece_of_job (job_of job.entry)) }
    ensures error { IfErr result (λ error. error ≡ ProgramError.OutOfMemory) }
{
    let task = JobTask {
        job,
        levels: LEVELS,
    };
    match run_observed_eight_levels(rt, alloc, harts, LEVELS, task) {
        Ok(written) => Ok(written),
        Err(_) => Err(ProgramError::OutOfMemory),
    }
}
