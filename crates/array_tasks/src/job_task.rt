//! Jobs as tasks.
ghost use Rattle.std.specs.Prelude.{◌≡◌, ◌≤◌, ◌<◌, IfOk, IfErr, Some, refl, alloc_error};
ghost use Rattle.array_eval.specs.Overlays.{Laid};
ghost use Rattle.array_jobs.specs.Jobs.{job_of};
ghost use Rattle.array_jobs.specs.PieceParts.{piece_of_job};
ghost use Rattle.array_tasks.specs.declared.job_task.JobTask.{JobTask};

use crate::constructs::run_construct;
use crate::machines::{next_nested, written_by_machine};
use array_eval::Overlay;
use array_jobs::{Job, sites_in, written_by};
use held_tasks::Holds;
use std::alloc::{AllocError, Global};
use step_eval::StepMachine;
use tasks::{Harts, Task, TaskKind};

/// A job as a task. It outputs exactly the job's writes.
#[derive(Drop)]
pub struct JobTask<'p> {
    /// The job.
    pub job: Job<'p>,
    /// How many levels of constructs inside the job are run by tasks. The hart that runs a job computes deeper ones itself.
    pub levels: u8,
}

impl<'p> TaskKind for JobTask<'p> {
    type Output = Overlay;

    type Error = AllocError;

    ghost gives = { λ task output. output.pairs ≡ piece_of_job (job_of task.job) };

    ghost fails = { λ _ _. ⊥ };

    ghost depth = { λ task. task.levels };
}

impl<'p> Holds<JobTask<'p>> for JobTask<'p> {
    ghost held = { λ task. task };

    ghost same_depth = { λ _. refl };

    ghost same_outcome = { λ _ output given. (output, given) };

    fn hold(task: JobTask<'p>) -> JobTask<'p>
        ensures { result ≡ task.entry }
    {
        task
    }

    fn output_of(output: Overlay) -> Option<Overlay>
        ensures { (task : JobTask) → output.pairs ≡ piece_of_job (job_of task.job) → (own : Laid)
            × (result ≡ Some own) × (own.pairs ≡ piece_of_job (job_of task.job)) }
    {
        Some(output)
    }

    fn error_of(error: AllocError) -> AllocError
        ensures { result ≡ error }
    {
        error
    }
}

impl<'p> Task for JobTask<'p> {
    fn run<H: Harts<Self>>(self, alloc: Global, harts: &mut H) -> Result<Overlay, AllocError> {
        run_job::<JobTask<'p>, H>(alloc, harts, self)
    }
}

/// The writes of a job, each cell with its last value. It runs inside tasks of any kind that holds jobs.
///
/// # Errors
///
/// An allocation failure.
///
/// # Memory
///
/// A machine, and for each construct its jobs and their writes.
pub fn run_job<'p, V: Holds<JobTask<'p>>, H: Harts<V>>(
    alloc: Global,
    harts: &mut H,
    task: JobTask<'p>,
) -> Result<Overlay, AllocError>
    requires { task.levels ≤ H.levels harts.old }
    ensures written { IfOk result
        (λ written. written.pairs ≡ piece_of_job (job_of task.entry.job)) }
    ensures error { IfErr result (λ error. error ≡ alloc_error) }
    ensures levels { H.levels harts.new ≡ H.levels harts.old }
{
    let JobTask { job, levels } = task;
    if levels == 0 || sites_in(&job.work) == 0 {
        let written = written_by(alloc, &job)?;
        return Ok(written);
    }
    let written = step_job::<V, H>(alloc, harts, job, levels - 1)?;
    Ok(written)
}

// Steps the machine of a job. The jobs of its constructs run as tasks with so many levels.
fn step_job<'p, V: Holds<JobTask<'p>>, H: Harts<V>>(
    alloc: Global,
    harts: &mut H,
    job: Job<'p>,
    levels: u8,
) -> Result<Overlay, AllocError>
    requires { levels < H.levels harts.old }
    ensures written { IfOk result (λ written. written.pairs ≡ piece_of_job (job_of job.entry)) }
    ensures levels { H.levels harts.new ≡ H.levels harts.old }
{
    let mut machine = StepMachine::new(alloc, job)?;
    'constructs: loop {
        let Some(nested) = next_nested(&mut machine)? else {
            return Ok(written_by_machine(machine));
        };
        let written = run_construct::<V, H>(alloc, harts, &nested, levels)?;
        machine.supply(&written)?;
    }
}
