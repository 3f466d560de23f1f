//! Constructs, whose jobs run as tasks.
ghost use Rattle.std.specs.Prelude.{◌≡◌, ◌+◌, ◌<◌, All, map, IfOk, OnOk};
ghost use Rattle.array_tree.specs.Trees.{statement_of};
ghost use Rattle.array_eval.specs.Traces.{noted_all};
ghost use Rattle.step_eval.specs.Inside.Computed.{HasReached};
ghost use Rattle.step_eval.specs.Nests.{nested_of, nested_writes, phases_of, IsFitNest};
ghost use Rattle.array_tasks.specs.Merging.{writes_in};

use crate::job_task::JobTask;
use array_eval::{MarkedStore, Overlay};
use array_jobs::Job;
use held_tasks::{Holds, fork_join_as};
use std::alloc::{AllocError, Global};
use step_eval::{Nested, jobs_of};
use tasks::Harts;

/// The writes of a construct, each cell with its last value: the jobs of each phase run as tasks with so many levels, and their
/// writes are merged, phase after phase.
///
/// # Errors
///
/// An allocation failure.
///
/// # Memory
///
/// A marked store, and for each phase its jobs and their writes.
pub(crate) fn run_construct<'p, V: Holds<JobTask<'p>>, H: Harts<V>>(
    alloc: Global,
    harts: &mut H,
    nested: &Nested<'p>,
    levels: u8,
) -> Result<Overlay, AllocError>
    requires { levels < H.levels harts.old }
    ensures written { IfOk result
        (λ written. written.pairs ≡ nested_writes (nested_of nested.now)) }
    ensures levels { H.levels harts.new ≡ H.levels harts.old }
{
    let mut store = MarkedStore::new(alloc, &nested.store)?;
    'phases: for phase in 0..nested.phases() {
        run_phase::<V, H>(alloc, harts, nested, phase, levels, &mut store)?;
    }
    store.written(alloc)
}

// Runs the jobs of a phase, each from the store that the earlier phases leave.
fn run_phase<'p, V: Holds<JobTask<'p>>, H: Harts<V>>(
    alloc: Global,
    harts: &mut H,
    nested: &Nested<'p>,
    phase: u8,
    levels: u8,
    store: &mut MarkedStore,
) -> Result<(), AllocError>
    requires levels { levels < H.levels harts.old }
    requires fit { IsFitNest (nested_of nested.now) }
    requires phase { phase < phases_of (statement_of nested.now.construct) }
    requires reached { HasReached (nested_of nested.now) phase store.old }
    ensures reached { OnOk result (HasReached (nested_of nested.now) (phase + 1) store.new) }
    ensures levels { H.levels harts.new ≡ H.levels harts.old }
{
    let start = store.to_store(alloc)?;
    let jobs = jobs_of(alloc, nested, phase, &start)?;
    let tasks = tasks_of(alloc, jobs, levels)?;
    let outputs = fork_join_as::<JobTask<'p>, V, H>(alloc, harts, tasks)?;
    merge_all(&outputs, store);
    Ok(())
}

// Each job as a task with so many levels.
fn tasks_of<'p>(
    alloc: Global,
    jobs: Vec<Job<'p>>,
    levels: u8,
) -> Result<Vec<JobTask<'p>>, AllocError>
    ensures jobs { IfOk result (λ tasks. map (λ task. task.job) tasks.items ≡ jobs.entry.items) }
    ensures levels { IfOk result (λ tasks. All (λ task. task.levels ≡ levels) tasks.items) }
{
    let mut tasks = Vec::with_capacity(alloc, jobs.len())?;
    'jobs: for job in jobs {
        tasks.push(JobTask { job, levels })?;
    }
    Ok(tasks)
}

// Merges overlays into a store, one after another.
fn merge_all(outputs: &[Overlay], store: &mut MarkedStore)
    ensures { store.new ≡ noted_all (writes_in outputs.now) store.old }
{
    'outputs: for written in outputs {
        store.merge(written);
    }
}
