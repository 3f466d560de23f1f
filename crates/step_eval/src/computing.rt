//! Constructs that the hart that meets them computes itself.
ghost use Rattle.std.specs.Prelude.{◌≡◌, ◌+◌, ◌<◌, IfOk, OnOk, map};
ghost use Rattle.array_tree.specs.Trees.{statement_of};
ghost use Rattle.array_eval.specs.Traces.{noted_all};
ghost use Rattle.array_jobs.specs.Jobs.{job_of};
ghost use Rattle.step_eval.specs.Nests.{nested_of, nested_writes, phases_of, IsFitNest};
ghost use Rattle.step_eval.specs.Inside.Computed.{HasReached, writes_of_jobs};

use crate::jobs::jobs_of;
use crate::nested::Nested;
use array_eval::{MarkedStore, Overlay};
use array_jobs::{Job, written_by};
use std::alloc::{AllocError, Global};

/// The writes of a construct, each cell with its last value: the pieces of each phase, merged, phase after phase.
///
/// At the end it makes one pass over the written pages.
///
/// # Errors
///
/// `AllocError` if an allocation fails.
///
/// # Memory
///
/// It allocates a marked store, the jobs of a phase, and the overlay.
pub fn compute(alloc: Global, nested: &Nested) -> Result<Overlay, AllocError>
    ensures { IfOk result (λ written. written.pairs ≡ nested_writes (nested_of nested.now)) }
{
    let mut store = MarkedStore::new(alloc, &nested.store)?;
    for phase in 0..nested.phases() {
        run_phase(alloc, nested, phase, &mut store)?;
    }
    store.written(alloc)
}

// Runs the pieces of a phase, each from the store that the earlier phases leave, taken before the first piece.
fn run_phase(
    alloc: Global,
    nested: &Nested,
    phase: u8,
    store: &mut MarkedStore,
) -> Result<(), AllocError>
    requires fit { IsFitNest (nested_of nested.now) }
    requires phase { phase < phases_of (statement_of nested.now.construct) }
    requires reached { HasReached (nested_of nested.now) phase store.old }
    ensures { OnOk result (HasReached (nested_of nested.now) (phase + 1) store.new) }
{
    let start = store.to_store(alloc)?;
    let jobs = jobs_of(alloc, nested, phase, &start)?;
    merge_pieces(alloc, &jobs, store)
}

// Merges the writes of jobs into a store, one after another.
fn merge_pieces(alloc: Global, jobs: &[Job], store: &mut MarkedStore) -> Result<(), AllocError>
    ensures { OnOk result (store.new ≡ noted_all (writes_of_jobs (map job_of jobs.now)) store.old) }
{
    for job in jobs {
        store.merge(&written_by(alloc, job)?);
    }
    Ok(())
}
