//! Pieces.
ghost use Rattle.std.specs.Prelude.{◌≡◌, IfOk};
ghost use Rattle.array_eval.specs.Traces.{traced};
ghost use Rattle.array_eval.specs.Views.{vars_of};
ghost use Rattle.array_jobs.specs.Works.{work_of, steps_of};
ghost use Rattle.array_jobs.specs.Jobs.{job_of};
ghost use Rattle.array_jobs.specs.PieceParts.{piece_of_job};

use crate::job::Job;
use crate::work::Work;
use array_eval::{Layout, MarkedStore, Overlay, Scope, run_block, run_loop};
use std::alloc::{AllocError, Global};
use std::marker::Model;

/// A job with its writes: exactly the cells that the work writes from the job's variables and store, each with its last value.
#[derive(Debug, Drop)]
pub struct Piece<'p> {
    pub job: Job<'p>,
    pub written: Overlay,
}

impl<'p> Model for Piece<'p> {
    ghost use Rattle.std.specs.Coded.{codes};
    ghost use Rattle.array_tree.specs.contracts.tree.Arrays as arrays_type;
    ghost use Rattle.array_tree.specs.contracts.tree.Block as block_type;
    ghost use Rattle.array_jobs.specs.PieceParts.{PieceParts, IsRight};

    ghost Value = { PieceParts };

    ghost coded = { Prim.hlevel (codes, arrays_type.the_row.coded, block_type.the_row.coded) };

    ghost view = { λ piece. record { job = piece.job; written = piece.written.pairs } };

    ghost invariant = { λ piece. IsRight record {
      job = piece.job;
      written = piece.written.pairs;
    } };
}

impl<'p> Piece<'p> {
    ghost use Rattle.array_jobs.specs.PieceParts.{PieceParts, IsRight};

    /// The piece of a job. `written` must be the job's writes.
    pub fn new(job: Job<'p>, written: Overlay) -> Piece<'p>
        requires { IsRight record { job = job; written = written.pairs } }
        ensures { result ≡ record { job = job.entry; written = written.pairs } }
    {
        Piece { job, written }
    }
}

/// The piece of a job, by running its work on a copy of its store.
///
/// # Errors
///
/// `AllocError` if an allocation fails.
///
/// # Memory
///
/// It allocates a layout, a marked store and the overlay.
pub fn piece_of<'p>(alloc: Global, job: Job<'p>) -> Result<Piece<'p>, AllocError>
    ensures { IfOk result (λ piece. piece.job ≡ job.entry) }
{
    let written = written_by(alloc, &job)?;
    Ok(Piece { job, written })
}

/// The writes of a job, by running its work on a copy of its store: each cell with its last value.
///
/// # Errors
///
/// `AllocError` if an allocation fails.
///
/// # Memory
///
/// It allocates a layout, a marked store and the overlay.
pub fn written_by(alloc: Global, job: &Job) -> Result<Overlay, AllocError>
    ensures { IfOk result (λ overlay. overlay.pairs ≡ piece_of_job (job_of job.now)) }
{
    let layout = Layout::new(alloc, job.arrays)?;
    let mut store = MarkedStore::new(alloc, &job.store)?;
    run_work(&layout, &job.work, &Scope::Kept(&job.vars), &mut store);
    store.written(alloc)
}

// Runs a work.
fn run_work<'s>(layout: &Layout, work: &'s Work<'s>, scope: &'s Scope<'s>, store: &mut MarkedStore)
    ensures { store.new ≡ traced layout.now
        (steps_of (work_of work.now) (vars_of scope.now)) store.old }
{
    match work {
        Work::Branch(body) => run_block(layout, body, scope, store),
        Work::Member {
            var,
            low,
            high,
            body,
        } => run_loop(layout, body, var, *low, *high, scope, store),
    }
}
