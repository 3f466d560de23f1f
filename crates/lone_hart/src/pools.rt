//! Pools, as the single hart has them.
ghost use Rattle.std.specs.Prelude.{◌≡◌, ◌≤◌, ◌⊎◌, ℕ, List, IfOk, IsErr, length, suc};
ghost use Rattle.array_tree.specs.Trees.{statement_of};
ghost use Rattle.array_jobs.specs.Jobs.{JobParts, job_of};
ghost use Rattle.join_book.specs.Books.{Filled, IsFull, HasFailed, marked_book};
ghost use Rattle.step_eval.specs.Nests.{NestedParts, nested_of, nested_writes, phases_of};
ghost use Rattle.step_eval.specs.declared.work.Work.TheVariants.{Begin};
ghost use Rattle.lone_hart.specs.Accounts.{Stands, AllCameBack, AllButOneCameBack};
ghost use Rattle.lone_hart.specs.Served.{GivesLone};
ghost use Rattle.lone_hart.specs.declared.site.LoneSite.TheVariants as LoneSite;
ghost use Rattle.lone_hart.specs.Sites.{IsPoolOf, wishes_inside};

use crate::wishes::room_for_wishes;
use array_eval::Overlay;
use array_jobs::{Job, Piece};
use forkjoin_sched::{Pool, PoolWork};
use sched_api::{Next, sched_reenter};
use std::alloc::{AllocError, Global};
use step_eval::{Nested, jobs_of};

/// The pool of a `par`.
///
/// # Errors
///
/// `AllocError` if an allocation fails.
///
/// # Memory
///
/// It allocates the jobs and the pool.
pub fn open_pool<'p>(alloc: Global, nested: &Nested<'p>) -> Result<Pool<'p>, AllocError>
    requires { phases_of (statement_of nested.now.construct) ≡ 1 }
    ensures of { IfOk result (IsPoolOf nested.now) }
    ensures none { IfOk result (λ pool. Stands Begin pool.book pool.agenda 0 0) }
    ensures room { IfOk result (λ pool. pool.agenda.wishes.room ≡ wishes_inside nested.now) }
{
    let jobs = jobs_of(alloc, nested, 0, &nested.store)?;
    Pool::of_one_start(alloc, jobs, room_for_wishes(nested))
}

/// The next action of the hart in the pool: the next job, or nothing if every job came back or one failed.
pub fn next_of_pool<'p>(pool: &mut Pool<'p>) -> Next<Job<'p>>
    ensures site { pool.new.site ≡ pool.old.site }
    ensures gives { (nested : NestedParts)
        → GivesLone (LoneSite.Pool nested pool.old) result (LoneSite.Pool nested pool.new) }
{
    if pool.has_failed() || pool.is_full() {
        return Next::Nothing;
    }
    match sched_reenter(pool, ()) {
        Next::Run(PoolWork::Begin(job)) => Next::Run(job),
        // If each job that was begun came back, a job that wasn't begun is left, and no context waits.
        Next::Run(PoolWork::Ready(_)) => Next::Nothing,
        Next::Lend(_) => Next::Nothing,
        Next::Nothing => Next::Nothing,
    }
}

/// A piece came back.
pub fn deposit_in_pool<'p>(pool: &mut Pool<'p>, piece: Piece<'p>)
    requires { AllButOneCameBack Begin pool.old.book pool.old.agenda piece.job }
    ensures book { pool.new.book
        ≡ marked_book pool.old.book piece.entry.job.place Filled }
    ensures agenda { pool.new.agenda ≡ pool.old.agenda }
    ensures account { AllCameBack Begin pool.new.book pool.new.agenda }
{
    pool.keep(piece);
}

/// Reports that an allocation failed for a piece.
pub fn fail_in_pool(pool: &mut Pool, place: u8)
    requires { (job : JobParts) × AllButOneCameBack Begin pool.old.book pool.old.agenda job
        × (job.place ≡ place) }
    ensures jobs { pool.new.book.jobs ≡ pool.old.book.jobs }
    ensures agenda { pool.new.agenda ≡ pool.old.agenda }
    ensures account { AllCameBack Begin pool.new.book pool.new.agenda }
    ensures failed { HasFailed pool.new.book }
{
    pool.fail(place);
}

/// The writes of the `par` of a pool that is full, or of which a piece failed.
///
/// # Errors
///
/// `AllocError` if a piece failed, or an allocation fails.
///
/// # Memory
///
/// It allocates a store and the overlay.
pub fn take_from_pool<'p>(nested: &Nested<'p>, pool: Pool<'p>) -> Result<Overlay, AllocError>
    requires of { IsPoolOf nested.now pool }
    requires over { IsFull pool.book ⊎ HasFailed pool.book }
    ensures failed { HasFailed pool.entry.book → IsErr result }
    ensures written { IfOk result (λ written. written.pairs ≡ nested_writes (nested_of nested.now)) }
{
    if pool.has_failed() {
        return Err(AllocError);
    }
    pool.take_all()
}
