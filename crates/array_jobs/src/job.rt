//! Jobs.
ghost use Rattle.std.specs.Prelude.{◌≡◌, ◌↔◌, IsTrue, IfOk};
ghost use Rattle.array_jobs.specs.Jobs.{job_of};
ghost use Rattle.array_jobs.specs.Equal.{job_eq};

use crate::work::Work;
use array_eval::{Store, Vars};
use array_tree::Arrays;
use std::alloc::AllocError;
use std::marker::Model;

/// The work of one branch of a `par`, or of one member of a `team` in one phase, with all that it starts from.
///
/// Contracts see a job as its parts. The type's invariant: the job is fit to run.
#[derive(Debug, Drop)]
pub struct Job<'p> {
    /// The arrays of the program.
    pub arrays: &'p Arrays,
    /// The number of the site of which the job is a piece, 0 to 4,095.
    pub site: u16,
    /// The phase, from 0 to 7; 0 for a branch.
    pub phase: u8,
    /// The number of the branch or of the member, from 0 to 63.
    pub place: u8,
    /// The number of the next site inside the work. Its sum with the number of the work's sites is at most 4,096.
    pub first: u16,
    /// The statements that run.
    pub work: Work<'p>,
    /// The loop variables around the work.
    pub vars: Vars,
    /// The store from which the work starts, with one value for each cell of the arrays.
    pub store: Store,
}

impl<'p> Model for Job<'p> {
    ghost use Rattle.std.specs.Coded.{codes};
    ghost use Rattle.array_tree.specs.contracts.tree.Arrays as arrays_type;
    ghost use Rattle.array_tree.specs.contracts.tree.Block as block_type;
    ghost use Rattle.array_jobs.specs.Jobs.{JobParts, IsFit, job_of};

    ghost Value = { JobParts };

    ghost coded = { Prim.hlevel (codes, arrays_type.the_row.coded, block_type.the_row.coded) };

    ghost view = { λ job. record { arrays = job.arrays.now; site = job.site; phase = job.phase; place = job.place; first = job.first; work = job.work; vars = job.vars; store = job.store } };

    ghost invariant = { λ job. IsFit (job_of record {
      arrays = job.arrays.now;
      site = job.site;
      phase = job.phase;
      place = job.place;
      first = job.first;
      work = job.work;
      vars = job.vars;
      store = job.store;
    }) };
}

impl<'p> Job<'p> {
    /// An equal job, which shares variables and store.
    ///
    /// # Errors
    ///
    /// `AllocError`, as the contract allows. This implementation does not allocate.
    pub fn copy(&self) -> Result<Job<'p>, AllocError>
        ensures { IfOk result (λ job. job ≡ self.now) }
    {
        Ok(Job {
            arrays: self.arrays,
            site: self.site,
            phase: self.phase,
            place: self.place,
            first: self.first,
            work: self.work,
            vars: self.vars.copy()?,
            store: self.store.copy()?,
        })
    }
}

impl PartialEq for Job<'_> {
    ghost use Rattle.array_tree.specs.EqualLaws.{equal_laws};
    ghost use Rattle.array_jobs.specs.Jobs.{job_of};
    ghost use Rattle.array_jobs.specs.Equal.{job_eq};
    ghost use Rattle.array_jobs.specs.EqualLaws.{job_same, job_refl};

    ghost eq = { λ a b. job_eq (job_of a) (job_of b) };

    ghost laws = { equal_laws job_of job_eq job_same job_refl };

    fn eq(&self, other: &Job<'_>) -> bool
        ensures tested { result ≡ job_eq (job_of self.now) (job_of other.now) }
        ensures same { IsTrue result ↔ (job_of self.now ≡ job_of other.now) }
    {
        same_job(self, other)
    }
}

// Equality itself, apart from the impl.
fn same_job(a: &Job, b: &Job) -> bool
    ensures { result ≡ job_eq (job_of a.now) (job_of b.now) }
{
    a.site == b.site
        && a.phase == b.phase
        && a.place == b.place
        && a.first == b.first
        && a.work == b.work
        && a.vars == b.vars
        && a.store == b.store
        && *a.arrays == *b.arrays
}
