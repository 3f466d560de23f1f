//! The body of a program.
ghost use Rattle.std.specs.Prelude.{◌≡◌, IfOk};
ghost use Rattle.array_tree.specs.Trees.{program_of};
ghost use Rattle.array_meaning.specs.Accepted.{IsAccepted};
ghost use Rattle.array_jobs.specs.Jobs.{job_of};
ghost use Rattle.array_jobs.specs.Bodies.{body_of};

use crate::job::Job;
use crate::work::Work;
use array_eval::{Store, Vars, count_cells};
use array_tree::Program;
use std::alloc::{AllocError, Global};

/// The body of a program as the one piece of site 0, the base: it starts from zeros, and the first site inside it is 1. The
/// program must meet all conditions, as an accepted one does.
///
/// # Errors
///
/// `AllocError` if an allocation fails.
///
/// # Memory
///
/// It allocates a store of zeros.
pub fn body_job<'p>(alloc: Global, program: &'p Program) -> Result<Job<'p>, AllocError>
    requires { IsAccepted (program_of program.now) }
    ensures { IfOk result (λ job. job_of job ≡ body_of (program_of program.now)) }
{
    Ok(Job {
        arrays: &program.arrays,
        site: 0,
        phase: 0,
        place: 0,
        first: 1,
        work: Work::Branch(&program.body),
        vars: Vars::empty(alloc),
        store: Store::zero(alloc, count_cells(&program.arrays) as u16)?,
    })
}
