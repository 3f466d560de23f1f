//! Groups of jobs.
ghost use Rattle.std.specs.Prelude.{◌≡◌, IfOk};

use crate::job::Job;
use std::alloc::{AllocError, Global};

/// Equal jobs, in the same order.
///
/// # Errors
///
/// `AllocError` if an allocation fails.
///
/// # Memory
///
/// It allocates a list. Variables and stores are shared.
pub fn copy_jobs<'p>(alloc: Global, jobs: &[Job<'p>]) -> Result<Vec<Job<'p>>, AllocError>
    ensures { IfOk result (λ copies. copies.items ≡ jobs.now) }
{
    let mut copies = Vec::new(alloc);
    for job in jobs {
        copies.push(job.copy()?)?;
    }
    Ok(copies)
}
