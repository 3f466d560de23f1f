//! Whether lists of jobs are equal, and the store from which the jobs of a list start.
ghost use Rattle.std.specs.Prelude.{◌≡◌, ◌↔◌, IfSome, IsTrue, map, option_map};
ghost use Rattle.array_jobs.specs.Jobs.{job_of};
ghost use Rattle.forkjoin_sched.specs.Pools.{HaveOneStart, HaveSameStart, StartFrom, start_of};
ghost use Rattle.forkjoin_sched.specs.Rests.{rest_eq};

use array_eval::Store;
use array_jobs::Job;

/// The store from which all jobs start, if that is known. `None` also if there is no job.
pub(crate) fn known_start<'a>(jobs: &'a [Job], is_known: bool) -> Option<&'a Store>
    requires { IsTrue is_known → HaveOneStart jobs.now }
    ensures known { option_map (λ start. start.now) result ≡ start_of is_known jobs.now }
    ensures all { IfSome result (λ start. StartFrom start.now jobs.now) }
{
    if !is_known {
        return None;
    }
    match jobs.first() {
        Some(job) => Some(&job.store),
        None => None,
    }
}

/// Whether jobs are equal, each to the one at its index.
pub(crate) fn have_same_jobs(xs: &[Job], ys: &[Job]) -> bool
    ensures { IsTrue result ↔ (map job_of xs.now ≡ map job_of ys.now) }
{
    xs == ys
}

/// Whether jobs that all start from one store are equal, each to the one at its index. No stores are compared.
pub(crate) fn have_same_work(xs: &[Job], ys: &[Job]) -> bool
    requires { HaveSameStart xs.now ys.now }
    ensures { IsTrue result ↔ (map job_of xs.now ≡ map job_of ys.now) }
{
    if xs.len() != ys.len() {
        return false;
    }
    for number in 0..xs.len() {
        if !is_same_work(&xs[number], &ys[number]) {
            return false;
        }
    }
    true
}

// Whether two jobs that start from one store are equal.
fn is_same_work(a: &Job, b: &Job) -> bool
    requires { a.now.store ≡ b.now.store }
    ensures { IsTrue result ↔ (job_of a.now ≡ job_of b.now) }
{
    has_same_rest(a, b)
}

// Whether two jobs are equal but for their stores.
fn has_same_rest(a: &Job, b: &Job) -> bool
    ensures { result ≡ rest_eq (job_of a.now) (job_of b.now) }
{
    a.site == b.site
        && a.phase == b.phase
        && a.place == b.place
        && a.first == b.first
        && a.work == b.work
        && a.vars == b.vars
        && *a.arrays == *b.arrays
}
