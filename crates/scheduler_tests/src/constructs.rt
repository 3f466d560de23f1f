//! The constructs in the two branches of a program, with their schedulers.

use crate::steps::Child;
use array_jobs::{Job, Piece, piece_of};
use array_tree::Program;
use contexts::{Machine, Step};
use forkjoin_sched::{Pool, PoolWork};
use lithe_barrier::Arrival;
use loop_team::{Team, TeamWork};
use sample_programs::{Came, first_jobs, outcome_of};
use sched_api::Next;
use std::alloc::Global;
use std::test::Fail;
use step_eval::{Found, Kind, Nested, StepMachine, jobs_of};

/// A `par` at site 1, with a `par` at site 2 in its first branch and a `team` at site 3 in its second.
pub const TWO_CONSTRUCTS: &[u8] = b"array a[4]; array b[6]; par {
    { par { { a[0] = 1; } { a[1] = 2; } { a[2] = 3; } } }
    { team i in 0..6 by 3 { b[i] = i + 1; } }
}";

/// The writes of the branches of the inner `par`, each of one cell.
pub const BY_BRANCHES: [[(u16, i64); 1]; 3] = [[(0, 1)], [(1, 2)], [(2, 3)]];

/// The writes of the members of the `team`.
pub const BY_MEMBERS: [[(u16, i64); 2]; 3] = [[(4, 1), (5, 2)], [(6, 3), (7, 4)], [(8, 5), (9, 6)]];

// The construct with which a job begins.
fn construct_of<'p>(alloc: Global, job: &Job<'p>) -> Result<Nested<'p>, Fail> {
    let mut machine = StepMachine::new(alloc, job.copy()?)?;
    match machine.step() {
        Step::Nest(Found::Nest(nested)) => Ok(nested),
        _ => Err(Fail::new("no construct")),
    }
}

// The construct with which a branch begins.
fn construct_in<'p>(
    alloc: Global,
    program: &'p Program,
    branch: usize,
) -> Result<Nested<'p>, Fail> {
    let jobs = first_jobs(alloc, program)?;
    match jobs.get(branch) {
        Some(job) => construct_of(alloc, job),
        None => Err(Fail::new("no such branch")),
    }
}

/// The pool of the first branch.
///
/// # Errors
///
/// A failure of the test if an allocation fails.
pub fn pool_in<'p>(alloc: Global, program: &'p Program) -> Result<Pool<'p>, Fail> {
    let nested = construct_in(alloc, program, 0)?;
    // Why: reading its phases makes it known that the construct has a first phase.
    let _phases = nested.phases();
    let jobs = jobs_of(alloc, &nested, 0, &nested.store)?;
    Ok(Pool::new(alloc, jobs)?)
}

/// The team of the second branch.
///
/// # Errors
///
/// A failure of the test if an allocation fails.
pub fn team_in<'p>(alloc: Global, program: &'p Program) -> Result<Team<'p>, Fail> {
    let nested = construct_in(alloc, program, 1)?;
    match nested.kind() {
        Kind::Team => Ok(Team::new(alloc, nested)?),
        Kind::Par => Err(Fail::new("it is a par")),
    }
}

// The piece of the job, if it writes these cells.
fn piece_with<'p>(alloc: Global, job: Job<'p>, writes: &[(u16, i64)]) -> Option<Piece<'p>> {
    match piece_of(alloc, job) {
        Ok(piece) if piece.written.pairs() == writes => Some(piece),
        _ => None,
    }
}

impl<'p> Child for Pool<'p> {
    fn bring(&mut self, alloc: Global, next: Next<PoolWork<'p>>, writes: &[(u16, i64)]) -> bool {
        let Next::Run(PoolWork::Begin(job)) = next else {
            return false;
        };
        match piece_with(alloc, job, writes) {
            Some(piece) => outcome_of(self.deposit(piece)) == Came::Kept,
            None => false,
        }
    }

    fn is_finished(&self) -> bool {
        self.is_full() && !self.has_failed()
    }
}

// Whether the barrier took the piece.
fn is_taken(arrival: Arrival) -> bool {
    match arrival {
        Arrival::Kept | Arrival::Opened(_) => true,
        Arrival::Stranger(_) => false,
    }
}

impl<'p> Child for Team<'p> {
    fn bring(&mut self, alloc: Global, next: Next<TeamWork<'p>>, writes: &[(u16, i64)]) -> bool {
        let Next::Run(TeamWork::Begin(job)) = next else {
            return false;
        };
        let Some(piece) = piece_with(alloc, job, writes) else {
            return false;
        };
        match self.arrive(piece) {
            Ok(arrival) => is_taken(arrival),
            Err(_) => false,
        }
    }

    fn is_finished(&self) -> bool {
        self.is_over() && !self.has_failed()
    }
}
