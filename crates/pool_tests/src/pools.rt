//! Pools of the two branches, which play scripts.
use crate::moves::Got::*;
use crate::moves::Move::*;
use crate::moves::{Got, Move, Played, Wrong, calls_back, came, entered, first_wrong, was};
use array_eval::Overlay;
use array_jobs::copy_jobs;
use array_tree::Program;
use contexts::Paused;
use forkjoin_sched::{Pool, PoolWork};
use sample_programs::{
    BOTH_BRANCHES, TWO_BRANCHES, first_jobs, outcome_of, parsed, piece_at, waiting,
};
use sched_api::Scheduler;
use std::alloc::Global;
use std::test::Fail;
use step_eval::StepMachine;

/// A pool of the two branches.
pub fn pool_of<'p>(alloc: Global, program: &'p Program) -> Result<Pool<'p>, Fail> {
    let jobs = first_jobs(alloc, program)?;
    Ok(Pool::new(alloc, jobs)?)
}

/// Puts a context back. Returns whether there was room.
pub fn unblocked<'p, S: Scheduler<Ctx = PoolWork<'p>>>(
    scheduler: &mut S,
    hold: S::Hold,
    context: Paused<StepMachine<'p>>,
) -> bool {
    match scheduler.unblock(hold, PoolWork::Ready(context)) {
        Ok(()) => true,
        Err(_) => false,
    }
}

// Puts a context back, with a machine for the pool's first job.
fn put_back<'p>(pool: &mut Pool<'p>, alloc: Global) -> Result<Got, Fail> {
    let context = waiting(alloc, pool.jobs())?;
    Ok(was(unblocked(pool, (), context)))
}

// Whether a context is taken as ready.
fn is_ready(pool: &mut Pool) -> bool {
    matches!(pool.take_ready(), Some(PoolWork::Ready(_)))
}

// Takes the last job, if it has this index.
fn last_taken(pool: &mut Pool, place: usize) -> Got {
    match pool.take_last(place) {
        Some(job) => Got::Begins(job.place),
        None => Got::Nothing,
    }
}

// Brings the piece of a job.
fn brought<'p>(pool: &mut Pool<'p>, alloc: Global, place: usize) -> Result<Got, Fail> {
    let piece = piece_at(alloc, pool.jobs(), place)?;
    Ok(came(outcome_of(pool.deposit(piece))))
}

impl<'p> Played<()> for Pool<'p> {
    fn does(&mut self, hold: (), alloc: Global, it: Move) -> Result<Got, Fail> {
        match it {
            Move::Enter => Ok(entered(self, hold)),
            Move::PutBack => put_back(self, alloc),
            Move::CountReady => Ok(Got::Count(self.ready_count())),
            Move::TakeReady => Ok(was(is_ready(self))),
            Move::TakeLast(place) => Ok(last_taken(self, place)),
            Move::Bring(place) => brought(self, alloc, place),
            _ => Ok(calls_back(self, hold, it)),
        }
    }
}

// The writes of a full pool. A failed pool, and one that isn't full, return none.
fn taken(pool: Pool) -> Option<Overlay> {
    if !pool.is_full() {
        return None;
    }
    pool.take_all().ok()
}

// Whether there is an overlay, and if so, whether it has the writes of both branches.
fn writes_in(overlay: Option<Overlay>) -> Got {
    match overlay {
        Some(written) if written.pairs() == BOTH_BRANCHES.as_slice() => Got::BothBranches,
        Some(_) => Got::OtherWrites,
        None => Got::Nothing,
    }
}

/// What a pool returns at its end.
pub fn end_of(pool: Pool) -> Got {
    let failed = pool.has_failed();
    match (writes_in(taken(pool)), failed) {
        (Got::Nothing, true) => Got::NoWrites,
        (Got::BothBranches, true) => Got::OtherWrites,
        (written, _) => written,
    }
}

// The first wrong line of a script that a pool of the two branches plays.
fn wrong(alloc: Global, script: &[(Move, Got)]) -> Result<Option<Wrong>, Fail> {
    let program = parsed(alloc, TWO_BRANCHES)?;
    let mut pool = pool_of(alloc, &program)?;
    first_wrong(&mut pool, (), alloc, script)
}

const PIECES_THEN_WISHES: &[(Move, Got)] = &[
    (Request(2, 2), Yes),
    (Enter, Begins(0)),
    (Enter, Begins(1)),
    (Enter, Lends(2)),
    (Enter, Lends(2)),
    (Enter, Nothing),
];

#[test]
fn pieces_go_before_wishes(rt: HostRuntime) -> Result<(), Fail> {
    assert_eq!(rt; wrong(rt.alloc(), PIECES_THEN_WISHES)?, None);
    Ok(())
}

const CONTEXTS_THEN_PIECE: &[(Move, Got)] = &[
    (Block, Yes),
    (PutBack, Yes),
    (PutBack, Yes),
    (PutBack, No),
    (Enter, GoesOn),
    (Enter, GoesOn),
    (Enter, Begins(0)),
];

#[test]
fn ready_contexts_go_before_pieces(rt: HostRuntime) -> Result<(), Fail> {
    assert_eq!(rt; wrong(rt.alloc(), CONTEXTS_THEN_PIECE)?, None);
    Ok(())
}

const LAST_FIRST: &[(Move, Got)] = &[
    (TakeLast(0), Nothing),
    (TakeLast(1), Begins(1)),
    (TakeLast(1), Nothing),
    (TakeLast(0), Begins(0)),
    (PutBack, Yes),
    (CountReady, Count(1)),
    (TakeReady, Yes),
    (TakeReady, No),
    (Enter, Nothing),
];

#[test]
fn the_last_job_is_taken_by_its_place(rt: HostRuntime) -> Result<(), Fail> {
    assert_eq!(rt; wrong(rt.alloc(), LAST_FIRST)?, None);
    Ok(())
}

const PIECES_THEN_ONE_WISH: &[(Move, Got)] = &[
    (Request(2, 2), Yes),
    (Enter, Begins(0)),
    (Enter, Begins(1)),
    (Enter, Lends(2)),
    (Enter, Nothing),
];

// The first wrong line of a script that a pool with room for one wish plays.
fn wrong_with_one_wish(alloc: Global, script: &[(Move, Got)]) -> Result<Option<Wrong>, Fail> {
    let program = parsed(alloc, TWO_BRANCHES)?;
    let jobs = first_jobs(alloc, &program)?;
    let mut pool = Pool::with_wishes(alloc, jobs, 1)?;
    first_wrong(&mut pool, (), alloc, script)
}

#[test]
fn a_wish_beyond_the_room_is_dropped(rt: HostRuntime) -> Result<(), Fail> {
    assert_eq!(rt;
        wrong_with_one_wish(rt.alloc(), PIECES_THEN_ONE_WISH)?,
        None
    );
    Ok(())
}

const BOTH_PIECES: &[(Move, Got)] = &[(IsAt(1), Yes), (Bring(1), Kept), (Bring(0), Kept)];

// What a pool of the two branches returns at its end, if it plays this script.
fn end_after(alloc: Global, script: &[(Move, Got)]) -> Result<Got, Fail> {
    let program = parsed(alloc, TWO_BRANCHES)?;
    let mut pool = pool_of(alloc, &program)?;
    match first_wrong(&mut pool, (), alloc, script)? {
        Some(_) => Ok(Got::NoMove),
        None => Ok(end_of(pool)),
    }
}

#[test]
fn a_full_pool_gives_the_writes_of_all(rt: HostRuntime) -> Result<(), Fail> {
    assert_eq!(rt; wrong(rt.alloc(), BOTH_PIECES)?, None);
    assert_eq!(rt; end_after(rt.alloc(), BOTH_PIECES)?, BothBranches);
    Ok(())
}
