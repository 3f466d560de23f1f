//! Pieces that start from another store than a pool's jobs.
use crate::hands::{deposited, own_rows, shared_pool};
use crate::pools::pool_of;
use array_jobs::{Job, Piece, body_job, copy_jobs};
use array_tree::Program;
use contexts::Step;
use forkjoin_sched::{Pool, PoolHand};
use sample_programs::{Came, TWO_BRANCHES, accepted, outcome_of, parsed, piece_at};
use std::alloc::Global;
use std::sync::Wait;
use std::test::Fail;
use step_eval::{Found, Nested, StepMachine, jobs_of};

// The same two branches, after a write of another cell: their jobs differ from the others only in one cell of the store.
pub const AFTER_A_WRITE: &[u8] = b"array a[4]; a[3] = 1; par { { a[0] = 1; } { a[1] = 2; } }";

// The construct after that write.
fn construct<'p>(alloc: Global, program: &'p Program) -> Result<Nested<'p>, Fail> {
    let accepted = accepted(alloc, program)?;
    let mut machine = StepMachine::new(alloc, body_job(alloc, accepted.program())?)?;
    match machine.go() {
        Step::Nest(Found::Nest(nested)) => Ok(nested),
        _ => Err(Fail::new("no construct")),
    }
}

// The piece of its second branch.
pub fn second_piece<'p>(alloc: Global, program: &'p Program) -> Result<Piece<'p>, Fail> {
    let nested = construct(alloc, program)?;
    // Why: reading its phases makes the construct's invariant known.
    let _phases = nested.phases();
    let jobs = jobs_of(alloc, &nested, 0, &nested.store)?;
    piece_at(alloc, &jobs, 1)
}

// Deposits that piece, then the piece of the pool's own second job, then that piece again. Returns the results.
fn deposits<'a, 'p, R: Wait + 'a>(
    rt: &'a R,
    hand: &PoolHand<'a, '_, 'p, R>,
    alloc: Global,
    other: &'p Program,
) -> Result<[Came; 3], Fail> {
    let first = deposited(rt, hand, second_piece(alloc, other)?);
    let own = deposited(rt, hand, piece_at(alloc, hand.shared.jobs(), 1)?);
    let last = deposited(rt, hand, second_piece(alloc, other)?);
    Ok([first, own, last])
}

// Whether a hand distinguishes it from the pool's own piece, whose slot it leaves open.
fn is_reported_by_a_hand<R: Wait>(rt: &R, alloc: Global) -> Result<bool, Fail> {
    let program = parsed(alloc, TWO_BRANCHES)?;
    let other = parsed(alloc, AFTER_A_WRITE)?;
    let shared = shared_pool(alloc, &program)?;
    let mut rows = own_rows(alloc)?;
    let hand = PoolHand::new(&shared, &mut rows, 0, 1);
    let came = deposits(rt, &hand, alloc, &other)?;
    Ok(came == [Came::Stranger, Came::Kept, Came::Stranger])
}

#[test]
fn a_piece_from_another_store_is_a_stranger_to_a_hand(rt: HostRuntime) -> Result<(), Fail> {
    assert!(rt; is_reported_by_a_hand(&rt, rt.alloc())?);
    Ok(())
}

// Whether a pool then has its own first job and another second one.
fn has_another_second(pool: &Pool, own: &[Job]) -> bool {
    match (pool.jobs(), own) {
        ([first, second], [own_first, own_second]) => first == own_first && second != own_second,
        _ => false,
    }
}

// Puts it into a pool twice. Returns whether it is kept once, with its job.
fn is_put_in<'p>(pool: &mut Pool<'p>, alloc: Global, other: &'p Program) -> Result<bool, Fail> {
    let own = copy_jobs(alloc, pool.jobs())?;
    let first = outcome_of(pool.put(second_piece(alloc, other)?));
    let again = outcome_of(pool.put(second_piece(alloc, other)?));
    Ok(first == Came::Kept && again == Came::Double && has_another_second(pool, &own))
}

// The same for a pool of the two branches.
fn brings_its_job(alloc: Global) -> Result<bool, Fail> {
    let program = parsed(alloc, TWO_BRANCHES)?;
    let other = parsed(alloc, AFTER_A_WRITE)?;
    let mut pool = pool_of(alloc, &program)?;
    is_put_in(&mut pool, alloc, &other)
}

#[test]
fn a_piece_that_is_put_in_brings_its_job(rt: HostRuntime) -> Result<(), Fail> {
    assert!(rt; brings_its_job(rt.alloc())?);
    Ok(())
}
