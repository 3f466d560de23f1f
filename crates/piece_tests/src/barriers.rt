//! Barriers.

use array_jobs::{Job, copy_jobs};
use array_tree::Program;
use lithe_barrier::{Arrival, BarrierState, LitheBarrier};
use sample_programs::{FIRST_PHASE, TWO_PHASES, first_jobs, parsed, piece_at};
use std::alloc::Global;
use std::sync::Wait;
use std::test::Fail;
use std::thread::Threads;

// The result of an arrival: whether it opened with the writes of the first phase, or else whether the piece was kept.
fn outcome_of(arrival: Arrival) -> Result<bool, bool> {
    match arrival {
        Arrival::Opened(written) => Ok(written.pairs() == FIRST_PHASE.as_slice()),
        Arrival::Kept => Err(true),
        Arrival::Stranger(_) => Err(false),
    }
}

// A barrier for the first jobs of a program, and copies of the jobs.
fn begun<'p>(
    alloc: Global,
    program: &'p Program,
) -> Result<(BarrierState<'p>, Vec<Job<'p>>), Fail> {
    let jobs = first_jobs(alloc, program)?;
    let copies = copy_jobs(alloc, &jobs)?;
    Ok((BarrierState::new(alloc, jobs)?, copies))
}

// Brings the piece of one of the jobs.
fn bring<'p>(
    barrier: &mut BarrierState<'p>,
    alloc: Global,
    jobs: &[Job<'p>],
    place: usize,
) -> Result<Result<bool, bool>, Fail> {
    let piece = piece_at(alloc, jobs, place)?;
    Ok(outcome_of(barrier.arrive(piece)))
}

// Whether the barrier keeps the pieces of two members, each once, opens with the third, and takes it once.
fn opens_with_the_last<'p>(
    barrier: &mut BarrierState<'p>,
    alloc: Global,
    jobs: &[Job<'p>],
) -> Result<bool, Fail> {
    Ok(
        bring(barrier, alloc, jobs, 1)? == Err(true)
            && bring(barrier, alloc, jobs, 1)? == Err(false)
            && bring(barrier, alloc, jobs, 2)? == Err(true)
            && bring(barrier, alloc, jobs, 0)? == Ok(true)
            && bring(barrier, alloc, jobs, 0)? == Err(false),
    )
}

#[test]
fn a_barrier_opens_with_the_last_member(rt: HostRuntime) -> Result<(), Fail> {
    let alloc = rt.alloc();
    let program = parsed(alloc, TWO_PHASES)?;
    let (mut barrier, copies) = begun(alloc, &program)?;
    assert!(rt; opens_with_the_last(&mut barrier, alloc, &copies)?);
    Ok(())
}

// Brings the piece of one of the jobs to a barrier that is shared.
fn bring_shared<'p, R: Threads + Wait + Sync>(
    rt: &R,
    barrier: &LitheBarrier<'p>,
    alloc: Global,
    jobs: &[Job<'p>],
    place: usize,
) -> Result<Result<bool, bool>, Fail> {
    let piece = piece_at(alloc, jobs, place)?;
    Ok(outcome_of(barrier.arrive(rt, piece)))
}

// Whether a shared barrier keeps the pieces of two members, each once, and opens with the third.
fn opens_when_shared<'p, R: Threads + Wait + Sync>(
    rt: &R,
    barrier: &LitheBarrier<'p>,
    alloc: Global,
    jobs: &[Job<'p>],
) -> Result<bool, Fail> {
    Ok(
        bring_shared(rt, barrier, alloc, jobs, 1)? == Err(true)
            && bring_shared(rt, barrier, alloc, jobs, 1)? == Err(false)
            && bring_shared(rt, barrier, alloc, jobs, 2)? == Err(true)
            && bring_shared(rt, barrier, alloc, jobs, 0)? == Ok(true),
    )
}

#[test]
fn a_shared_barrier_does_the_same(rt: HostRuntime) -> Result<(), Fail> {
    let alloc = rt.alloc();
    let program = parsed(alloc, TWO_PHASES)?;
    let (state, copies) = begun(alloc, &program)?;
    let barrier = LitheBarrier::new(state);
    assert!(rt; opens_when_shared(&rt, &barrier, alloc, &copies)?);
    Ok(())
}
