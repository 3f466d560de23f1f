//! Two harts on threads that run one pipe, each by hands of its own.
use crate::hands::shared_pipe;
use crate::harts::end_of;
use crate::moves::Got;
use crate::samples::TWO_STEPS;
use array_jobs::{Job, piece_of};
use pipe_sched::{PipeHand, PipeWork, SharedPipe};
use sample_programs::parsed;
use sched_api::{Next, Scheduler};
use std::alloc::Global;
use std::sync::Wait;
use std::test::Fail;
use std::thread::{Threads, for_each_mut};

// Runs a piece, and brings it.
fn run_piece<'a, 'p, R: Wait + 'a>(
    rt: &'a R,
    hand: &PipeHand<'a, 'p, R>,
    alloc: Global,
    job: Job<'p>,
) {
    let (member, phase) = (job.place, job.phase);
    match piece_of(alloc, job) {
        Ok(piece) => {
            let _ = hand.deposit(rt, piece);
        }
        Err(_) => hand.fail(rt, member, phase),
    }
}

// Runs pieces until the pipe is full.
fn run_pieces<'x, 'p: 'x, R: Wait>(rt: &'x R, shared: &'x SharedPipe<'p>, alloc: Global) {
    let mut hand = PipeHand::new(shared);
    for _ in rt.forever() {
        if hand.is_full(rt) {
            return;
        }
        if let Next::Run(PipeWork::Begin(job)) = hand.enter(rt) {
            run_piece(rt, &hand, alloc, job);
        }
    }
}

// A hart, with the pipe that all harts share.
#[derive(Drop)]
struct Runner<'x, 'p> {
    shared: &'x SharedPipe<'p>,
}

// All harts run at once.
fn run_by_all<'x, 'p: 'x, R: Threads + Wait + Sync>(
    rt: &'x R,
    alloc: Global,
    runners: &mut [Runner<'x, 'p>],
) {
    for_each_mut(
        rt,
        runners,
        2,
        &|_, runner| run_pieces(rt, runner.shared, alloc),
    );
}

// Runs a pipe by two harts.
fn run_by_two<'x, 'p: 'x, R: Threads + Wait + Sync>(
    rt: &'x R,
    alloc: Global,
    shared: &'x SharedPipe<'p>,
) {
    let mut runners = [Runner { shared }, Runner { shared }];
    run_by_all(rt, alloc, runners.as_mut_slice());
}

// Hands a pipe out. Returns whether it has the writes of all its pieces.
fn gives_all<'x, 'p: 'x, R: Wait>(rt: &'x R, shared: &'x SharedPipe<'p>) -> bool {
    let hand = PipeHand::new(shared);
    match hand.take_out(rt) {
        Some(pipe) => end_of(pipe) == Got::BothSteps,
        None => false,
    }
}

// Whether a pipe that two harts run has the writes of all its pieces.
fn is_run_whole<R: Threads + Wait + Sync>(rt: &R, alloc: Global) -> Result<bool, Fail> {
    let program = parsed(alloc, TWO_STEPS)?;
    let shared = shared_pipe(alloc, &program)?;
    run_by_two(rt, alloc, &shared);
    Ok(gives_all(rt, &shared))
}

#[test]
fn two_threads_run_a_pipe_to_its_end(rt: HostRuntime) -> Result<(), Fail> {
    for _turn in 0..20 {
        assert!(rt; is_run_whole(&rt, rt.alloc())?);
    }
    Ok(())
}
