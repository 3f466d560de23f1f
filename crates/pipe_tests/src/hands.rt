//! Pipes of three members with two phases that harts share: a hart's hand on one, which plays scripts.
use crate::harts::{end_of, next_piece, pipe_of, put_back};
use crate::moves::Got::*;
use crate::moves::Move::*;
use crate::moves::{Got, Move, Played, Wrong, calls_back, came, entered, first_wrong, was};
use crate::samples::TWO_STEPS;
use array_jobs::Job;
use array_tree::Program;
use pipe_sched::{PipeHand, SharedPipe};
use sample_programs::{first_jobs, outcome_of, parsed, piece_at};
use sched_api::Scheduler;
use std::alloc::Global;
use std::sync::Wait;
use std::test::Fail;

/// A shared pipe of a program that begins with a `team`.
pub fn shared_pipe<'p>(alloc: Global, program: &'p Program) -> Result<SharedPipe<'p>, Fail> {
    Ok(SharedPipe::new(alloc, pipe_of(alloc, program)?)?)
}

// Begins the piece that is due, and brings it.
fn filled<'a, 'p, R: Wait + 'a>(
    rt: &'a R,
    hand: &mut PipeHand<'a, 'p, R>,
    alloc: Global,
) -> Result<Got, Fail> {
    let piece = next_piece(hand, rt, alloc)?;
    Ok(came(outcome_of(hand.deposit(rt, piece))))
}

// Brings the piece of a job.
fn brought<'a, 'p, R: Wait + 'a>(
    rt: &'a R,
    hand: &PipeHand<'a, 'p, R>,
    alloc: Global,
    jobs: &[Job<'p>],
    place: usize,
) -> Result<Got, Fail> {
    let piece = piece_at(alloc, jobs, place)?;
    Ok(came(outcome_of(hand.deposit(rt, piece))))
}

// Reports that an allocation failed for a piece.
fn failed<'a, 'p, R: Wait + 'a>(
    rt: &'a R,
    hand: &PipeHand<'a, 'p, R>,
    member: u8,
    phase: u8,
) -> Got {
    hand.fail(rt, member, phase);
    Got::Yes
}

// Takes the pipe out, if it can be.
fn taken_out<'a, 'p, R: Wait + 'a>(rt: &'a R, hand: &PipeHand<'a, 'p, R>) -> Got {
    match hand.take_out(rt) {
        Some(pipe) => end_of(pipe),
        None => Got::No,
    }
}

// Beside the jobs of the first phase.
impl<'a, 'p, R: Wait + 'a> Played<(&'a R, &'a [Job<'p>])> for PipeHand<'a, 'p, R> {
    fn does(&mut self, hold: (&'a R, &'a [Job<'p>]), alloc: Global, it: Move) -> Result<Got, Fail> {
        let (rt, jobs) = hold;
        match it {
            Move::Enter => Ok(entered(self, rt)),
            Move::CountMembers => Ok(Got::Count(self.shared.nested().members())),
            Move::PutBack => put_back(self, rt, alloc, jobs),
            Move::FillNext => filled(rt, self, alloc),
            Move::Bring(place) => brought(rt, self, alloc, jobs, place),
            Move::Fail(member, phase) => Ok(failed(rt, self, member, phase)),
            Move::HasFailed => Ok(was(self.has_failed(rt))),
            Move::IsFull => Ok(was(self.is_full(rt))),
            Move::TakeOut => Ok(taken_out(rt, self)),
            _ => Ok(calls_back(self, rt, it)),
        }
    }
}

// The first wrong line of a script that a hand on this pipe plays, at one lifetime with the runtime.
fn wrong_by_hand<'x, 'p: 'x, R: Wait>(
    rt: &'x R,
    shared: &'x SharedPipe<'p>,
    alloc: Global,
    jobs: &'x [Job<'p>],
    script: &[(Move, Got)],
) -> Result<Option<Wrong>, Fail> {
    let mut hand = PipeHand::new(shared);
    first_wrong(&mut hand, (rt, jobs), alloc, script)
}

// The same of a hand on this pipe.
fn wrong_on<'p, R: Wait>(
    rt: &R,
    shared: &SharedPipe<'p>,
    alloc: Global,
    jobs: &[Job<'p>],
    script: &[(Move, Got)],
) -> Result<Option<Wrong>, Fail> {
    wrong_by_hand(rt, shared, alloc, jobs, script)
}

// The same of a hand on a shared pipe.
fn wrong<R: Wait>(rt: &R, alloc: Global, script: &[(Move, Got)]) -> Result<Option<Wrong>, Fail> {
    let program = parsed(alloc, TWO_STEPS)?;
    let jobs = first_jobs(alloc, &program)?;
    let shared = shared_pipe(alloc, &program)?;
    wrong_on(rt, &shared, alloc, &jobs, script)
}

const TO_THE_END: &[(Move, Got)] = &[
    (TakeOut, No),
    (IsFull, No),
    (FillNext, Kept),
    (TakeOut, No),
    (IsFull, No),
    (FillNext, Kept),
    (TakeOut, No),
    (IsFull, No),
    (FillNext, Kept),
    (TakeOut, No),
    (IsFull, No),
    (FillNext, Kept),
    (TakeOut, No),
    (IsFull, No),
    (FillNext, Kept),
    (TakeOut, No),
    (IsFull, No),
    (FillNext, Kept),
    (IsFull, Yes),
    (TakeOut, BothSteps),
];

#[test]
fn a_hand_runs_a_pipe_to_its_end(rt: HostRuntime) -> Result<(), Fail> {
    assert_eq!(rt; wrong(&rt, rt.alloc(), TO_THE_END)?, None);
    Ok(())
}

// The first member overtakes, after a ready context and before a wish.
const ALL_KINDS: &[(Move, Got)] = &[
    (FillNext, Kept),
    (Request(2, 1), Yes),
    (Request(5, 1), Yes),
    (Unregister(2), Yes),
    (PutBack, Yes),
    (Enter, GoesOn),
    (Enter, Begins(0, 1)),
    (Enter, Begins(1, 0)),
    (Enter, Lends(5)),
    (Enter, Nothing),
];

#[test]
fn a_hand_returns_what_the_pipe_returns(rt: HostRuntime) -> Result<(), Fail> {
    assert_eq!(rt; wrong(&rt, rt.alloc(), ALL_KINDS)?, None);
    Ok(())
}

// A piece fails that isn't due, then the one that is.
const OUT_ONCE: &[(Move, Got)] = &[
    (Fail(0, 1), Yes),
    (HasFailed, No),
    (IsFull, No),
    (Fail(0, 0), Yes),
    (HasFailed, Yes),
    (IsFull, Yes),
    (TakeOut, NoWrites),
    (Fail(0, 0), Yes),
    (TakeOut, No),
    (HasFailed, No),
    (IsFull, Yes),
];

#[test]
fn a_failed_pipe_is_handed_out_once(rt: HostRuntime) -> Result<(), Fail> {
    assert_eq!(rt; wrong(&rt, rt.alloc(), OUT_ONCE)?, None);
    Ok(())
}

const NOTHING_LEFT: &[(Move, Got)] = &[
    (Fail(0, 1), Yes),
    (HasFailed, No),
    (IsFull, No),
    (Fail(0, 0), Yes),
    (HasFailed, Yes),
    (IsFull, Yes),
    (TakeOut, NoWrites),
    (Enter, Nothing),
    (PutBack, No),
    (Bring(0), Stranger),
];

#[test]
fn nothing_is_left_of_a_pipe_that_is_handed_out(rt: HostRuntime) -> Result<(), Fail> {
    assert_eq!(rt; wrong(&rt, rt.alloc(), NOTHING_LEFT)?, None);
    Ok(())
}

// The receipts before and after the pipe is handed out.
const RECEIPTS: &[(Move, Got)] = &[
    (IsAt(1), Yes),
    (CountMembers, Count(3)),
    (Register(3), Yes),
    (Request(3, 1), Yes),
    (Yielded(3), Yes),
    (Unregister(3), Yes),
    (Block, Yes),
    (Fail(0, 1), Yes),
    (HasFailed, No),
    (IsFull, No),
    (Fail(0, 0), Yes),
    (HasFailed, Yes),
    (IsFull, Yes),
    (TakeOut, NoWrites),
    (Register(3), Yes),
    (Request(3, 1), Yes),
    (Yielded(3), Yes),
    (Unregister(3), Yes),
    (Block, Yes),
];

#[test]
fn a_hand_returns_a_receipt_of_each_call(rt: HostRuntime) -> Result<(), Fail> {
    assert_eq!(rt; wrong(&rt, rt.alloc(), RECEIPTS)?, None);
    Ok(())
}
