//! Pipes of three members with two phases, which play scripts.
use crate::harts::{end_of, next_piece, pipe_of, put_back};
use crate::moves::Got::*;
use crate::moves::Move::*;
use crate::moves::{Got, Move, Played, Wrong, calls_back, came, entered, first_wrong, was};
use crate::samples::TWO_STEPS;
use array_jobs::Job;
use pipe_sched::Pipe;
use sample_programs::{first_jobs, outcome_of, parsed, piece_at};
use sched_api::Scheduler;
use std::alloc::Global;
use std::test::Fail;

// Begins the piece that is due, and brings it.
fn filled(pipe: &mut Pipe, alloc: Global) -> Result<Got, Fail> {
    let piece = next_piece(pipe, (), alloc)?;
    Ok(came(outcome_of(pipe.deposit(piece))))
}

// Brings the piece of a job.
fn brought<'p>(
    pipe: &mut Pipe<'p>,
    alloc: Global,
    jobs: &[Job<'p>],
    place: usize,
) -> Result<Got, Fail> {
    let piece = piece_at(alloc, jobs, place)?;
    Ok(came(outcome_of(pipe.deposit(piece))))
}

// Beside the jobs of the first phase.
impl<'j, 'p> Played<&'j [Job<'p>]> for Pipe<'p> {
    fn does(&mut self, hold: &'j [Job<'p>], alloc: Global, it: Move) -> Result<Got, Fail> {
        match it {
            Move::Enter => Ok(entered(self, ())),
            Move::CountMembers => Ok(Got::Count(self.nested().members())),
            Move::PutBack => put_back(self, (), alloc, hold),
            Move::FillNext => filled(self, alloc),
            Move::Bring(place) => brought(self, alloc, hold, place),
            Move::HasFailed => Ok(was(self.has_failed())),
            Move::IsFull => Ok(was(self.is_full())),
            _ => Ok(calls_back(self, (), it)),
        }
    }
}

// The first wrong line of a script.
fn wrong(alloc: Global, script: &[(Move, Got)]) -> Result<Option<Wrong>, Fail> {
    let program = parsed(alloc, TWO_STEPS)?;
    let jobs = first_jobs(alloc, &program)?;
    let mut pipe = pipe_of(alloc, &program)?;
    first_wrong(&mut pipe, jobs.as_slice(), alloc, script)
}

// What a pipe returns at its end, if it plays this script.
fn end_after(alloc: Global, script: &[(Move, Got)]) -> Result<Got, Fail> {
    let program = parsed(alloc, TWO_STEPS)?;
    let jobs = first_jobs(alloc, &program)?;
    let mut pipe = pipe_of(alloc, &program)?;
    match first_wrong(&mut pipe, jobs.as_slice(), alloc, script)? {
        Some(_) => Ok(Got::NoMove),
        None => Ok(end_of(pipe)),
    }
}

const WHAT_IS_DUE: &[(Move, Got)] = &[
    (Enter, Begins(0, 0)),
    (Enter, Nothing),
    (Bring(0), Kept),
    (Enter, Begins(0, 1)),
    (Enter, Begins(1, 0)),
    (Enter, Nothing),
];

#[test]
fn a_hart_finds_what_is_due(rt: HostRuntime) -> Result<(), Fail> {
    assert_eq!(rt; wrong(rt.alloc(), WHAT_IS_DUE)?, None);
    Ok(())
}

const TO_THE_END: &[(Move, Got)] = &[
    (IsFull, No),
    (FillNext, Kept),
    (IsFull, No),
    (FillNext, Kept),
    (IsFull, No),
    (FillNext, Kept),
    (IsFull, No),
    (FillNext, Kept),
    (IsFull, No),
    (FillNext, Kept),
    (IsFull, No),
    (FillNext, Kept),
    (HasFailed, No),
];

#[test]
fn a_hart_runs_a_pipe_to_its_end(rt: HostRuntime) -> Result<(), Fail> {
    assert_eq!(rt; wrong(rt.alloc(), TO_THE_END)?, None);
    assert_eq!(rt; end_after(rt.alloc(), TO_THE_END)?, BothSteps);
    Ok(())
}

const ALL_KINDS: &[(Move, Got)] = &[
    (Request(2, 1), Yes),
    (Request(5, 1), Yes),
    (Unregister(2), Yes),
    (PutBack, Yes),
    (Enter, GoesOn),
    (Enter, Begins(0, 0)),
    (Enter, Lends(5)),
    (Enter, Nothing),
];

#[test]
fn contexts_go_before_pieces_and_pieces_before_wishes(rt: HostRuntime) -> Result<(), Fail> {
    assert_eq!(rt; wrong(rt.alloc(), ALL_KINDS)?, None);
    Ok(())
}

const ROOM_FOR_SIX: &[(Move, Got)] = &[
    (PutBack, Yes),
    (PutBack, Yes),
    (PutBack, Yes),
    (PutBack, Yes),
    (PutBack, Yes),
    (PutBack, Yes),
    (PutBack, No),
];

#[test]
fn there_is_room_for_a_context_of_each_piece(rt: HostRuntime) -> Result<(), Fail> {
    assert_eq!(rt; wrong(rt.alloc(), ROOM_FOR_SIX)?, None);
    Ok(())
}

const KEPT_ONCE: &[(Move, Got)] = &[(Bring(0), Stranger), (FillNext, Kept), (Bring(0), Double)];

#[test]
fn a_pipe_keeps_a_piece_once(rt: HostRuntime) -> Result<(), Fail> {
    assert_eq!(rt; wrong(rt.alloc(), KEPT_ONCE)?, None);
    Ok(())
}

const RECEIPTS: &[(Move, Got)] = &[
    (IsAt(1), Yes),
    (CountMembers, Count(3)),
    (Register(3), Yes),
    (Request(3, 1), Yes),
    (Yielded(3), Yes),
    (Unregister(3), Yes),
    (Block, Yes),
];

#[test]
fn a_pipe_returns_a_receipt_of_each_call(rt: HostRuntime) -> Result<(), Fail> {
    assert_eq!(rt; wrong(rt.alloc(), RECEIPTS)?, None);
    Ok(())
}
