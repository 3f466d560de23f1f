//! The state of a pipeline of three members with two phases, which plays scripts.
use crate::harts::writes_in;
use crate::moves::Got::*;
use crate::moves::Move::*;
use crate::moves::{Got, Move, Played, Wrong, came, first_wrong, was};
use crate::samples::TWO_STEPS;
use array_jobs::{Job, Piece, piece_of};
use array_tree::Program;
use pipe_sched::PipeState;
use sample_programs::{first_construct, first_jobs, outcome_of, parsed, piece_at};
use std::alloc::Global;
use std::test::Fail;
use step_eval::Kind;

// A pipeline, and a piece that a hart keeps.
#[derive(Drop)]
struct Line<'p> {
    state: PipeState<'p>,
    kept: Option<Piece<'p>>,
}

// The pipeline of a program that begins with a `team`.
fn line_of<'p>(alloc: Global, program: &'p Program) -> Result<Line<'p>, Fail> {
    let nested = first_construct(alloc, program)?;
    match nested.kind() {
        Kind::Team => Ok(Line {
            state: PipeState::new(alloc, nested)?,
            kept: None,
        }),
        Kind::Par => Err(Fail::new("it is a par")),
    }
}

// Hands out the piece that is due.
fn handed_out(state: &mut PipeState) -> Result<Got, Fail> {
    match state.next()? {
        Some(job) => Ok(Got::Begins(job.place, job.phase)),
        None => Ok(Got::Nothing),
    }
}

// The piece that it hands out.
fn next_piece<'p>(alloc: Global, state: &mut PipeState<'p>) -> Result<Piece<'p>, Fail> {
    match state.next()? {
        Some(job) => Ok(piece_of(alloc, job)?),
        None => Err(Fail::new("no piece is due")),
    }
}

// Hands out the piece that is due, and fills it.
fn filled(alloc: Global, state: &mut PipeState) -> Result<Got, Fail> {
    let piece = next_piece(alloc, state)?;
    Ok(came(outcome_of(state.deposit(piece))))
}

// Fills the piece of a job.
fn brought<'p>(
    state: &mut PipeState<'p>,
    alloc: Global,
    jobs: &[Job<'p>],
    place: usize,
) -> Result<Got, Fail> {
    let piece = piece_at(alloc, jobs, place)?;
    Ok(came(outcome_of(state.deposit(piece))))
}

// Fails the piece that it hands out.
fn failed(state: &mut PipeState) -> Result<Got, Fail> {
    match state.next()? {
        Some(job) => {
            state.fail(job.place, job.phase);
            Ok(Got::Yes)
        }
        None => Ok(Got::No),
    }
}

// Hands out the piece that is due, and keeps it.
fn keep_next(alloc: Global, line: &mut Line) -> Result<Got, Fail> {
    let piece = next_piece(alloc, &mut line.state)?;
    let got = Got::Begins(piece.job.place, piece.job.phase);
    line.kept = Some(piece);
    Ok(got)
}

// Fills the piece that is kept.
fn bring_kept(line: &mut Line) -> Got {
    match line.kept.take() {
        Some(piece) => came(outcome_of(line.state.deposit(piece))),
        None => Got::Nothing,
    }
}

// Beside the jobs of the first phase.
impl<'j, 'p> Played<&'j [Job<'p>]> for Line<'p> {
    fn does(&mut self, hold: &'j [Job<'p>], alloc: Global, it: Move) -> Result<Got, Fail> {
        match it {
            Move::Enter => handed_out(&mut self.state),
            Move::FillNext => filled(alloc, &mut self.state),
            Move::KeepNext => keep_next(alloc, self),
            Move::BringKept => Ok(bring_kept(self)),
            Move::Bring(place) => brought(&mut self.state, alloc, hold, place),
            Move::FailNext => failed(&mut self.state),
            Move::IsFull => Ok(was(self.state.is_full())),
            _ => Ok(Got::NoMove),
        }
    }
}

// The first wrong line of a script.
fn wrong(alloc: Global, script: &[(Move, Got)]) -> Result<Option<Wrong>, Fail> {
    let program = parsed(alloc, TWO_STEPS)?;
    let jobs = first_jobs(alloc, &program)?;
    let mut line = line_of(alloc, &program)?;
    first_wrong(&mut line, jobs.as_slice(), alloc, script)
}

// What a pipeline returns at its end.
fn end_of(line: Line) -> Got {
    let Line { state, kept: _ } = line;
    if !state.is_full() {
        return Got::No;
    }
    writes_in(state.take_all().ok())
}

// The same if it plays this script.
fn end_after(alloc: Global, script: &[(Move, Got)]) -> Result<Got, Fail> {
    let program = parsed(alloc, TWO_STEPS)?;
    let jobs = first_jobs(alloc, &program)?;
    let mut line = line_of(alloc, &program)?;
    match first_wrong(&mut line, jobs.as_slice(), alloc, script)? {
        Some(_) => Ok(Got::NoMove),
        None => Ok(end_of(line)),
    }
}

const OVERTAKES: &[(Move, Got)] = &[
    (KeepNext, Begins(0, 0)),
    (Enter, Nothing),
    (BringKept, Kept),
    (Enter, Begins(0, 1)),
    (Enter, Begins(1, 0)),
    (Enter, Nothing),
];

#[test]
fn a_member_overtakes_those_above_it(rt: HostRuntime) -> Result<(), Fail> {
    assert_eq!(rt; wrong(rt.alloc(), OVERTAKES)?, None);
    Ok(())
}

const ANY_ORDER: &[(Move, Got)] = &[
    (FillNext, Kept),
    (KeepNext, Begins(0, 1)),
    (FillNext, Kept),
    (FillNext, Kept),
    (Enter, Nothing),
    (BringKept, Kept),
    (FillNext, Kept),
    (FillNext, Kept),
];

#[test]
fn pieces_come_back_in_any_order(rt: HostRuntime) -> Result<(), Fail> {
    assert_eq!(rt; wrong(rt.alloc(), ANY_ORDER)?, None);
    assert_eq!(rt; end_after(rt.alloc(), ANY_ORDER)?, BothSteps);
    Ok(())
}

const FAILS: &[(Move, Got)] = &[
    (FillNext, Kept),
    (KeepNext, Begins(0, 1)),
    (FailNext, Yes),
    (Enter, Nothing),
    (IsFull, No),
    (BringKept, Kept),
    (IsFull, Yes),
];

#[test]
fn what_comes_after_a_piece_that_failed_is_never_handed_out(rt: HostRuntime) -> Result<(), Fail> {
    assert_eq!(rt; wrong(rt.alloc(), FAILS)?, None);
    assert_eq!(rt; end_after(rt.alloc(), FAILS)?, Nothing);
    Ok(())
}

const KEPT_ONCE: &[(Move, Got)] = &[
    (Bring(0), Stranger),
    (Enter, Begins(0, 0)),
    (Bring(0), Kept),
    (Bring(0), Double),
    (Bring(1), Stranger),
];

#[test]
fn a_piece_is_kept_once(rt: HostRuntime) -> Result<(), Fail> {
    assert_eq!(rt; wrong(rt.alloc(), KEPT_ONCE)?, None);
    Ok(())
}
