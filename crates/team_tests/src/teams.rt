//! Teams.

use crate::samples::{
    ALL_PHASES, CONTEXTS_THEN_MEMBERS, MEMBERS, MEMBERS_THEN_WISH, THIRD_PHASE, THREE_OF_FOUR,
    THREE_PHASES, begun, entered, finds, gives, gives_nothing, has_room, one_of_two_leaves,
    opened_by, returns_each_receipt, team_of,
};
use array_eval::Overlay;
use array_jobs::{Job, Piece};
use lithe_barrier::Arrival;
use loop_team::Team;
use sample_programs::{
    BOTH_PHASES, FIRST_PHASE, SECOND_PHASE, TWO_PHASES, first_jobs, parsed, piece_at,
};
use sched_api::Scheduler;
use scheduler_samples::Answer;
use std::alloc::Global;
use std::test::Fail;

// The checks of the tests.
#[derive(Clone, Copy)]
enum Look {
    Second,
    Third,
    Barrier,
    Wishes,
    Contexts,
    Stranger,
    Failed,
    Receipts,
}

// Whether this holds of a team, beside the jobs of its first phase.
fn holds_of<'p>(team: Team<'p>, alloc: Global, jobs: &[Job<'p>], look: Look) -> Result<bool, Fail> {
    match look {
        Look::Second => second_follows(team, alloc),
        Look::Third => third_follows(team, alloc),
        Look::Barrier => waits_between(team, alloc, jobs),
        Look::Wishes => Ok(members_go_first(team)),
        Look::Contexts => contexts_go_first(team, alloc, jobs),
        Look::Stranger => turns_away(team, alloc, jobs),
        Look::Failed => Ok(fails(team)),
        Look::Receipts => Ok(returns_all_receipts(team)),
    }
}

// Whether it holds of the team of a program that begins with one.
fn holds(alloc: Global, text: &[u8], look: Look) -> Result<bool, Fail> {
    let program = parsed(alloc, text)?;
    let jobs = first_jobs(alloc, &program)?;
    holds_of(team_of(alloc, &program)?, alloc, &jobs, look)
}

// Brings a piece. Returns the phase's writes, if it was the last one.
fn opened<'p>(team: &mut Team<'p>, piece: Piece<'p>) -> Result<Option<Overlay>, Fail> {
    opened_by(team.arrive(piece)?)
}

// Runs the member that begins next, which must be this one. Returns the phase's writes, if it was the last one.
fn run_member(
    team: &mut Team,
    alloc: Global,
    phase: u8,
    place: u8,
) -> Result<Option<Overlay>, Fail> {
    let piece = begun(team, (), alloc, phase, place)?;
    opened(team, piece)
}

// Runs the members of a phase in their order. Returns the phase's writes.
fn run_phase(team: &mut Team, alloc: Global, phase: u8, members: u8) -> Result<Overlay, Fail> {
    for place in 0..members {
        if let Some(written) = run_member(team, alloc, phase, place)? {
            return Ok(written);
        }
    }
    Err(Fail::new("it didn't open"))
}

// Runs the members of a phase in their order. Returns whether the phase has these writes.
fn writes(
    team: &mut Team,
    alloc: Global,
    phase: u8,
    members: u8,
    expected: &[(u16, i64)],
) -> Result<bool, Fail> {
    let written = run_phase(team, alloc, phase, members)?;
    Ok(written.pairs() == expected)
}

// Whether no hart finds anything.
fn is_idle(team: &mut Team) -> bool {
    entered(team, ()) == Answer::Nothing
}

// Runs two phases of three members. Returns whether each had the right writes, and the team was done only after the second.
fn runs_two(team: &mut Team, alloc: Global) -> Result<bool, Fail> {
    let first = writes(team, alloc, 0, 3, FIRST_PHASE.as_slice())?;
    let over = team.is_over();
    let second = writes(team, alloc, 1, 3, SECOND_PHASE.as_slice())?;
    Ok(first && !over && second)
}

// Runs two phases. Returns whether that leaves nothing to do, and the team has the writes of both.
fn second_follows(mut team: Team, alloc: Global) -> Result<bool, Fail> {
    let ran = runs_two(&mut team, alloc)?;
    let idle = is_idle(&mut team);
    let all = gives(team, BOTH_PHASES.as_slice());
    Ok(ran && idle && all)
}

#[test]
fn a_second_phase_follows_the_first(rt: HostRuntime) -> Result<(), Fail> {
    assert!(rt; holds(rt.alloc(), TWO_PHASES, Look::Second)?);
    Ok(())
}

// Runs three phases of two members. Returns whether the last one had the right writes, and the team wasn't done before it.
fn runs_three(team: &mut Team, alloc: Global) -> Result<bool, Fail> {
    run_phase(team, alloc, 0, 2)?;
    run_phase(team, alloc, 1, 2)?;
    let over = team.is_over();
    let third = writes(team, alloc, 2, 2, THIRD_PHASE.as_slice())?;
    Ok(!over && third)
}

// Runs three phases. Returns whether the team has the writes of all.
fn third_follows(mut team: Team, alloc: Global) -> Result<bool, Fail> {
    let ran = runs_three(&mut team, alloc)?;
    let all = gives(team, ALL_PHASES.as_slice());
    Ok(ran && all)
}

#[test]
fn a_third_phase_follows_the_second(rt: HostRuntime) -> Result<(), Fail> {
    assert!(rt; holds(rt.alloc(), THREE_PHASES, Look::Third)?);
    Ok(())
}

// Brings the piece of one of the jobs. Whether its phase opened.
fn opens<'p>(
    team: &mut Team<'p>,
    alloc: Global,
    jobs: &[Job<'p>],
    place: usize,
) -> Result<bool, Fail> {
    let piece = piece_at(alloc, jobs, place)?;
    Ok(opened(team, piece)?.is_some())
}

// Brings the piece of one of the jobs. Returns whether its phase doesn't open, and no member begins.
fn waits<'p>(
    team: &mut Team<'p>,
    alloc: Global,
    jobs: &[Job<'p>],
    place: usize,
) -> Result<bool, Fail> {
    let opens = opens(team, alloc, jobs, place)?;
    let idle = is_idle(team);
    Ok(!opens && idle)
}

// Brings the pieces of all three members. Returns whether no member begins before the last of them.
fn waits_for_all<'p>(team: &mut Team<'p>, alloc: Global, jobs: &[Job<'p>]) -> Result<bool, Fail> {
    let third = waits(team, alloc, jobs, 2)?;
    let first = waits(team, alloc, jobs, 0)?;
    let second = opens(team, alloc, jobs, 1)?;
    Ok(third && first && second)
}

// Runs the first phase. Returns whether its members and those of the second began, and no member in between.
fn waits_between<'p>(mut team: Team<'p>, alloc: Global, jobs: &[Job<'p>]) -> Result<bool, Fail> {
    let begins = finds(&mut team, (), MEMBERS);
    let waits = waits_for_all(&mut team, alloc, jobs)?;
    let begins_next = finds(&mut team, (), MEMBERS);
    Ok(begins && waits && begins_next)
}

#[test]
fn the_next_phase_waits_for_the_barrier(rt: HostRuntime) -> Result<(), Fail> {
    assert!(rt; holds(rt.alloc(), TWO_PHASES, Look::Barrier)?);
    Ok(())
}

// Whether members go before the wish of the remaining child.
fn members_go_first(mut team: Team) -> bool {
    one_of_two_leaves(&mut team, ());
    finds(&mut team, (), MEMBERS_THEN_WISH)
}

#[test]
fn members_go_before_wishes(rt: HostRuntime) -> Result<(), Fail> {
    assert!(rt; holds(rt.alloc(), TWO_PHASES, Look::Wishes)?);
    Ok(())
}

// Puts four contexts back. Returns whether there was room for three, and they go before the members.
fn contexts_go_first<'p>(
    mut team: Team<'p>,
    alloc: Global,
    jobs: &[Job<'p>],
) -> Result<bool, Fail> {
    let room = has_room(&mut team, (), alloc, jobs, THREE_OF_FOUR)?;
    let first = finds(&mut team, (), CONTEXTS_THEN_MEMBERS);
    Ok(room && first)
}

#[test]
fn ready_contexts_go_before_members(rt: HostRuntime) -> Result<(), Fail> {
    assert!(rt; holds(rt.alloc(), TWO_PHASES, Look::Contexts)?);
    Ok(())
}

// Whether the piece of the first job is a stranger.
fn is_stranger<'p>(team: &mut Team<'p>, alloc: Global, jobs: &[Job<'p>]) -> Result<bool, Fail> {
    let piece = piece_at(alloc, jobs, 0)?;
    Ok(matches!(team.arrive(piece)?, Arrival::Stranger(_)))
}

// Runs the first phase, and brings a piece of it again. Whether that is a stranger, and the next phase can begin.
fn turns_away<'p>(mut team: Team<'p>, alloc: Global, jobs: &[Job<'p>]) -> Result<bool, Fail> {
    let first = writes(&mut team, alloc, 0, 3, FIRST_PHASE.as_slice())?;
    let stranger = is_stranger(&mut team, alloc, jobs)?;
    let begins = entered(&mut team, ()) == Answer::Begins(0);
    Ok(first && stranger && begins)
}

#[test]
fn a_piece_of_an_earlier_phase_is_a_stranger(rt: HostRuntime) -> Result<(), Fail> {
    assert!(rt; holds(rt.alloc(), TWO_PHASES, Look::Stranger)?);
    Ok(())
}

// Reports that an allocation failed for member 1, if its piece is outstanding. Returns whether it is.
fn fails_one(team: &mut Team) -> bool {
    if team.has_failed() || !team.is_open(1) {
        return false;
    }
    team.fail(1);
    true
}

// Whether a team with a failed member has no writes.
fn fails(mut team: Team) -> bool {
    let failed = fails_one(&mut team);
    let nothing = gives_nothing(team);
    failed && nothing
}

#[test]
fn a_failed_team_is_over(rt: HostRuntime) -> Result<(), Fail> {
    assert!(rt; holds(rt.alloc(), TWO_PHASES, Look::Failed)?);
    Ok(())
}

// Whether a team of three members returns its site, and receipts with each call that a scheduler gets.
fn returns_all_receipts(mut team: Team) -> bool {
    let shape = (team.site(), team.nested().members()) == (1, 3);
    let told = returns_each_receipt(&mut team, ());
    shape && told
}

#[test]
fn a_team_returns_a_receipt_of_each_call(rt: HostRuntime) -> Result<(), Fail> {
    assert!(rt; holds(rt.alloc(), TWO_PHASES, Look::Receipts)?);
    Ok(())
}
