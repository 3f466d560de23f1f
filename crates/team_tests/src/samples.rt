//! Teams of small programs, and the moves of a hart on a team or by a hand.

use array_eval::Overlay;
use array_jobs::{Job, Piece, piece_of};
use array_tree::Program;
use contexts::Paused;
use lithe_barrier::Arrival;
use loop_team::{Team, TeamWork};
use sample_programs::{first_construct, waiting};
use sched_api::{Next, Scheduler};
use scheduler_samples::{Answer, TOLD, receipts};
use std::alloc::Global;
use std::test::Fail;
use step_eval::{Kind, StepMachine};

/// A team of two members with three phases.
pub const THREE_PHASES: &[u8] = b"array a[2]; array b[2]; array c[2];
    team i in 0..2 by 2 { a[i] = i + 1; } barrier { b[i] = a[1 - i]; } barrier { c[i] = b[1 - i] + 10; }";

/// The writes of its third phase.
pub const THIRD_PHASE: [(u16, i64); 2] = [(4, 11), (5, 12)];

/// The writes of all three.
pub const ALL_PHASES: [(u16, i64); 6] = [(0, 1), (1, 2), (2, 2), (3, 1), (4, 11), (5, 12)];

/// What a hart finds: three members, and then nothing.
pub const MEMBERS: &[Answer] = &[
    Answer::Begins(0),
    Answer::Begins(1),
    Answer::Begins(2),
    Answer::Nothing,
    Answer::Nothing,
];

/// The same if child 5 wishes for a hart.
pub const MEMBERS_THEN_WISH: &[Answer] = &[
    Answer::Begins(0),
    Answer::Begins(1),
    Answer::Begins(2),
    Answer::Lends(5),
    Answer::Nothing,
];

/// The same if three contexts are ready.
pub const CONTEXTS_THEN_MEMBERS: &[Answer] = &[
    Answer::GoesOn,
    Answer::GoesOn,
    Answer::GoesOn,
    Answer::Begins(0),
    Answer::Begins(1),
];

/// What a hart finds that finds nothing five times.
pub const NOTHING: &[Answer] = &[
    Answer::Nothing,
    Answer::Nothing,
    Answer::Nothing,
    Answer::Nothing,
    Answer::Nothing,
];

/// Room for three contexts of four.
pub const THREE_OF_FOUR: &[bool] = &[true, true, true, false];

/// Room for none of four.
pub const NONE_OF_FOUR: &[bool] = &[false, false, false, false];

/// The team of a program that begins with one.
///
/// # Errors
///
/// A failure of the test if the program begins with no team, or an allocation fails.
pub fn team_of<'p>(alloc: Global, program: &'p Program) -> Result<Team<'p>, Fail> {
    let nested = first_construct(alloc, program)?;
    match nested.kind() {
        Kind::Team => Ok(Team::new(alloc, nested)?),
        Kind::Par => Err(Fail::new("it is a par")),
    }
}

// The result of `enter`, with a member's index.
fn answer_of(next: Next<TeamWork>) -> Answer {
    match next {
        Next::Run(TeamWork::Begin(job)) => Answer::Begins(job.place),
        Next::Run(TeamWork::Ready(_)) => Answer::GoesOn,
        Next::Lend(site) => Answer::Lends(site),
        Next::Nothing => Answer::Nothing,
    }
}

/// What a hart finds.
pub fn entered<'p, S: Scheduler<Ctx = TeamWork<'p>>>(scheduler: &mut S, hold: S::Hold) -> Answer {
    answer_of(scheduler.enter(hold))
}

/// Whether a hart finds this, one after another.
pub fn finds<'p, S: Scheduler<Ctx = TeamWork<'p>>>(
    scheduler: &mut S,
    hold: S::Hold,
    answers: &[Answer],
) -> bool {
    for answer in answers {
        if entered(scheduler, hold) != *answer {
            return false;
        }
    }
    true
}

/// Whether a scheduler's receipts have each call that it gets.
pub fn returns_each_receipt<S: Scheduler>(scheduler: &mut S, hold: S::Hold) -> bool {
    receipts(scheduler, hold) == TOLD
}

// The job of a member that begins. Returns a failure if anything else was found.
fn member<'p>(next: Next<TeamWork<'p>>) -> Result<Job<'p>, Fail> {
    match next {
        Next::Run(TeamWork::Begin(job)) => Ok(job),
        Next::Run(TeamWork::Ready(_)) | Next::Lend(_) | Next::Nothing => {
            Err(Fail::new("no member begins"))
        }
    }
}

/// The piece that a hart found, which must be this member of this phase.
///
/// # Errors
///
/// A failure of the test if it is another, or an allocation fails.
pub fn piece_of_found<'p>(
    found: Next<TeamWork<'p>>,
    alloc: Global,
    phase: u8,
    place: u8,
) -> Result<Piece<'p>, Fail> {
    let job = member(found)?;
    if (job.phase, job.place) != (phase, place) {
        return Err(Fail::new("another member"));
    }
    Ok(piece_of(alloc, job)?)
}

/// The piece of the member that begins next, which must be this one of this phase.
///
/// # Errors
///
/// A failure of the test if it is another, or an allocation fails.
pub fn begun<'p, S: Scheduler<Ctx = TeamWork<'p>>>(
    scheduler: &mut S,
    hold: S::Hold,
    alloc: Global,
    phase: u8,
    place: u8,
) -> Result<Piece<'p>, Fail> {
    piece_of_found(scheduler.enter(hold), alloc, phase, place)
}

// Puts a context back. Returns whether there was room.
fn unblocked<'p, S: Scheduler<Ctx = TeamWork<'p>>>(
    scheduler: &mut S,
    hold: S::Hold,
    context: Paused<StepMachine<'p>>,
) -> bool {
    match scheduler.unblock(hold, TeamWork::Ready(context)) {
        Ok(()) => true,
        Err(_) => false,
    }
}

// Puts four contexts back. Returns whether there was room for each.
fn put_back<'p, S: Scheduler<Ctx = TeamWork<'p>>>(
    scheduler: &mut S,
    hold: S::Hold,
    alloc: Global,
    jobs: &[Job<'p>],
) -> Result<[bool; 4], Fail> {
    let first = unblocked(scheduler, hold, waiting(alloc, jobs)?);
    let second = unblocked(scheduler, hold, waiting(alloc, jobs)?);
    let third = unblocked(scheduler, hold, waiting(alloc, jobs)?);
    let fourth = unblocked(scheduler, hold, waiting(alloc, jobs)?);
    Ok([first, second, third, fourth])
}

/// Puts four contexts back. Whether there was room for these of them.
pub fn has_room<'p, S: Scheduler<Ctx = TeamWork<'p>>>(
    scheduler: &mut S,
    hold: S::Hold,
    alloc: Global,
    jobs: &[Job<'p>],
    expected: &[bool],
) -> Result<bool, Fail> {
    let rooms = put_back(scheduler, hold, alloc, jobs)?;
    Ok(rooms.as_slice() == expected)
}

/// Children 2 and 5 request a hart each, and child 2 leaves.
pub fn one_of_two_leaves<S: Scheduler>(scheduler: &mut S, hold: S::Hold) {
    scheduler.request(hold, 2, 1);
    scheduler.request(hold, 5, 1);
    scheduler.unregister(hold, 2);
}

/// The writes of a phase, if the piece was its last one.
///
/// # Errors
///
/// A failure of the test if the piece is a stranger.
pub fn opened_by(arrival: Arrival) -> Result<Option<Overlay>, Fail> {
    match arrival {
        Arrival::Kept => Ok(None),
        Arrival::Opened(written) => Ok(Some(written)),
        Arrival::Stranger(_) => Err(Fail::new("a stranger")),
    }
}

// The writes of a team that is done. A failed team, and one that isn't done, return none.
fn taken(team: Team) -> Option<Overlay> {
    if !team.is_over() {
        return None;
    }
    team.take_all().ok()
}

// Whether a team is done, and has failed or not.
fn is_over(team: &Team, failed: bool) -> bool {
    let over = team.is_over();
    over && team.has_failed() == failed
}

// Whether there is an overlay of these writes.
fn is_written(overlay: Option<Overlay>, expected: &[(u16, i64)]) -> bool {
    match overlay {
        Some(written) => written.pairs() == expected,
        None => false,
    }
}

/// Whether a team is done, hasn't failed, and has these writes.
pub fn gives(team: Team, expected: &[(u16, i64)]) -> bool {
    let whole = is_over(&team, false);
    let written = is_written(taken(team), expected);
    whole && written
}

/// Whether a team is done, has failed, and has no writes.
pub fn gives_nothing(team: Team) -> bool {
    let failed = is_over(&team, true);
    let nothing = taken(team).is_none();
    failed && nothing
}
