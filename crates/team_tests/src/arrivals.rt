//! Pieces that two hands bring to one team, in any order.
ghost use Rattle.claim_words.specs.Seats.{IsOf, identity};
ghost use Rattle.loop_team.specs.Rows.{RowsFit};

use crate::hands::shared_team;
use crate::samples::begun;
use crate::tables::table_of_twenty;
use array_jobs::{Job, Piece};
use lithe_barrier::Arrival;
use loop_team::{ClaimSeat, ClaimTable, SharedTeam, TeamHand, rows_fit};
use sample_programs::{first_jobs, parsed, piece_at};
use std::alloc::Global;
use std::sync::Wait;
use std::test::Fail;

// Twenty members in two phases.
const TWENTY_MEMBERS: &[u8] = b"array a[20]; array b[20];
    team i in 0..20 by 20 { a[i] = i + 1; } barrier { b[i] = a[19 - i]; }";

// The writes of the first phase, and of the second.
const RISING: [(u16, i64); 20] = [
    (0, 1),
    (1, 2),
    (2, 3),
    (3, 4),
    (4, 5),
    (5, 6),
    (6, 7),
    (7, 8),
    (8, 9),
    (9, 10),
    (10, 11),
    (11, 12),
    (12, 13),
    (13, 14),
    (14, 15),
    (15, 16),
    (16, 17),
    (17, 18),
    (18, 19),
    (19, 20),
];

const FALLING: [(u16, i64); 20] = [
    (20, 20),
    (21, 19),
    (22, 18),
    (23, 17),
    (24, 16),
    (25, 15),
    (26, 14),
    (27, 13),
    (28, 12),
    (29, 11),
    (30, 10),
    (31, 9),
    (32, 8),
    (33, 7),
    (34, 6),
    (35, 5),
    (36, 4),
    (37, 3),
    (38, 2),
    (39, 1),
];

// The checks of the tests.
#[derive(Clone, Copy)]
enum Look {
    Backwards,
    Twice,
    Earlier,
    Fails,
}

// The result for a piece.
#[derive(Clone, Copy, PartialEq, Eq, Drop)]
enum Outcome {
    Kept,
    Stranger,
    Opened { rising: bool, falling: bool },
}

// The result of an arrival.
fn outcome_of(arrival: Arrival) -> Outcome {
    match arrival {
        Arrival::Kept => Outcome::Kept,
        Arrival::Stranger(_) => Outcome::Stranger,
        Arrival::Opened(written) => Outcome::Opened {
            rising: written.pairs() == RISING.as_slice(),
            falling: written.pairs() == FALLING.as_slice(),
        },
    }
}

// Brings the piece of a member of the first phase.
fn bring<'a, 'r, 'p, R: Wait + 'a>(
    rt: &'a R,
    hand: &TeamHand<'a, 'r, 'p, R>,
    alloc: Global,
    jobs: &[Job<'p>],
    place: usize,
) -> Result<Outcome, Fail> {
    let piece = piece_at(alloc, jobs, place)?;
    Ok(outcome_of(hand.arrive(rt, piece)?))
}

// Brings the first phase's pieces but the first, the last one first, by two hands in turn. Returns whether each is kept.
fn bring_rest<'a, 'r, 's, 'p, R: Wait + 'a>(
    rt: &'a R,
    one: &TeamHand<'a, 'r, 'p, R>,
    other: &TeamHand<'a, 's, 'p, R>,
    alloc: Global,
    jobs: &[Job<'p>],
) -> Result<bool, Fail> {
    let mut kept = true;
    for back in 1..20 {
        let came = if back % 2 == 0 {
            bring(rt, one, alloc, jobs, 20 - back)?
        } else {
            bring(rt, other, alloc, jobs, 20 - back)?
        };
        kept = kept && came == Outcome::Kept;
    }
    Ok(kept)
}

// Brings all of them. Returns whether the last one opens the phase, with its writes.
fn opens_first<'a, 'r, 's, 'p, R: Wait + 'a>(
    rt: &'a R,
    one: &TeamHand<'a, 'r, 'p, R>,
    other: &TeamHand<'a, 's, 'p, R>,
    alloc: Global,
    jobs: &[Job<'p>],
) -> Result<bool, Fail> {
    let kept = bring_rest(rt, one, other, alloc, jobs)?;
    let last = bring(rt, one, alloc, jobs, 0)?;
    Ok(kept && matches!(last, Outcome::Opened { rising: true, .. }))
}

// Begins all members of the second phase.
fn begin_second<'a, 'r, 'p, R: Wait + 'a>(
    rt: &'a R,
    hand: &mut TeamHand<'a, 'r, 'p, R>,
    alloc: Global,
) -> Result<Vec<Piece<'p>>, Fail> {
    let mut pieces = Vec::new(alloc);
    for place in 0..20 {
        pieces.push(begun(hand, rt, alloc, 1, place)?)?;
    }
    Ok(pieces)
}

// Begins all members of the second phase, and brings their pieces, the last one first. Returns whether the last that comes
// opens the phase, with its writes.
fn opens_second<'a, 'r, 's, 'p, R: Wait + 'a>(
    rt: &'a R,
    one: &mut TeamHand<'a, 'r, 'p, R>,
    other: &TeamHand<'a, 's, 'p, R>,
    alloc: Global,
) -> Result<bool, Fail> {
    let mut pieces = begin_second(rt, one, alloc)?;
    let mut last = Outcome::Stranger;
    for _ in 0..20 {
        if let Some(piece) = pieces.pop() {
            last = outcome_of(other.arrive(rt, piece)?);
        }
    }
    Ok(matches!(last, Outcome::Opened { falling: true, .. }))
}

// Whether a piece is kept by one hand, and is then a stranger to the other.
fn is_kept_once<'a, 'r, 's, 'p, R: Wait + 'a>(
    rt: &'a R,
    one: &TeamHand<'a, 'r, 'p, R>,
    other: &TeamHand<'a, 's, 'p, R>,
    alloc: Global,
    jobs: &[Job<'p>],
) -> Result<bool, Fail> {
    let first = bring(rt, one, alloc, jobs, 19)?;
    let second = bring(rt, other, alloc, jobs, 19)?;
    Ok(first == Outcome::Kept && second == Outcome::Stranger)
}

// Whether a piece of an earlier phase is a stranger.
fn is_late<'a, 'r, 's, 'p, R: Wait + 'a>(
    rt: &'a R,
    one: &TeamHand<'a, 'r, 'p, R>,
    other: &TeamHand<'a, 's, 'p, R>,
    alloc: Global,
    jobs: &[Job<'p>],
) -> Result<bool, Fail> {
    let opens = opens_first(rt, one, other, alloc, jobs)?;
    let late = bring(rt, other, alloc, jobs, 19)?;
    Ok(opens && late == Outcome::Stranger)
}

// Whether a failed piece fails the team, and not if the piece has come.
fn fails_where_open<'a, 'r, 's, 'p, R: Wait + 'a>(
    rt: &'a R,
    one: &TeamHand<'a, 'r, 'p, R>,
    other: &TeamHand<'a, 's, 'p, R>,
    alloc: Global,
    jobs: &[Job<'p>],
) -> Result<bool, Fail> {
    let first = bring(rt, one, alloc, jobs, 19)?;
    other.fail(rt, 19);
    let before = one.has_failed(rt);
    other.fail(rt, 1);
    let after = one.has_failed(rt);
    Ok(first == Outcome::Kept && !before && after)
}

// Whether this holds of two hands on a team, whose first phase has these jobs.
fn holds_of<'a, 'r, 's, 'p, R: Wait + 'a>(
    rt: &'a R,
    one: &mut TeamHand<'a, 'r, 'p, R>,
    other: &TeamHand<'a, 's, 'p, R>,
    alloc: Global,
    jobs: &[Job<'p>],
    look: Look,
) -> Result<bool, Fail> {
    match look {
        Look::Backwards => {
            let first = opens_first(rt, one, other, alloc, jobs)?;
            let second = opens_second(rt, one, other, alloc)?;
            Ok(first && second)
        }
        Look::Twice => is_kept_once(rt, one, other, alloc, jobs),
        Look::Earlier => is_late(rt, one, other, alloc, jobs),
        Look::Fails => fails_where_open(rt, one, other, alloc, jobs),
    }
}

// The same of hands on this team, at one lifetime with the runtime.
fn holds_of_hands<'x, 'p: 'x, R: Wait>(
    rt: &'x R,
    shared: &'x SharedTeam<'p>,
    table: &'x ClaimTable,
    first: &mut ClaimSeat,
    second: &mut ClaimSeat,
    alloc: Global,
    jobs: &[Job<'p>],
    look: Look,
) -> Result<bool, Fail>
    requires of { IsOf table.now (identity first.old) × IsOf table.now (identity second.old) }
    requires rows { RowsFit table.now.counts.items 0 shared.now }
{
    let mut one = TeamHand::new(shared, table, first, 0);
    let other = TeamHand::new(shared, table, second, 0);
    holds_of(rt, &mut one, &other, alloc, jobs, look)
}

// The same of two hands on a shared team of twenty members, by a table of their own.
fn holds_of_team<'p, R: Wait>(
    rt: &R,
    shared: &SharedTeam<'p>,
    alloc: Global,
    jobs: &[Job<'p>],
    look: Look,
) -> Result<bool, Fail> {
    let (table, mut one, mut other) = table_of_twenty(alloc)?;
    if !rows_fit(&table, 0, shared.nested()) {
        return Err(Fail::new("other rows"));
    }
    holds_of_hands(rt, shared, &table, &mut one, &mut other, alloc, jobs, look)
}

// Whether this holds of two hands on a shared team of twenty members.
fn holds<R: Wait>(rt: &R, alloc: Global, look: Look) -> Result<bool, Fail> {
    let program = parsed(alloc, TWENTY_MEMBERS)?;
    let jobs = first_jobs(alloc, &program)?;
    let shared = shared_team(alloc, &program)?;
    holds_of_team(rt, &shared, alloc, &jobs, look)
}

#[test]
fn the_last_piece_opens_whatever_the_order(rt: HostRuntime) -> Result<(), Fail> {
    assert!(rt; holds(&rt, rt.alloc(), Look::Backwards)?);
    Ok(())
}

#[test]
fn a_piece_is_kept_once(rt: HostRuntime) -> Result<(), Fail> {
    assert!(rt; holds(&rt, rt.alloc(), Look::Twice)?);
    Ok(())
}

#[test]
fn a_piece_of_an_earlier_phase_is_a_stranger(rt: HostRuntime) -> Result<(), Fail> {
    assert!(rt; holds(&rt, rt.alloc(), Look::Earlier)?);
    Ok(())
}

#[test]
fn a_place_fails_only_while_it_is_open(rt: HostRuntime) -> Result<(), Fail> {
    assert!(rt; holds(&rt, rt.alloc(), Look::Fails)?);
    Ok(())
}
