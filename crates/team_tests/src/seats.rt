//! Two hands on one team, each with a seat of its own.
ghost use Rattle.std.specs.Prelude.{◌≡◌, ◌≤◌, map, vec_len};
ghost use Rattle.claim_words.specs.Seats.{AreAll, IsOf, identity};
ghost use Rattle.loop_team.specs.Rows.{RowsFit};

use crate::hands::shared_team;
use crate::samples::{gives, opened_by};
use crate::tables::TWO_ROWS;
use array_jobs::{Piece, piece_of};
use loop_team::laws::claimed;
use loop_team::{ClaimSeat, ClaimTable, SharedTeam, TeamHand, TeamWork, rows_fit};
use sample_programs::{BOTH_PHASES, TWO_PHASES, parsed};
use sched_api::{Next, Scheduler};
use std::alloc::Global;
use std::sync::Wait;
use std::test::Fail;

// Adds the piece of the member that a hart begins next by its seat. It must be this member of this phase.
fn takes_up<'a, 'p, R: Wait + 'a>(
    rt: &'a R,
    shared: &'a SharedTeam<'p>,
    table: &'a ClaimTable,
    seat: &mut ClaimSeat,
    alloc: Global,
    member: (u8, u8),
    pieces: &mut Vec<Piece<'p>>,
) -> Result<(), Fail>
    requires of { IsOf table.now (identity seat.old) }
    requires rows { RowsFit table.now.counts.items 0 shared.now }
    ensures { identity seat.new ≡ identity seat.old }
{
    match TeamHand::new(shared, table, seat, 0).enter(rt) {
        Next::Run(TeamWork::Begin(job)) if (job.phase, job.place) == member => {
            Ok(pieces.push(piece_of(alloc, job)?)?)
        }
        _ => Err(Fail::new("another member")),
    }
}

// Whether a hart finds nothing by its seat.
fn finds_nothing<'a, 'p, R: Wait + 'a>(
    rt: &'a R,
    shared: &'a SharedTeam<'p>,
    table: &'a ClaimTable,
    seat: &mut ClaimSeat,
) -> bool
    requires of { IsOf table.now (identity seat.old) }
    requires rows { RowsFit table.now.counts.items 0 shared.now }
    ensures { identity seat.new ≡ identity seat.old }
{
    let mut hand = TeamHand::new(shared, table, seat, 0);
    matches!(hand.enter(rt), Next::Nothing)
}

// Brings the last of the pieces. Returns whether it is kept, and the phase doesn't open.
fn is_kept<'a, 'p, R: Wait + 'a>(
    rt: &'a R,
    shared: &'a SharedTeam<'p>,
    table: &'a ClaimTable,
    seat: &mut ClaimSeat,
    pieces: &mut Vec<Piece<'p>>,
) -> Result<bool, Fail>
    requires of { IsOf table.now (identity seat.old) }
    requires rows { RowsFit table.now.counts.items 0 shared.now }
    ensures { identity seat.new ≡ identity seat.old }
{
    let Some(piece) = pieces.pop() else {
        return Err(Fail::new("no piece"));
    };
    let arrival = TeamHand::new(shared, table, seat, 0).arrive(rt, piece)?;
    Ok(opened_by(arrival)?.is_none())
}

// Two harts begin the three members of a phase in turn, and bring their pieces. Returns whether neither found another member
// before the last piece came.
fn share_phase<'a, 'p, R: Wait + 'a>(
    rt: &'a R,
    shared: &'a SharedTeam<'p>,
    table: &'a ClaimTable,
    one: &mut ClaimSeat,
    other: &mut ClaimSeat,
    alloc: Global,
    phase: u8,
) -> Result<bool, Fail>
    requires of { IsOf table.now (identity one.old) × IsOf table.now (identity other.old) }
    requires rows { RowsFit table.now.counts.items 0 shared.now }
    ensures { (identity one.new ≡ identity one.old) × (identity other.new ≡ identity other.old) }
{
    let mut pieces = Vec::new(alloc);
    takes_up(rt, shared, table, one, alloc, (phase, 0), &mut pieces)?;
    takes_up(rt, shared, table, other, alloc, (phase, 1), &mut pieces)?;
    takes_up(rt, shared, table, one, alloc, (phase, 2), &mut pieces)?;
    pieces.reverse();
    let none = finds_nothing(rt, shared, table, one) && finds_nothing(rt, shared, table, other);
    let first = is_kept(rt, shared, table, one, &mut pieces)?;
    let second = is_kept(rt, shared, table, other, &mut pieces)?;
    let third = is_kept(rt, shared, table, one, &mut pieces)?;
    Ok(none && first && second && !third)
}

// Hands the team out. Returns whether it has the writes of both phases.
fn gives_both<'a, 'p, R: Wait + 'a>(
    rt: &'a R,
    shared: &'a SharedTeam<'p>,
    table: &'a ClaimTable,
    seat: &mut ClaimSeat,
) -> Result<bool, Fail>
    requires of { IsOf table.now (identity seat.old) }
    requires rows { RowsFit table.now.counts.items 0 shared.now }
    ensures { identity seat.new ≡ identity seat.old }
{
    match TeamHand::new(shared, table, seat, 0).take_out(rt) {
        Some(team) => Ok(gives(team, BOTH_PHASES.as_slice())),
        None => Ok(false),
    }
}

// Two harts run both phases. Returns whether each member ran once, and the team has their writes.
fn share_team<'a, 'p, R: Wait + 'a>(
    rt: &'a R,
    shared: &'a SharedTeam<'p>,
    table: &'a ClaimTable,
    one: &mut ClaimSeat,
    other: &mut ClaimSeat,
    alloc: Global,
) -> Result<bool, Fail>
    requires of { IsOf table.now (identity one.old) × IsOf table.now (identity other.old) }
    requires rows { RowsFit table.now.counts.items 0 shared.now }
    ensures { (identity one.new ≡ identity one.old) × (identity other.new ≡ identity other.old) }
{
    let first = share_phase(rt, shared, table, one, other, alloc, 0)?;
    let second = share_phase(rt, shared, table, other, one, alloc, 1)?;
    let none = finds_nothing(rt, shared, table, one) && finds_nothing(rt, shared, table, other);
    Ok(first && second && none && gives_both(rt, shared, table, one)?)
}

// Takes two seats from the list, and puts them back.
fn share_by_all<'a, 'p, R: Wait + 'a>(
    rt: &'a R,
    shared: &'a SharedTeam<'p>,
    table: &'a ClaimTable,
    seats: &mut Vec<ClaimSeat>,
    alloc: Global,
) -> Result<bool, Fail>
    requires all { AreAll table.now (map identity seats.old.items) }
    requires two { vec_len seats.old ≡ 2 }
    requires rows { RowsFit table.now.counts.items 0 shared.now }
    ensures { map identity seats.new.items ≡ map identity seats.old.items }
{
    let Some(mut other) = seats.pop() else {
        unreachable!()
    };
    let Some(mut one) = seats.pop() else {
        unreachable!()
    };
    let ran = share_team(rt, shared, table, &mut one, &mut other, alloc);
    seats.push_reserved(one);
    seats.push_reserved(other);
    ran
}

// Two harts run a team by all seats of a table. Returns whether they share it as they should.
fn is_shared<R: Wait>(rt: &R, alloc: Global, shared: &SharedTeam) -> Result<bool, Fail> {
    let (table, mut seats) = ClaimTable::new(alloc, &TWO_ROWS, 2)?;
    if !rows_fit(&table, 0, shared.nested()) {
        return Err(Fail::new("other rows"));
    }
    let ran = share_by_all(rt, shared, &table, &mut seats, alloc);
    claimed(table, seats);
    ran
}

#[test]
fn two_hands_claim_the_members_of_each_phase_once(rt: HostRuntime) -> Result<(), Fail> {
    let alloc = rt.alloc();
    let program = parsed(alloc, TWO_PHASES)?;
    let shared = shared_team(alloc, &program)?;
    assert!(rt; is_shared(&rt, alloc, &shared)?);
    Ok(())
}
