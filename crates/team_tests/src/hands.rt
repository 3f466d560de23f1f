//! Teams that harts share, by one hand.
ghost use Rattle.claim_words.specs.Seats.{IsOf, identity};
ghost use Rattle.loop_team.specs.Rows.{RowsFit};

use crate::samples::{
    CONTEXTS_THEN_MEMBERS, MEMBERS_THEN_WISH, NONE_OF_FOUR, NOTHING, THREE_OF_FOUR, begun, finds,
    gives, gives_nothing, has_room, one_of_two_leaves, opened_by, returns_each_receipt, team_of,
};
use crate::tables::table_of;
use array_eval::Overlay;
use array_jobs::Job;
use array_tree::Program;
use lithe_barrier::Arrival;
use loop_team::{ClaimSeat, ClaimTable, SharedTeam, TeamHand, rows_fit};
use sample_programs::{
    BOTH_PHASES, FIRST_PHASE, SECOND_PHASE, TWO_PHASES, first_jobs, parsed, piece_at,
};
use sched_api::Scheduler;
use std::alloc::Global;
use std::sync::Wait;
use std::test::Fail;

/// A shared team of a program that begins with one.
pub fn shared_team<'p>(alloc: Global, program: &'p Program) -> Result<SharedTeam<'p>, Fail> {
    Ok(SharedTeam::new(alloc, team_of(alloc, program)?)?)
}

// The checks of the tests.
#[derive(Clone, Copy)]
enum Look {
    Whole,
    Order,
    Contexts,
    Once,
    Nothing,
    Receipts,
}

// Whether this holds of a hand, beside the jobs of the first phase.
fn holds_of<'a, 'r, 'p, R: Wait + 'a>(
    rt: &'a R,
    hand: &mut TeamHand<'a, 'r, 'p, R>,
    alloc: Global,
    jobs: &[Job<'p>],
    look: Look,
) -> Result<bool, Fail> {
    match look {
        Look::Whole => runs_whole(rt, hand, alloc),
        Look::Order => Ok(members_go_first(rt, hand)),
        Look::Contexts => contexts_go_first(rt, hand, alloc, jobs),
        Look::Once => Ok(is_handed_out_once(rt, hand)),
        Look::Nothing => leaves_nothing(rt, hand, alloc, jobs),
        Look::Receipts => Ok(returns_all_receipts(rt, hand)),
    }
}

// The same of a hand on this team, at one lifetime with the runtime.
fn holds_of_hand<'x, 'p: 'x, R: Wait>(
    rt: &'x R,
    shared: &'x SharedTeam<'p>,
    table: &'x ClaimTable,
    seat: &mut ClaimSeat,
    alloc: Global,
    jobs: &[Job<'p>],
    look: Look,
) -> Result<bool, Fail>
    requires of { IsOf table.now (identity seat.old) }
    requires rows { RowsFit table.now.counts.items 0 shared.now }
{
    let mut hand = TeamHand::new(shared, table, seat, 0);
    holds_of(rt, &mut hand, alloc, jobs, look)
}

// The same of a hand on this team by a table of its own.
fn holds_of_team<'p, R: Wait>(
    rt: &R,
    shared: &SharedTeam<'p>,
    table: &ClaimTable,
    seat: &mut ClaimSeat,
    alloc: Global,
    jobs: &[Job<'p>],
    look: Look,
) -> Result<bool, Fail>
    requires { IsOf table.now (identity seat.old) }
{
    if !rows_fit(table, 0, shared.nested()) {
        return Err(Fail::new("other rows"));
    }
    holds_of_hand(rt, shared, table, seat, alloc, jobs, look)
}

// Whether this holds of a hand on a shared team of three members with two phases.
fn holds<R: Wait>(rt: &R, alloc: Global, look: Look) -> Result<bool, Fail> {
    let program = parsed(alloc, TWO_PHASES)?;
    let jobs = first_jobs(alloc, &program)?;
    let shared = shared_team(alloc, &program)?;
    let (table, mut seat) = table_of(alloc)?;
    holds_of_team(rt, &shared, &table, &mut seat, alloc, &jobs, look)
}

// Runs the three members of a phase in their order. Returns the phase's writes.
fn run_phase<'a, 'r, 'p, R: Wait + 'a>(
    rt: &'a R,
    hand: &mut TeamHand<'a, 'r, 'p, R>,
    alloc: Global,
    phase: u8,
) -> Result<Overlay, Fail> {
    for place in 0..3 {
        let piece = begun(hand, rt, alloc, phase, place)?;
        if let Some(written) = opened_by(hand.arrive(rt, piece)?)? {
            return Ok(written);
        }
    }
    Err(Fail::new("it didn't open"))
}

// Runs two phases. Returns whether each had the right writes, and the team wasn't handed out after the first.
fn runs_two<'a, 'r, 'p, R: Wait + 'a>(
    rt: &'a R,
    hand: &mut TeamHand<'a, 'r, 'p, R>,
    alloc: Global,
) -> Result<bool, Fail> {
    let first = run_phase(rt, hand, alloc, 0)?.pairs() == FIRST_PHASE.as_slice();
    let goes_on = stays(rt, hand);
    let second = run_phase(rt, hand, alloc, 1)?.pairs() == SECOND_PHASE.as_slice();
    Ok(first && goes_on && second)
}

// Hands a team out. Returns whether its writes are those of its phases.
fn gives_all<'a, 'r, 'p, R: Wait + 'a>(rt: &'a R, hand: &TeamHand<'a, 'r, 'p, R>) -> bool {
    match hand.take_out(rt) {
        Some(team) => gives(team, BOTH_PHASES.as_slice()),
        None => false,
    }
}

// Whether a team is handed out with all writes, and no second time.
fn gives_once<'a, 'r, 'p, R: Wait + 'a>(rt: &'a R, hand: &TeamHand<'a, 'r, 'p, R>) -> bool {
    let all = gives_all(rt, hand);
    let out = stays(rt, hand);
    all && out
}

// Runs the team to its end. Returns whether each phase and all together had the right writes.
fn runs_whole<'a, 'r, 'p, R: Wait + 'a>(
    rt: &'a R,
    hand: &mut TeamHand<'a, 'r, 'p, R>,
    alloc: Global,
) -> Result<bool, Fail> {
    let two = runs_two(rt, hand, alloc)?;
    let all = gives_once(rt, hand);
    Ok(two && all)
}

#[test]
fn phases_run_by_hands(rt: HostRuntime) -> Result<(), Fail> {
    assert!(rt; holds(&rt, rt.alloc(), Look::Whole)?);
    Ok(())
}

// Whether members go before the wish of the remaining child.
fn members_go_first<'a, 'r, 'p, R: Wait + 'a>(
    rt: &'a R,
    hand: &mut TeamHand<'a, 'r, 'p, R>,
) -> bool {
    one_of_two_leaves(hand, rt);
    finds(hand, rt, MEMBERS_THEN_WISH)
}

#[test]
fn a_hand_returns_what_the_team_returns(rt: HostRuntime) -> Result<(), Fail> {
    assert!(rt; holds(&rt, rt.alloc(), Look::Order)?);
    Ok(())
}

// Puts four contexts back. Returns whether there was room for three, and they go before the members.
fn contexts_go_first<'a, 'r, 'p, R: Wait + 'a>(
    rt: &'a R,
    hand: &mut TeamHand<'a, 'r, 'p, R>,
    alloc: Global,
    jobs: &[Job<'p>],
) -> Result<bool, Fail> {
    let room = has_room(hand, rt, alloc, jobs, THREE_OF_FOUR)?;
    let first = finds(hand, rt, CONTEXTS_THEN_MEMBERS);
    Ok(room && first)
}

#[test]
fn a_hand_puts_contexts_back(rt: HostRuntime) -> Result<(), Fail> {
    assert!(rt; holds(&rt, rt.alloc(), Look::Contexts)?);
    Ok(())
}

// Whether a team has failed, and whether it is done.
fn state<'a, 'r, 'p, R: Wait + 'a>(rt: &'a R, hand: &TeamHand<'a, 'r, 'p, R>) -> (bool, bool) {
    (hand.has_failed(rt), hand.is_over(rt))
}

// Tries to fail a piece that doesn't exist, then one that does. Returns whether the team was failed and done only at the end.
fn fails<'a, 'r, 'p, R: Wait + 'a>(rt: &'a R, hand: &TeamHand<'a, 'r, 'p, R>) -> bool {
    hand.fail(rt, 3);
    let goes_on = state(rt, hand) == (false, false);
    hand.fail(rt, 1);
    let ends = state(rt, hand) == (true, true);
    goes_on && ends
}

// Fails a team and hands it out. Returns whether it has no writes.
fn hands_out_failed<'a, 'r, 'p, R: Wait + 'a>(rt: &'a R, hand: &TeamHand<'a, 'r, 'p, R>) -> bool {
    if !fails(rt, hand) {
        return false;
    }
    match hand.take_out(rt) {
        Some(team) => gives_nothing(team),
        None => false,
    }
}

// Whether a team isn't handed out, since it was before or isn't done.
fn stays<'a, 'r, 'p, R: Wait + 'a>(rt: &'a R, hand: &TeamHand<'a, 'r, 'p, R>) -> bool {
    hand.take_out(rt).is_none()
}

// For a team that was handed out: whether it isn't handed out again, and is done and not failed, even after a piece failed.
fn stays_over<'a, 'r, 'p, R: Wait + 'a>(rt: &'a R, hand: &TeamHand<'a, 'r, 'p, R>) -> bool {
    hand.fail(rt, 0);
    let out = stays(rt, hand);
    let over = state(rt, hand) == (false, true);
    out && over
}

// Fails a team, hands it out, and checks again. Returns whether it has no writes and stays done.
fn is_handed_out_once<'a, 'r, 'p, R: Wait + 'a>(rt: &'a R, hand: &TeamHand<'a, 'r, 'p, R>) -> bool {
    hands_out_failed(rt, hand) && stays_over(rt, hand)
}

#[test]
fn a_failed_team_is_handed_out_once(rt: HostRuntime) -> Result<(), Fail> {
    assert!(rt; holds(&rt, rt.alloc(), Look::Once)?);
    Ok(())
}

// Whether the piece of the first job is a stranger.
fn is_stranger<'a, 'r, 'p, R: Wait + 'a>(
    rt: &'a R,
    hand: &TeamHand<'a, 'r, 'p, R>,
    alloc: Global,
    jobs: &[Job<'p>],
) -> Result<bool, Fail> {
    let piece = piece_at(alloc, jobs, 0)?;
    Ok(matches!(hand.arrive(rt, piece)?, Arrival::Stranger(_)))
}

// For a team that was handed out: whether it has nothing for a hart, no room for a context, and no slot for a piece.
fn has_nothing<'a, 'r, 'p, R: Wait + 'a>(
    rt: &'a R,
    hand: &mut TeamHand<'a, 'r, 'p, R>,
    alloc: Global,
    jobs: &[Job<'p>],
) -> Result<bool, Fail> {
    let found = finds(hand, rt, NOTHING);
    let full = has_room(hand, rt, alloc, jobs, NONE_OF_FOUR)?;
    let stranger = is_stranger(rt, hand, alloc, jobs)?;
    Ok(found && full && stranger)
}

// Fails a team and hands it out. Whether it then has nothing.
fn leaves_nothing<'a, 'r, 'p, R: Wait + 'a>(
    rt: &'a R,
    hand: &mut TeamHand<'a, 'r, 'p, R>,
    alloc: Global,
    jobs: &[Job<'p>],
) -> Result<bool, Fail> {
    if !hands_out_failed(rt, hand) {
        return Ok(false);
    }
    has_nothing(rt, hand, alloc, jobs)
}

#[test]
fn nothing_is_left_of_a_team_that_is_handed_out(rt: HostRuntime) -> Result<(), Fail> {
    assert!(rt; holds(&rt, rt.alloc(), Look::Nothing)?);
    Ok(())
}

// Whether a hand on a team of three members returns its site, and receipts with each call that a scheduler gets, before and
// after its team is handed out.
fn returns_all_receipts<'a, 'r, 'p, R: Wait + 'a>(
    rt: &'a R,
    hand: &mut TeamHand<'a, 'r, 'p, R>,
) -> bool {
    let shape = (hand.site(), hand.shared.nested().members()) == (1, 3);
    let before = returns_each_receipt(hand, rt);
    let out = hands_out_failed(rt, hand);
    let after = returns_each_receipt(hand, rt);
    shape && before && out && after
}

#[test]
fn a_hand_returns_a_receipt_of_each_call(rt: HostRuntime) -> Result<(), Fail> {
    assert!(rt; holds(&rt, rt.alloc(), Look::Receipts)?);
    Ok(())
}

// Whether the claim counters of a table fit a team from this counter on.
fn fit(alloc: Global, shared: &SharedTeam, row: u16) -> Result<bool, Fail> {
    let (table, _seat) = table_of(alloc)?;
    Ok(rows_fit(&table, row, shared.nested()))
}

#[test]
fn rows_of_another_shape_don_t_fit(rt: HostRuntime) -> Result<(), Fail> {
    let alloc = rt.alloc();
    let program = parsed(alloc, TWO_PHASES)?;
    let shared = shared_team(alloc, &program)?;
    assert!(rt; !fit(alloc, &shared, 1)?);
    Ok(())
}
