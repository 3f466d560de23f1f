//! Pools that harts share: a hart's hand on one, which plays scripts.
ghost use Rattle.std.specs.Prelude.{◌≡◌, ◌<◌, IfOk};

use crate::moves::Got::*;
use crate::moves::Move::*;
use crate::moves::{Got, Move, Played, Wrong, calls_back, came, entered, first_wrong, was};
use crate::pools::{end_of, pool_of, unblocked};
use array_jobs::Piece;
use array_tree::Program;
use deque_rows::{HartRows, rows};
use forkjoin_sched::{PoolHand, SharedPool};
use sample_programs::{Came, TWO_BRANCHES, outcome_of, parsed, piece_at, waiting};
use sched_api::Scheduler;
use std::alloc::Global;
use std::sync::Wait;
use std::test::Fail;

// A shared pool of the two branches.
pub fn shared_pool<'p>(alloc: Global, program: &'p Program) -> Result<SharedPool<'p>, Fail> {
    Ok(SharedPool::new(alloc, pool_of(alloc, program)?)?)
}

// The deque of a single hart.
pub fn own_rows(alloc: Global) -> Result<HartRows, Fail>
    ensures { IfOk result (λ rows. 0 < rows.harts) }
{
    let mut all = rows(alloc, 1)?;
    match all.pop() {
        Some(rows) => Ok(rows),
        None => Err(Fail::new("there are no rows")),
    }
}

// Offers the jobs to all harts. Returns whether the hand was the home's, and its deque had room.
pub fn is_offered<'a, R: Wait + 'a>(rt: &'a R, hand: &mut PoolHand<'a, '_, '_, R>) -> bool {
    let room = hand.rows.room(hand.level) as usize;
    if hand.rows.hart() != hand.home || room < hand.shared.jobs().len() {
        return false;
    }
    hand.offer(rt);
    true
}

// Pushes a job index onto the hart's own deque. Returns whether it had room.
fn is_pushed<R>(hand: &mut PoolHand<'_, '_, '_, R>, code: u32) -> bool {
    if hand.rows.room(hand.level) == 0 {
        return false;
    }
    hand.rows.push(hand.level, code);
    true
}

// Deposits a piece.
pub fn deposited<'a, 'p, R: Wait + 'a>(
    rt: &'a R,
    hand: &PoolHand<'a, '_, 'p, R>,
    piece: Piece<'p>,
) -> Came {
    outcome_of(hand.deposit(rt, piece))
}

// Brings the piece of a job.
fn brought<'a, R: Wait + 'a>(
    rt: &'a R,
    hand: &PoolHand<'a, '_, '_, R>,
    alloc: Global,
    place: usize,
) -> Result<Got, Fail> {
    let piece = piece_at(alloc, hand.shared.jobs(), place)?;
    Ok(came(deposited(rt, hand, piece)))
}

// Puts a context back, with a machine for the pool's first job.
fn put_back<'a, R: Wait + 'a>(
    rt: &'a R,
    hand: &mut PoolHand<'a, '_, '_, R>,
    alloc: Global,
) -> Result<Got, Fail> {
    let context = waiting(alloc, hand.shared.jobs())?;
    Ok(was(unblocked(hand, rt, context)))
}

// Takes the pool out, if it can be.
fn taken_out<'a, R: Wait + 'a>(rt: &'a R, hand: &PoolHand<'a, '_, '_, R>) -> Got {
    match hand.take_out(rt) {
        Some(pool) => end_of(pool),
        None => Got::No,
    }
}

// Reports that an allocation failed for a piece.
fn failed<'a, R: Wait + 'a>(rt: &'a R, hand: &PoolHand<'a, '_, '_, R>, place: u8) -> Got {
    hand.fail(rt, place);
    Got::Yes
}

impl<'a, 'r, 'p, R: Wait + 'a> Played<&'a R> for PoolHand<'a, 'r, 'p, R> {
    fn does(&mut self, hold: &'a R, alloc: Global, it: Move) -> Result<Got, Fail> {
        match it {
            Move::Enter => Ok(entered(self, hold)),
            Move::PutBack => put_back(hold, self, alloc),
            Move::Offer => Ok(was(is_offered(hold, self))),
            Move::Push(code) => Ok(was(is_pushed(self, code))),
            Move::Room => Ok(Got::Count(self.rows.room(self.level) as usize)),
            Move::Bring(place) => brought(hold, self, alloc, place),
            Move::Fail(place) => Ok(failed(hold, self, place)),
            Move::HasFailed => Ok(was(self.has_failed(hold))),
            Move::IsFull => Ok(was(self.is_full(hold))),
            Move::TakeOut => Ok(taken_out(hold, self)),
            _ => Ok(calls_back(self, hold, it)),
        }
    }
}

// The first wrong line of a script that the home's hand plays, at level 1, on a shared pool of the two branches.
fn wrong<R: Wait>(rt: &R, alloc: Global, script: &[(Move, Got)]) -> Result<Option<Wrong>, Fail> {
    let program = parsed(alloc, TWO_BRANCHES)?;
    let shared = shared_pool(alloc, &program)?;
    let mut rows = own_rows(alloc)?;
    let mut hand = PoolHand::new(&shared, &mut rows, 0, 1);
    first_wrong(&mut hand, rt, alloc, script)
}

const AS_THE_POOL: &[(Move, Got)] = &[
    (IsAt(1), Yes),
    (Offer, Yes),
    (Enter, Begins(0)),
    (Enter, Begins(1)),
    (Enter, Nothing),
    (Request(2, 2), Yes),
    (Enter, Lends(2)),
    (Enter, Lends(2)),
    (Enter, Nothing),
    (Request(2, 1), Yes),
    (Unregister(2), Yes),
    (Enter, Nothing),
];

#[test]
fn a_hand_returns_what_the_pool_returns(rt: HostRuntime) -> Result<(), Fail> {
    assert_eq!(rt; wrong(&rt, rt.alloc(), AS_THE_POOL)?, None);
    Ok(())
}

const CONTEXTS_THEN_PIECES: &[(Move, Got)] = &[
    (Offer, Yes),
    (PutBack, Yes),
    (PutBack, Yes),
    (PutBack, No),
    (Enter, GoesOn),
    (Enter, GoesOn),
    (Enter, Begins(0)),
    (Enter, Begins(1)),
];

#[test]
fn a_hand_puts_contexts_back(rt: HostRuntime) -> Result<(), Fail> {
    assert_eq!(rt; wrong(&rt, rt.alloc(), CONTEXTS_THEN_PIECES)?, None);
    Ok(())
}

const ONE_READY: &[(Move, Got)] = &[(PutBack, Yes)];

const CONTEXT_THEN_PIECES: &[(Move, Got)] = &[
    (Offer, Yes),
    (Enter, GoesOn),
    (Enter, Begins(0)),
    (Enter, Begins(1)),
];

// A shared pool of the two branches, to which a context was put back before it was shared.
fn shared_with_ready<'p>(alloc: Global, program: &'p Program) -> Result<SharedPool<'p>, Fail> {
    let mut pool = pool_of(alloc, program)?;
    if first_wrong(&mut pool, (), alloc, ONE_READY)?.is_some() {
        return Err(Fail::new("there is no room"));
    }
    Ok(SharedPool::new(alloc, pool)?)
}

// The same of a hand on that pool.
fn wrong_with_ready<R: Wait>(
    rt: &R,
    alloc: Global,
    script: &[(Move, Got)],
) -> Result<Option<Wrong>, Fail> {
    let program = parsed(alloc, TWO_BRANCHES)?;
    let shared = shared_with_ready(alloc, &program)?;
    let mut rows = own_rows(alloc)?;
    let mut hand = PoolHand::new(&shared, &mut rows, 0, 1);
    first_wrong(&mut hand, rt, alloc, script)
}

#[test]
fn a_context_that_was_ready_before_goes_first(rt: HostRuntime) -> Result<(), Fail> {
    assert_eq!(rt;
        wrong_with_ready(&rt, rt.alloc(), CONTEXT_THEN_PIECES)?,
        None
    );
    Ok(())
}

const OUT_ONCE: &[(Move, Got)] = &[
    (TakeOut, No),
    (Bring(1), Kept),
    (TakeOut, No),
    (Bring(1), Double),
    (TakeOut, No),
    (Bring(0), Kept),
    (TakeOut, BothBranches),
    (TakeOut, No),
];

#[test]
fn a_full_pool_is_handed_out_once(rt: HostRuntime) -> Result<(), Fail> {
    assert_eq!(rt; wrong(&rt, rt.alloc(), OUT_ONCE)?, None);
    Ok(())
}

// A piece fails twice, and one that doesn't exist, then the other.
const NOTHING_LEFT: &[(Move, Got)] = &[
    (Offer, Yes),
    (Fail(0), Yes),
    (Fail(0), Yes),
    (Fail(2), Yes),
    (HasFailed, Yes),
    (IsFull, No),
    (Fail(1), Yes),
    (IsFull, Yes),
    (TakeOut, NoWrites),
    (Enter, Nothing),
    (Enter, Nothing),
    (Bring(0), Stranger),
    (PutBack, No),
    (Fail(0), Yes),
    (HasFailed, No),
    (IsFull, Yes),
];

#[test]
fn nothing_is_left_of_a_pool_that_is_handed_out(rt: HostRuntime) -> Result<(), Fail> {
    assert_eq!(rt; wrong(&rt, rt.alloc(), NOTHING_LEFT)?, None);
    Ok(())
}

// The receipts before and after the pool is handed out.
const RECEIPTS: &[(Move, Got)] = &[
    (Register(3), Yes),
    (Request(3, 1), Yes),
    (Yielded(3), Yes),
    (Unregister(3), Yes),
    (Block, Yes),
    (Fail(0), Yes),
    (Fail(0), Yes),
    (Fail(2), Yes),
    (HasFailed, Yes),
    (IsFull, No),
    (Fail(1), Yes),
    (IsFull, Yes),
    (TakeOut, NoWrites),
    (Register(3), Yes),
    (Request(3, 1), Yes),
    (Yielded(3), Yes),
    (Unregister(3), Yes),
    (Block, Yes),
];

#[test]
fn a_hand_returns_a_receipt_of_each_call(rt: HostRuntime) -> Result<(), Fail> {
    assert_eq!(rt; wrong(&rt, rt.alloc(), RECEIPTS)?, None);
    Ok(())
}

// Index 320 is of site 5, 66 of a piece that the pool doesn't have, 64 of a job that is begun.
const OTHER_CODES: &[(Move, Got)] = &[
    (Offer, Yes),
    (Push(320), Yes),
    (Push(66), Yes),
    (Enter, Begins(0)),
    (Push(64), Yes),
    (Push(64), Yes),
    (Enter, Begins(1)),
    (Enter, Nothing),
];

#[test]
fn a_code_of_no_job_of_the_pool_is_let_go(rt: HostRuntime) -> Result<(), Fail> {
    assert_eq!(rt; wrong(&rt, rt.alloc(), OTHER_CODES)?, None);
    Ok(())
}

// The first job comes from under the lock, and the other by its index.
const BOTH_WAYS: &[(Move, Got)] = &[
    (Enter, Begins(0)),
    (Room, Count(16_384)),
    (Offer, Yes),
    (Room, Count(16_383)),
    (Enter, Begins(1)),
    (Enter, Nothing),
];

#[test]
fn jobs_that_are_not_offered_are_handed_out_under_the_lock(rt: HostRuntime) -> Result<(), Fail> {
    assert_eq!(rt; wrong(&rt, rt.alloc(), BOTH_WAYS)?, None);
    Ok(())
}
