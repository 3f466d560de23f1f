//! Two harts with a pool whose job indices are in the deque of its home.
ghost use Rattle.std.specs.Prelude.{◌≡◌, ◌<◌, IfOk};

use crate::hands::{is_offered, shared_pool};
use crate::moves::{Got, entered, next_of};
use deque_rows::{HartRows, rows};
use forkjoin_sched::{PoolHand, SharedPool};
use sample_programs::{TWO_BRANCHES, parsed};
use sched_api::Scheduler;
use std::alloc::Global;
use std::sync::Wait;
use std::test::Fail;

// The deques of two harts.
fn rows_of_two(alloc: Global) -> Result<(HartRows, HartRows), Fail>
    ensures { IfOk result (λ both. (0 < both.0.harts) × (0 < both.1.harts)) }
{
    let mut all = rows(alloc, 2)?;
    let Some(second) = all.pop() else {
        return Err(Fail::new("there are no rows"));
    };
    match all.pop() {
        Some(first) => Ok((first, second)),
        None => Err(Fail::new("there is one hart's row")),
    }
}

// What a hart finds by a hand for this one use, on a pool of hart 0 at level 1.
fn found_once<'a, R: Wait + 'a>(rt: &'a R, shared: &'a SharedPool, rows: &mut HartRows) -> Got
    requires { 0 < rows.old.harts }
    ensures { rows.new.harts ≡ rows.old.harts }
{
    let mut hand = PoolHand::new(shared, rows, 0, 1);
    next_of(hand.enter(rt))
}

// The home offers. The guest steals the first index, and the home pops the last.
fn is_shared_out<'a, R: Wait + 'a>(
    rt: &'a R,
    shared: &'a SharedPool,
    home: &mut PoolHand<'a, '_, '_, R>,
    guest: &mut HartRows,
) -> bool
    requires { 0 < guest.old.harts }
{
    let offered = is_offered(rt, home);
    let steals = found_once(rt, shared, guest) == Got::Begins(1);
    let pops = entered(home, rt) == Got::Begins(0);
    let none = found_once(rt, shared, guest) == Got::Nothing;
    let nothing = entered(home, rt) == Got::Nothing;
    offered && steals && pops && none && nothing
}

// The same with the deques of two harts.
fn is_shared_by_two<'x, R: Wait>(
    rt: &'x R,
    alloc: Global,
    shared: &'x SharedPool,
) -> Result<bool, Fail> {
    let (mut first, mut second) = rows_of_two(alloc)?;
    let mut home = PoolHand::new(shared, &mut first, 0, 1);
    Ok(is_shared_out(rt, shared, &mut home, &mut second))
}

#[test]
fn the_home_pops_and_a_guest_steals(rt: HostRuntime) -> Result<(), Fail> {
    let alloc = rt.alloc();
    let program = parsed(alloc, TWO_BRANCHES)?;
    let shared = shared_pool(alloc, &program)?;
    assert!(rt; is_shared_by_two(&rt, alloc, &shared)?);
    Ok(())
}
