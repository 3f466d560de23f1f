//! A parent by turns, and a pool and a team as its children, with the ports of three harts on one ledger.
//!
//! One thread makes the calls of all three in a fixed order. So each result is known beforehand, the complete journal is
//! compared, and no call blocks, since the lock is free at each.
ghost use Rattle.std.specs.Prelude.{◌≡◌};
ghost use Rattle.scheduler_tests.specs.Family.{family_plan};

use crate::constructs::{BY_BRANCHES, BY_MEMBERS, TWO_CONSTRUCTS, pool_in, team_in};
use crate::family::{helps, leaves_both, leaves_team, opens_both, opens_team};
use crate::steps::{Child, finishes};
use array_tree::Program;
use base_sched::Base;
use hart_port::{Ledger, LockedPort};
use sample_programs::parsed;
use std::alloc::{AllocError, Global};
use std::sync::{Mutex, Wait};
use std::test::Fail;
use std::thread::Threads;
use transfer_table::{Entry, Plan, first_fault};
use turn_sched::Turns;

// Whether hart 2 helps both children.
fn is_lent<R: Threads + Wait + Sync, C: Child, D: Child>(
    rt: &R,
    alloc: Global,
    lock: &Mutex<Ledger>,
    plan: &Plan,
    base: &mut Base,
    turns: &mut Turns<char>,
    pool: &mut C,
    team: &mut D,
) -> bool
    requires { plan.now ≡ family_plan }
{
    let Ok(mut port) = LockedPort::<R>::new(alloc, lock, plan, 2) else {
        return false;
    };
    helps(&mut port, rt, base, turns, pool, team, alloc)
}

// Whether hart 1 is the home of the team, which hart 2 helps.
fn has_team<R: Threads + Wait + Sync, C: Child, D: Child>(
    rt: &R,
    alloc: Global,
    lock: &Mutex<Ledger>,
    plan: &Plan,
    base: &mut Base,
    turns: &mut Turns<char>,
    pool: &mut C,
    team: &mut D,
) -> bool
    requires { plan.now ≡ family_plan }
{
    let Ok(mut port) = LockedPort::<R>::new(alloc, lock, plan, 1) else {
        return false;
    };
    opens_team(&mut port, rt, base, turns)
        && is_lent(rt, alloc, lock, plan, base, turns, pool, team)
        && finishes(team, alloc, BY_MEMBERS[2].as_slice())
        && leaves_team(&mut port, rt, base, turns)
}

// Whether hart 0 is the home of the parent and of the pool, beside the others.
fn has_both<R: Threads + Wait + Sync, C: Child, D: Child>(
    rt: &R,
    alloc: Global,
    lock: &Mutex<Ledger>,
    plan: &Plan,
    base: &mut Base,
    turns: &mut Turns<char>,
    pool: &mut C,
    team: &mut D,
) -> bool
    requires { plan.now ≡ family_plan }
{
    let Ok(mut port) = LockedPort::<R>::new(alloc, lock, plan, 0) else {
        return false;
    };
    opens_both(&mut port, rt, base, turns)
        && has_team(rt, alloc, lock, plan, base, turns, pool, team)
        && finishes(pool, alloc, BY_BRANCHES[2].as_slice())
        && leaves_both(&mut port, rt, base, turns)
}

// A parent with two contexts, and room for two children.
fn parent_of_two(alloc: Global) -> Result<Turns<char>, AllocError> {
    let mut turns = Turns::new(alloc, 1, 2, 2)?;
    if turns.put_last('p').is_err() || turns.put_last('t').is_err() {
        return Err(AllocError);
    }
    Ok(turns)
}

const JOURNAL: [Entry; 21] = [
    Entry::Register { hart: 0, site: 1 },
    Entry::Request {
        hart: 0,
        site: 1,
        count: 2,
    },
    Entry::Register { hart: 0, site: 2 },
    Entry::Request {
        hart: 0,
        site: 2,
        count: 2,
    },
    Entry::Enter { hart: 1, site: 1 },
    Entry::Register { hart: 1, site: 3 },
    Entry::Request {
        hart: 1,
        site: 3,
        count: 2,
    },
    Entry::Enter { hart: 2, site: 1 },
    Entry::Enter { hart: 2, site: 2 },
    Entry::Yield { hart: 2, site: 2 },
    Entry::Enter { hart: 2, site: 3 },
    Entry::Yield { hart: 2, site: 3 },
    Entry::Enter { hart: 2, site: 2 },
    Entry::Yield { hart: 2, site: 2 },
    Entry::Enter { hart: 2, site: 3 },
    Entry::Yield { hart: 2, site: 3 },
    Entry::Yield { hart: 2, site: 1 },
    Entry::Unregister { hart: 1, site: 3 },
    Entry::Yield { hart: 1, site: 1 },
    Entry::Unregister { hart: 0, site: 2 },
    Entry::Unregister { hart: 0, site: 1 },
];

// Whether these are the entries, and complete.
fn is_journal(alloc: Global, plan: &Plan, entries: &[Entry]) -> Result<bool, AllocError> {
    if entries.len() != 21 || entries != JOURNAL.as_slice() {
        return Ok(false);
    }
    let all = vec![in alloc; true; plan.sites() as usize]?;
    Ok(first_fault(alloc, plan, &all, entries)? == None)
}

// Whether all three harts do their moves, under a base.
fn is_done<R: Threads + Wait + Sync, C: Child, D: Child>(
    rt: &R,
    alloc: Global,
    lock: &Mutex<Ledger>,
    plan: &Plan,
    pool: &mut C,
    team: &mut D,
) -> bool
    requires { plan.now ≡ family_plan }
{
    let Ok(mut base) = Base::new(alloc, 2) else {
        return false;
    };
    let Ok(mut turns) = parent_of_two(alloc) else {
        return false;
    };
    has_both(rt, alloc, lock, plan, &mut base, &mut turns, pool, team)
}

// Whether they do their moves, and their ledger is the journal.
fn is_shared<R: Threads + Wait + Sync, C: Child, D: Child>(
    rt: &R,
    alloc: Global,
    plan: &Plan,
    pool: &mut C,
    team: &mut D,
) -> bool
    requires { plan.now ≡ family_plan }
{
    let Ok(ledger) = Ledger::new(alloc, plan) else {
        return false;
    };
    let lock = Mutex::new(ledger);
    let is_done = is_done(rt, alloc, &lock, plan, pool, team);
    let entries = lock.into_inner().into_entries();
    is_done && is_journal(alloc, plan, entries.as_slice()) == Ok(true)
}

// The same with the team of the program.
fn is_shared_with_team<R: Threads + Wait + Sync, C: Child>(
    rt: &R,
    alloc: Global,
    plan: &Plan,
    program: &Program,
    pool: &mut C,
) -> Result<bool, Fail>
    requires { plan.now ≡ family_plan }
{
    let mut team = team_in(alloc, program)?;
    Ok(is_shared(rt, alloc, plan, pool, &mut team))
}

// The same with its pool.
fn is_shared_with_both<R: Threads + Wait + Sync>(
    rt: &R,
    alloc: Global,
    plan: &Plan,
    program: &Program,
) -> Result<bool, Fail>
    requires { plan.now ≡ family_plan }
{
    let mut pool = pool_in(alloc, program)?;
    is_shared_with_team(rt, alloc, plan, program, &mut pool)
}

#[test]
fn a_pool_and_a_team_have_their_turns(rt: HostRuntime) -> Result<(), Fail> {
    let alloc = rt.alloc();
    let plan = Plan::new(alloc, 3, &[0, 1, 1])?;
    let program = parsed(alloc, TWO_CONSTRUCTS)?;
    assert!(rt; is_shared_with_both(&rt, alloc, &plan, &program)?);
    Ok(())
}
