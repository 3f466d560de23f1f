//! A parent by turns and its two children, and the moves of three harts there, for any ports.
//!
//! Hart 0 is the home of the parent and of the pool, and hart 1 of the team. Hart 2 is lent to both.
ghost use Rattle.std.specs.Prelude.{◌≡◌, ◌<◌, true, false, IfSome};
ghost use Rattle.hart_port.specs.PortView.{is_in, entered};
ghost use Rattle.scheduler_tests.specs.Family.{family_plan, new_hart, home_of_both, home_of_team};

use crate::constructs::{BY_BRANCHES, BY_MEMBERS};
use crate::steps::{Child, leaves, opens, visits};
use base_sched::Base;
use hart_port::Port;
use sched_api::{Lent, Next, Scheduler, sched_enter, sched_reenter, sched_yield};
use std::alloc::Global;
use turn_sched::Turns;

// A hart that the base lends comes into the parent. Returns its next action there.
fn comes<P: Port>(
    port: &mut P,
    hold: P::Hold,
    base: &mut Base,
    turns: &mut Turns<char>,
) -> Option<Next<char>>
    requires plan { (P.seen port.old).plan ≡ family_plan }
    requires base { (P.seen port.old).owner ≡ 0 }
    ensures inside { IfSome result (λ _. P.seen port.new ≡ entered (P.seen port.old) 1) }
{
    if turns.site() != 1 || base.enter(()) != Next::Lend(1) {
        return None;
    }
    match sched_enter(port, hold, turns, ()) {
        Lent::Inside(next) => Some(next),
        _ => None,
    }
}

// Whether the guest runs a piece of each child, and is lent to the second after the first.
fn goes_round<P: Port, C: Child, D: Child>(
    port: &mut P,
    hold: P::Hold,
    turns: &mut Turns<char>,
    pool: &mut C,
    team: &mut D,
    alloc: Global,
    round: usize,
) -> bool
    requires round { round < 3 }
    requires plan { (P.seen port.old).plan ≡ family_plan }
    requires parent { (P.seen port.old).owner ≡ 1 }
    requires pool { is_in (P.seen port.old).homes 2 ≡ false }
    requires team { is_in (P.seen port.old).homes 3 ≡ false }
    ensures plan { (P.seen port.new).plan ≡ (P.seen port.old).plan }
    ensures owner { (P.seen port.new).owner ≡ (P.seen port.old).owner }
    ensures homes { (P.seen port.new).homes ≡ (P.seen port.old).homes }
{
    visits(
        port,
        hold,
        turns,
        pool,
        alloc,
        2,
        BY_BRANCHES[round].as_slice(),
    ) && sched_reenter(turns, ()) == Next::Lend(3)
        && visits(
            port,
            hold,
            turns,
            team,
            alloc,
            3,
            BY_MEMBERS[round].as_slice(),
        )
}

/// Whether hart 2 comes from the base, goes round twice, finds nothing more, and returns.
pub fn helps<P: Port, C: Child, D: Child>(
    guest: &mut P,
    hold: P::Hold,
    base: &mut Base,
    turns: &mut Turns<char>,
    pool: &mut C,
    team: &mut D,
    alloc: Global,
) -> bool
    requires { P.seen guest.old ≡ new_hart 2 }
{
    if comes(guest, hold, base, turns) != Some(Next::Lend(2))
        || !goes_round(guest, hold, turns, pool, team, alloc, 0)
        || sched_reenter(turns, ()) != Next::Lend(2)
        || !goes_round(guest, hold, turns, pool, team, alloc, 1)
        || sched_reenter(turns, ()) != Next::Nothing
    {
        return false;
    }
    sched_yield(guest, hold, base, ());
    true
}

/// Whether hart 1 comes from the base and opens the site of the team.
pub fn opens_team<P: Port>(
    second: &mut P,
    hold: P::Hold,
    base: &mut Base,
    turns: &mut Turns<char>,
) -> bool
    requires { P.seen second.old ≡ new_hart 1 }
    ensures { result ≡ true → P.seen second.new ≡ home_of_team }
{
    comes(second, hold, base, turns) == Some(Next::Run('t')) && opens(second, hold, turns, 3, 2)
}

/// Whether hart 1 leaves that site, and returns to the base.
pub fn leaves_team<P: Port>(
    second: &mut P,
    hold: P::Hold,
    base: &mut Base,
    turns: &mut Turns<char>,
) -> bool
    requires { P.seen second.old ≡ home_of_team }
{
    if !leaves(second, hold, turns) {
        return false;
    }
    sched_yield(second, hold, base, ());
    true
}

/// Whether hart 0 opens the sites of the parent and of the pool.
pub fn opens_both<P: Port>(
    home: &mut P,
    hold: P::Hold,
    base: &mut Base,
    turns: &mut Turns<char>,
) -> bool
    requires { P.seen home.old ≡ new_hart 0 }
    ensures { result ≡ true → P.seen home.new ≡ home_of_both }
{
    opens(home, hold, base, 1, 2)
        && sched_reenter(turns, ()) == Next::Run('p')
        && opens(home, hold, turns, 2, 2)
}

/// Whether hart 0 leaves both.
pub fn leaves_both<P: Port>(
    home: &mut P,
    hold: P::Hold,
    base: &mut Base,
    turns: &mut Turns<char>,
) -> bool
    requires { P.seen home.old ≡ home_of_both }
{
    leaves(home, hold, turns)
        && home.see_gone(hold, 2)
        && home.see_gone(hold, 3)
        && leaves(home, hold, base)
}
