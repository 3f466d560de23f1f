//! The moves of a hart at a site, for any port and scheduler.
ghost use Rattle.std.specs.Prelude.{◌≡◌, ◌+◌, ◌-◌, ◌≤◌, ◌<◌, true, false};
ghost use Rattle.transfer_table.specs.Plan.{IsSite, parent as parent_of};
ghost use Rattle.hart_port.specs.PortView.{is_in, registered, requested_by, closes, sees_empty, unregistered, ChildrenSeenGone};

use hart_port::{Port, Seen};
use sched_api::{
    Lent, Next, Scheduler, sched_enter, sched_reenter, sched_register, sched_request,
    sched_unregister, sched_yield,
};
use std::alloc::Global;

/// A scheduler whose pieces a hart runs.
pub trait Child: Scheduler<Hold = ()> {
    /// Runs the piece that the hart begins, and brings it. Returns whether there was one that wrote these cells, and it is
    /// kept.
    fn bring(&mut self, alloc: Global, next: Next<Self::Ctx>, writes: &[(u16, i64)]) -> bool;

    /// Whether all pieces have come.
    fn is_finished(&self) -> bool;
}

/// Whether the hart registers the site, as its home, and requests so many more from the parent.
pub fn opens<P: Port, S: Scheduler<Hold = ()>>(
    port: &mut P,
    hold: P::Hold,
    parent: &mut S,
    site: u16,
    count: u8,
) -> bool
    requires site { IsSite (P.seen port.old).plan site }
    requires child { (P.seen port.old).owner ≡ parent_of (P.seen port.old).plan site }
    requires some { 1 ≤ count }
    requires few { count ≤ (P.seen port.old).plan.harts - 1 }
    ensures home { result ≡ true
        → P.seen port.new ≡ requested_by (registered (P.seen port.old) site) site count }
    ensures parent { S.site_of parent.new ≡ S.site_of parent.old }
{
    if sched_register(port, hold, parent, (), site).is_err() {
        return false;
    }
    sched_request(port, hold, parent, (), site, count);
    true
}

/// Whether the home of a site finds it empty once it is closed, and returns to the parent.
pub fn leaves<P: Port, S: Scheduler<Hold = ()>>(port: &mut P, hold: P::Hold, parent: &mut S) -> bool
    requires home { is_in (P.seen port.old).homes (P.seen port.old).owner ≡ true }
    requires open_yet { is_in (P.seen port.old).closed (P.seen port.old).owner ≡ false }
    requires children { ChildrenSeenGone (P.seen port.old) }
    ensures back { result ≡ true
        → P.seen port.new ≡ unregistered (sees_empty (closes (P.seen port.old))) }
    ensures parent { S.site_of parent.new ≡ S.site_of parent.old }
{
    port.close_site(hold);
    if port.see_empty(hold) != Seen::Empty {
        return false;
    }
    sched_unregister(port, hold, parent, ());
    true
}

/// Whether a hart enters the child, runs a piece there that writes these cells, and returns.
pub fn visits<P: Port, S: Scheduler<Hold = ()>, C: Child>(
    port: &mut P,
    hold: P::Hold,
    parent: &mut S,
    child: &mut C,
    alloc: Global,
    site: u16,
    writes: &[(u16, i64)],
) -> bool
    requires site { IsSite (P.seen port.old).plan site }
    requires child { (P.seen port.old).owner ≡ parent_of (P.seen port.old).plan site }
    requires guest { is_in (P.seen port.old).homes site ≡ false }
    ensures plan { (P.seen port.new).plan ≡ (P.seen port.old).plan }
    ensures owner { (P.seen port.new).owner ≡ (P.seen port.old).owner }
    ensures homes { (P.seen port.new).homes ≡ (P.seen port.old).homes }
{
    if child.site() != site {
        return false;
    }
    let Lent::Inside(next) = sched_enter(port, hold, child, ()) else {
        return false;
    };
    let is_kept = child.bring(alloc, next, writes);
    sched_yield(port, hold, parent, ());
    is_kept
}

/// Whether the child hands out a piece that writes these cells, which is its last one.
pub fn finishes<C: Child>(child: &mut C, alloc: Global, writes: &[(u16, i64)]) -> bool {
    let is_open = !child.is_finished();
    let next = sched_reenter(child, ());
    child.bring(alloc, next, writes) && is_open && child.is_finished()
}
