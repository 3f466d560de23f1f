//! Harts that go through the sites of one table, each in a thread of its own, by any port. One procedure works for any tree of
//! sites. It bounds its reads and tries, so a test ends for every schedule.
ghost use Rattle.std.specs.Prelude.{◌≡◌, ℕ, ◌≤◌, ◌<◌, true, false, length, slice_index_or};
ghost use Rattle.std.specs.List.{All};
ghost use Rattle.transfer_table.specs.Plan.{IsSite, parent};
ghost use Rattle.hart_port.specs.PortView.{is_in, ChildrenSeenGone};
ghost use Rattle.board_tests.specs.Roam.{IsSameHart, HasNoHomeBehind, IsNew, IsBack, HasLooked, HasLeft};

use hart_port::{Entered, Port, Seen, is_closed};
use std::sync::Wait;
use std::thread::{Threads, for_each_mut};
use transfer_table::Plan;

/// The number of reads of a hart that checks whether a site is gone, or empty.
const LOOKS: u32 = 1 << 30;

// Tries to enter the site as a guest, at most so many times, and not after the site is gone. Returns whether the hart is
// inside.
fn came_in<P: Port<Hold = ()>>(port: &mut P, site: u16, tries: u32) -> bool
    requires site { IsSite (P.seen port.old).plan site }
    requires child { (P.seen port.old).owner ≡ parent (P.seen port.old).plan site }
    ensures same { IsSameHart (P.seen port.old) (P.seen port.new) }
    ensures homes { (P.seen port.new).homes ≡ (P.seen port.old).homes }
    ensures closed { (P.seen port.new).closed ≡ (P.seen port.old).closed }
    ensures inside { result ≡ true → (P.seen port.new).owner ≡ site }
    ensures outside { result ≡ false → (P.seen port.new).owner ≡ (P.seen port.old).owner }
{
    for _ in 0..tries {
        match port.try_enter((), site) {
            Entered::Inside => return true,
            Entered::NotWanted { shown } if is_closed(shown) => return false,
            _ => {}
        }
    }
    false
}

// Reads until the site is gone. Returns whether it was seen gone.
fn saw_gone<P: Port<Hold = ()>>(port: &mut P, site: u16) -> bool
    requires site { IsSite (P.seen port.old).plan site }
    ensures looked { HasLooked (P.seen port.old) (P.seen port.new) }
    ensures gone { result ≡ true → is_in (P.seen port.new).gone site ≡ true }
{
    for _ in 0..LOOKS {
        if port.see_gone((), site) {
            return true;
        }
    }
    false
}

// The same for each child of the owner.
fn saw_children_gone<P: Port<Hold = ()>>(plan: &Plan, port: &mut P) -> bool
    requires plan { plan.now ≡ (P.seen port.old).plan }
    ensures looked { HasLooked (P.seen port.old) (P.seen port.new) }
    ensures gone { result ≡ true → ChildrenSeenGone (P.seen port.new) }
{
    for before in 0..plan.sites() {
        let site = before + 1;
        if plan.parent(site) == port.owner() && !saw_gone(port, site) {
            return false;
        }
    }
    true
}

// Reads until the owner is empty. Returns whether it was seen empty.
fn saw_empty<P: Port<Hold = ()>>(port: &mut P) -> bool
    requires home { is_in (P.seen port.old).homes (P.seen port.old).owner ≡ true }
    requires closed { is_in (P.seen port.old).closed (P.seen port.old).owner ≡ true }
    ensures looked { HasLooked (P.seen port.old) (P.seen port.new) }
    ensures empty { result ≡ true → is_in (P.seen port.new).empty (P.seen port.new).owner ≡ true }
{
    for _ in 0..LOOKS {
        if let Seen::Empty = port.see_empty(()) {
            return true;
        }
    }
    false
}

// The home closes its site, waits for the guests, and unregisters it. Returns whether it did.
fn leave<P: Port<Hold = ()>>(plan: &Plan, port: &mut P) -> bool
    requires plan { plan.now ≡ (P.seen port.old).plan }
    requires home { is_in (P.seen port.old).homes (P.seen port.old).owner ≡ true }
    requires open_yet { is_in (P.seen port.old).closed (P.seen port.old).owner ≡ false }
    ensures same { IsSameHart (P.seen port.old) (P.seen port.new) }
    ensures left { result ≡ true → HasLeft (P.seen port.old) (P.seen port.new) }
{
    port.close_site(());
    if !saw_children_gone(plan, port) || !saw_empty(port) {
        return false;
    }
    port.unregister(());
    true
}

// The hart registers the site, or is its guest if another hart is its home, and goes through the sites inside. Returns whether
// the hart is back.
#[cycle(visits)]
fn visit<P: Port<Hold = ()>>(plan: &Plan, port: &mut P, site: u16, tries: u32) -> bool
    requires plan { plan.now ≡ (P.seen port.old).plan }
    requires some_guest { 2 ≤ plan.now.harts }
    requires site { IsSite plan.now site }
    requires child { (P.seen port.old).owner ≡ parent plan.now site }
    requires homeless { HasNoHomeBehind (P.seen port.old) }
    ensures same { IsSameHart (P.seen port.old) (P.seen port.new) }
    ensures back { result ≡ true → IsBack (P.seen port.old) (P.seen port.new) }
{
    if port.register((), site) == Ok(()) {
        port.request((), site, plan.harts() - 1);
        return visit_children(plan, port, site, tries) && leave(plan, port);
    }
    if !came_in(port, site, tries) {
        return true;
    }
    if !visit_children(plan, port, site, tries) {
        return false;
    }
    port.yield_hart(());
    true
}

// The hart goes through the children of its owner. Returns whether the hart is back.
#[cycle(visits)]
fn visit_children<P: Port<Hold = ()>>(plan: &Plan, port: &mut P, inside: u16, tries: u32) -> bool
    requires plan { plan.now ≡ (P.seen port.old).plan }
    requires some_guest { 2 ≤ plan.now.harts }
    requires inside { (P.seen port.old).owner ≡ inside }
    requires homeless { HasNoHomeBehind (P.seen port.old) }
    ensures same { IsSameHart (P.seen port.old) (P.seen port.new) }
    ensures back { result ≡ true → IsBack (P.seen port.old) (P.seen port.new) }
{
    for site in 1..=plan.sites() {
        if plan.parent(site) == inside && !visit(plan, port, site, tries) {
            return false;
        }
    }
    true
}

/// All harts go through the sites at once, from the base. A hart that comes too late to register a site tries so often to enter
/// it.
pub(crate) fn roam<R: Threads + Wait + Sync, P: Port<Hold = ()> + Send>(
    rt: &R,
    plan: &Plan,
    ports: &mut [P],
    tries: u32,
)
    requires some_guest { 2 ≤ plan.now.harts }
    requires new { All (λ port. IsNew plan.now (P.seen port)) ports.old }
    ensures count { length ports.new ≡ length ports.old }
    ensures same { (k : ℕ) (d : P) → k < length ports.old
        → IsSameHart (P.seen (slice_index_or ports.old k d)) (P.seen (slice_index_or ports.new k d)) }
{
    let go = |_: usize, port: &mut P|
        requires some_guest { 2 ≤ plan.now.harts }
        requires new { IsNew plan.now (P.seen port.old) }
        ensures { IsSameHart (P.seen port.old) (P.seen port.new) }
    {
        visit_children(plan, port, 0, tries);
    };
    // Why as many parts as harts: those of one part run one after another, and each waits for all others.
    let parts = ports.len().max(1);
    for_each_mut(rt, ports, parts, &go);
}
