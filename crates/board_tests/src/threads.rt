//! Harts that roam on a board of either layout, each in a thread of its own.
ghost use Rattle.std.specs.Prelude.{◌≡◌, ◌≤◌, map, IfOk};
ghost use Rattle.std.specs.List.{All};
ghost use Rattle.board_rule.specs.Layouts.{HasRoom};
ghost use Rattle.lent_board.specs.Of.{IsOf};

use crate::roaming::roam;
use board_rule::Laid;
use lent_board::{Board, BoardPort, ByGuests, ByOwners, Closed, HartSeat};
use std::alloc::{AllocError, Global};
use std::sync::Wait;
use std::test::Fail;
use std::thread::Threads;
use transfer_table::{Entry, Plan, first_fault};

/// The number of tries of a hart to enter a site among many harts.
const FEW_TRIES: u32 = 16;

/// The number of tries if two harts meet at one site.
const MANY_TRIES: u32 = 1 << 20;

// A port for each seat.
fn ports_of<'a, L: Laid>(
    alloc: Global,
    board: &'a Board<L>,
    seats: Vec<HartSeat>,
) -> Result<Vec<BoardPort<'a, L>>, AllocError>
    requires of { All (IsOf board.now) seats.items }
    ensures { IfOk result (λ ports. map (λ port. port.seat) ports.items ≡ seats.items) }
{
    let mut ports = Vec::with_capacity(alloc, seats.len())?;
    for seat in seats {
        ports.push(BoardPort::new(board, seat))?;
    }
    Ok(ports)
}

// The seats of the ports.
fn seats_of<'a, L: Laid>(
    alloc: Global,
    ports: Vec<BoardPort<'a, L>>,
) -> Result<Vec<HartSeat>, AllocError>
    ensures { IfOk result (λ seats. seats.items ≡ map (λ port. port.seat) ports.entry.items) }
{
    let mut seats = Vec::with_capacity(alloc, ports.len())?;
    for port in ports {
        seats.push(port.into_seat())?;
    }
    Ok(seats)
}

// The journal of a board on which so many harts roamed, each in a thread.
fn roamed<L: Laid + Sync>(
    rt: &(impl Threads + Wait + Sync),
    alloc: Global,
    plan: &Plan,
    tries: u32,
) -> Result<Closed<L>, AllocError>
    requires some_guest { 2 ≤ plan.now.harts }
    requires few_harts { HasRoom L.layout plan.now.harts }
{
    let (board, seats) = Board::<L>::new(alloc, plan)?;
    let mut ports = ports_of(alloc, &board, seats)?;
    roam(rt, plan, ports.as_mut_slice(), tries);
    let seats = seats_of(alloc, ports)?;
    match board.close(alloc, seats) {
        Ok(closed) => Ok(closed),
        Err(_) => Err(AllocError),
    }
}

// Whether the journal is complete: three entries for each site, and two more for each guest that came.
fn is_complete(alloc: Global, plan: &Plan, entries: &[Entry]) -> Result<bool, Fail> {
    let (sites, guests) = (plan.sites() as usize, plan.harts() as usize - 1);
    if entries.len() < 3 * sites || (3 + 2 * guests) * sites < entries.len() {
        return Ok(false);
    }
    let all = vec![in alloc; true; plan.sites() as usize]?;
    Ok(first_fault(alloc, plan, &all, entries)? == None)
}

// The parents of groups of four sites: one with two children, the first of which has a child.
fn nested_parents(alloc: Global, groups: u16) -> Result<Vec<u16>, AllocError>
    requires { groups ≤ 1000 }
{
    let mut parents = Vec::new(alloc);
    for group in 0..groups {
        let top = 4 * group + 1;
        for parent in [0, top, top, top + 1] {
            parents.push(parent)?;
        }
    }
    Ok(parents)
}

#[test]
fn two_threads_roam_by_owners(rt: HostRuntime) -> Result<(), Fail> {
    let plan = Plan::new(rt.alloc(), 2, &[0; 300])?;
    let closed: Closed<ByOwners> = roamed(&rt, rt.alloc(), &plan, FEW_TRIES)?;
    assert!(rt; is_complete(rt.alloc(), &plan, closed.entries())?);
    Ok(())
}

#[test]
fn two_threads_roam_by_guests(rt: HostRuntime) -> Result<(), Fail> {
    let plan = Plan::new(rt.alloc(), 2, &[0; 300])?;
    let closed: Closed<ByGuests> = roamed(&rt, rt.alloc(), &plan, FEW_TRIES)?;
    assert!(rt; is_complete(rt.alloc(), &plan, closed.entries())?);
    Ok(())
}

#[test]
fn four_threads_roam_in_nested_sites(rt: HostRuntime) -> Result<(), Fail> {
    let parents = nested_parents(rt.alloc(), 75)?;
    let plan = Plan::new(rt.alloc(), 4, parents.as_slice())?;
    let closed: Closed<ByOwners> = roamed(&rt, rt.alloc(), &plan, FEW_TRIES)?;
    assert!(rt; is_complete(rt.alloc(), &plan, closed.entries())?);
    Ok(())
}

#[test]
fn five_threads_roam_in_nested_sites(rt: HostRuntime) -> Result<(), Fail> {
    let parents = nested_parents(rt.alloc(), 75)?;
    let plan = Plan::new(rt.alloc(), 5, parents.as_slice())?;
    let closed: Closed<ByGuests> = roamed(&rt, rt.alloc(), &plan, FEW_TRIES)?;
    assert!(rt; is_complete(rt.alloc(), &plan, closed.entries())?);
    Ok(())
}

#[test]
fn sixteen_threads_roam(rt: HostRuntime) -> Result<(), Fail> {
    let plan = Plan::new(rt.alloc(), 16, &[0; 300])?;
    let closed: Closed<ByGuests> = roamed(&rt, rt.alloc(), &plan, FEW_TRIES)?;
    assert!(rt; is_complete(rt.alloc(), &plan, closed.entries())?);
    Ok(())
}

// The entries of a hart that is the home of a site, and of another that is its guest.
fn with_a_guest(home: u8, guest: u8) -> [Entry; 5] {
    [
        Entry::Register {
            hart: home,
            site: 1,
        },
        Entry::Request {
            hart: home,
            site: 1,
            count: 1,
        },
        Entry::Enter {
            hart: guest,
            site: 1,
        },
        Entry::Yield {
            hart: guest,
            site: 1,
        },
        Entry::Unregister {
            hart: home,
            site: 1,
        },
    ]
}

// The entries of a hart that is the home of a site and has no guest.
fn alone(home: u8) -> [Entry; 3] {
    [
        Entry::Register {
            hart: home,
            site: 1,
        },
        Entry::Request {
            hart: home,
            site: 1,
            count: 1,
        },
        Entry::Unregister {
            hart: home,
            site: 1,
        },
    ]
}

// Whether one hart was the home of the site, and the other was its guest or came too late.
fn is_row(entries: &[Entry]) -> bool {
    entries == with_a_guest(0, 1).as_slice()
        || entries == with_a_guest(1, 0).as_slice()
        || entries == alone(0).as_slice()
        || entries == alone(1).as_slice()
}

#[test]
fn two_threads_at_one_site(rt: HostRuntime) -> Result<(), Fail> {
    let plan = Plan::new(rt.alloc(), 2, &[0])?;
    for _ in 0..20 {
        let closed: Closed<ByOwners> = roamed(&rt, rt.alloc(), &plan, MANY_TRIES)?;
        assert!(rt; is_row(closed.entries()));
        let closed: Closed<ByGuests> = roamed(&rt, rt.alloc(), &plan, MANY_TRIES)?;
        assert!(rt; is_row(closed.entries()));
    }
    Ok(())
}
