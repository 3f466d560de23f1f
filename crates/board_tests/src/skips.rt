//! Sites that are skipped, on a board of either layout. After each call the words are compared.
ghost use Rattle.std.specs.Prelude.{◌≡◌, ◌<◌, [], ◌∷◌, true};
ghost use Rattle.transfer_table.specs.Plan.{site_count};
ghost use Rattle.board_rule.specs.Encodings.{width};
ghost use Rattle.board_rule.specs.Layouts.{HasRoom};
ghost use Rattle.board_tests.specs.Roam.{IsSameHart};

use crate::seats::{Opened, close, close_one, open, open_one, seat_of};
use board_rule::Laid;
use hart_port::{Entered, Port, Seen, Taken};
use lent_board::{Board, BoardPort, ByGuests, ByOwners};
use std::alloc::Global;
use std::test::Fail;
use transfer_table::{Entry, Fault, Plan, Why, first_fault};

// The entries, of which the last two are this hart's.
fn entries(hart: u8) -> [Entry; 3] {
    [
        Entry::Skip { hart: 0, site: 1 },
        Entry::Register { hart, site: 3 },
        Entry::Unregister { hart, site: 3 },
    ]
}

// The first words after each entry. By owners they hold the number of entries, times 2 ^ 48, and the owner of hart 0, and times
// 2 ^ 12 that of hart 1.
const OF_ONE: [u64; 3] = [281474976710656, 562949953421315, 844424930131968];

const OF_TWO: [u64; 3] = [281474976710656, 562949953433600, 844424930131968];

const BY_GUESTS: [u64; 3] = [1, 2, 3];

// Whether the first word and the words of the three sites are these.
fn has<L: Laid>(board: &Board<L>, first: u64, sites: [u64; 3]) -> bool
    requires { 3 < width board.now.plan }
{
    board.peek(0) == first
        && board.peek(1) == sites[0]
        && board.peek(2) == sites[1]
        && board.peek(3) == sites[2]
}

// Whether a hart in the base is refused at site 1, which was skipped.
fn is_taken<P: Port<Hold = ()>>(port: &mut P) -> bool
    requires plan { (P.seen port.old).plan.parents ≡ 0 ∷ 1 ∷ 0 ∷ [] }
    requires base { (P.seen port.old).owner ≡ 0 }
    ensures same { IsSameHart (P.seen port.old) (P.seen port.new) }
    ensures base { result ≡ true → (P.seen port.new).owner ≡ 0 }
{
    port.skip((), 1) == Err(Taken { shown: 5 }) && port.register((), 1) == Err(Taken { shown: 5 })
}

// Whether site 1 is seen gone by its word, and site 2, which is below it, isn't.
fn is_seen_gone<P: Port<Hold = ()>>(port: &mut P) -> bool
    requires { (P.seen port.old).plan.parents ≡ 0 ∷ 1 ∷ 0 ∷ [] }
    ensures same { IsSameHart (P.seen port.old) (P.seen port.new) }
    ensures owner { (P.seen port.new).owner ≡ (P.seen port.old).owner }
{
    port.see_gone((), 1) && !port.see_gone((), 2)
}

// Whether a hart skips site 1 and is refused there afterwards. The word of site 2, which is below it, is unchanged.
fn is_skipped<L: Laid, P: Port<Hold = ()>>(board: &Board<L>, port: &mut P, first: u64) -> bool
    requires plan { ((P.seen port.old).plan.parents ≡ 0 ∷ 1 ∷ 0 ∷ []) × (3 < width board.now.plan) }
    requires base { (P.seen port.old).owner ≡ 0 }
    ensures same { IsSameHart (P.seen port.old) (P.seen port.new) }
    ensures base { result ≡ true → (P.seen port.new).owner ≡ 0 }
{
    if port.skip((), 1) != Ok(()) || !has(board, first, [5, 0, 0]) {
        return false;
    }
    is_taken(port) && has(board, first, [5, 0, 0]) && is_seen_gone(port)
}

// Whether another hart is refused at a site that was skipped, and sees it gone.
fn is_refused<L: Laid, P: Port<Hold = ()>>(board: &Board<L>, port: &mut P, first: u64) -> bool
    requires plan { ((P.seen port.old).plan.parents ≡ 0 ∷ 1 ∷ 0 ∷ []) × (3 < width board.now.plan) }
    requires base { (P.seen port.old).owner ≡ 0 }
    ensures same { IsSameHart (P.seen port.old) (P.seen port.new) }
    ensures base { result ≡ true → (P.seen port.new).owner ≡ 0 }
{
    if !is_taken(port) || port.try_enter((), 1) != (Entered::NotWanted { shown: 5 }) {
        return false;
    }
    has(board, first, [5, 0, 0]) && is_seen_gone(port)
}

// Whether site 3 is registered, left and gone.
fn has_come_and_gone<L: Laid, P: Port<Hold = ()>>(
    board: &Board<L>,
    port: &mut P,
    firsts: [u64; 3],
) -> bool
    requires plan { ((P.seen port.old).plan.parents ≡ 0 ∷ 1 ∷ 0 ∷ []) × (3 < width board.now.plan) }
    requires base { (P.seen port.old).owner ≡ 0 }
    ensures same { IsSameHart (P.seen port.old) (P.seen port.new) }
{
    if port.register((), 3) != Ok(()) || !has(board, firsts[1], [5, 0, 1]) {
        return false;
    }
    port.close_site(());
    if !has(board, firsts[1], [5, 0, 3]) || port.see_empty(()) != Seen::Empty {
        return false;
    }
    port.unregister(());
    has(board, firsts[2], [5, 0, 7]) && port.see_gone((), 3)
}

// The fault of the entries if these sites are meant to be entered: the least site that is registered and not meant, or meant and
// not registered.
fn fault_of(meant: [bool; 3]) -> Option<Fault> {
    let site = if meant[0] {
        1
    } else if meant[1] {
        2
    } else if !meant[2] {
        3
    } else {
        return None;
    };
    Some(Fault {
        place: 3,
        why: Why::Unmeant {
            site,
            registered: site == 3,
        },
    })
}

// Whether the entries are those of this hart, and have these faults.
fn are_reported(alloc: Global, plan: &Plan, hart: u8, found: &[Entry]) -> Result<bool, Fail>
    requires { site_count plan.now ≡ 3 }
{
    if found.len() != 3 || found != entries(hart).as_slice() {
        return Ok(false);
    }
    for bits in 0..8_u8 {
        let meant = [bits % 2 == 1, bits / 2 % 2 == 1, bits / 4 == 1];
        if first_fault(alloc, plan, &meant, found)? != fault_of(meant) {
            return Ok(false);
        }
    }
    Ok(true)
}

// Whether one hart skips site 1, where the other is refused, which registers site 3 and leaves it.
fn is_played<L: Laid, P: Port<Hold = ()>>(
    board: &Board<L>,
    one: &mut P,
    other: &mut P,
    firsts: [u64; 3],
) -> bool
    requires one { ((P.seen one.old).plan.parents ≡ 0 ∷ 1 ∷ 0 ∷ []) × ((P.seen one.old).owner ≡ 0) }
    requires other { ((P.seen other.old).plan.parents ≡ 0 ∷ 1 ∷ 0 ∷ [])
        × ((P.seen other.old).owner ≡ 0) }
    requires wide { 3 < width board.now.plan }
    ensures same { IsSameHart (P.seen one.old) (P.seen one.new)
        × IsSameHart (P.seen other.old) (P.seen other.new) }
{
    is_skipped(board, one, firsts[0])
        && is_refused(board, other, firsts[0])
        && has_come_and_gone(board, other, firsts)
}

// Whether two harts of a board do so, and the journal has their entries.
fn by_two<L: Laid>(alloc: Global, firsts: [u64; 3]) -> Result<(bool, bool), Fail>
    requires { HasRoom L.layout 2 }
{
    let plan = Plan::new(alloc, 2, &[0, 1, 0])?;
    let Opened {
        board,
        first,
        last,
        between,
    } = open::<L>(alloc, &plan)?;
    let mut one = BoardPort::new(&board, first);
    let mut other = BoardPort::new(&board, last);
    let is_played = is_played(&board, &mut one, &mut other, firsts);
    let first = seat_of(&board, one);
    let last = seat_of(&board, other);
    let closed = close(alloc, board, first, last, between)?;
    let is_reported = are_reported(alloc, &plan, 1, closed.entries())?;
    Ok((is_played, is_reported))
}

#[test]
fn a_site_with_one_below_is_skipped(rt: HostRuntime) -> Result<(), Fail> {
    assert_eq!(rt; by_two::<ByOwners>(rt.alloc(), OF_TWO)?, (true, true));
    assert_eq!(rt; by_two::<ByGuests>(rt.alloc(), BY_GUESTS)?, (true, true));
    Ok(())
}

// Whether one hart does both.
fn is_played_alone<L: Laid, P: Port<Hold = ()>>(
    board: &Board<L>,
    port: &mut P,
    firsts: [u64; 3],
) -> bool
    requires port { ((P.seen port.old).plan.parents ≡ 0 ∷ 1 ∷ 0 ∷ [])
        × ((P.seen port.old).owner ≡ 0) }
    requires wide { 3 < width board.now.plan }
    ensures same { IsSameHart (P.seen port.old) (P.seen port.new) }
{
    is_skipped(board, port, firsts[0]) && has_come_and_gone(board, port, firsts)
}

// Whether the only hart of a board does both, and the journal has its entries.
fn by_one<L: Laid>(alloc: Global, firsts: [u64; 3]) -> Result<(bool, bool), Fail>
    requires { HasRoom L.layout 1 }
{
    let plan = Plan::new(alloc, 1, &[0, 1, 0])?;
    let (board, seat) = open_one::<L>(alloc, &plan)?;
    let mut port = BoardPort::new(&board, seat);
    let is_played = is_played_alone(&board, &mut port, firsts);
    let seat = seat_of(&board, port);
    let closed = close_one(alloc, board, seat)?;
    let is_reported = are_reported(alloc, &plan, 0, closed.entries())?;
    Ok((is_played, is_reported))
}

#[test]
fn one_hart_skips_a_site(rt: HostRuntime) -> Result<(), Fail> {
    assert_eq!(rt; by_one::<ByOwners>(rt.alloc(), OF_ONE)?, (true, true));
    assert_eq!(rt; by_one::<ByGuests>(rt.alloc(), BY_GUESTS)?, (true, true));
    Ok(())
}
