//! A guest of a site that is the home of a site below it: it counts as a guest of the upper site until it yields.
ghost use Rattle.std.specs.Prelude.{◌≡◌, ◌<◌, ◌-◌, [], ◌∷◌, true, false};
ghost use Rattle.hart_port.specs.PortView.{is_in};
ghost use Rattle.board_rule.specs.Encodings.{width};
ghost use Rattle.board_rule.specs.Views.{fresh_view};
ghost use Rattle.lent_board.specs.Of.{IsOf};

use crate::seats::{Opened, close, open};
use lent_board::ByGuests;
use std::alloc::Global;
use std::test::Fail;
use transfer_table::{Entry, Plan, first_fault};
use wide_board::{Entered, Seen, WideBoard, WideSeat};

// Whether the clock and the words of the two sites are these.
fn has(board: &WideBoard, clock: u64, upper: u64, lower: u64) -> bool
    requires { 2 < width board.now.plan }
{
    board.peek(0) == clock && board.peek(1) == upper && board.peek(2) == lower
}

// Whether the guest enters the upper site, which then closes, and becomes the home of the lower one.
fn is_below(board: &WideBoard, home: &mut WideSeat, guest: &mut WideSeat) -> bool
    requires plan { board.now.plan ≡ record { harts = 2; parents = 0 ∷ 1 ∷ [] } }
    requires of { IsOf board.now home.old × IsOf board.now guest.old }
    requires home { home.old.seat.me.0 ≡ record (fresh_view board.now.plan 0) { made = 2 } }
    requires guest { guest.old.seat.me.0 ≡ fresh_view board.now.plan 1 }
    ensures of { IsOf board.now home.new × IsOf board.now guest.new }
    ensures harts { (home.new.seat.me.0.hart ≡ 0) × (guest.new.seat.me.0.hart ≡ 1) }
    ensures owner { result ≡ true → home.new.seat.me.0.owner ≡ 1 }
    ensures home { result ≡ true → is_in home.new.seat.me.0.marks.homes 1 ≡ true }
    ensures closed { result ≡ true → is_in home.new.seat.me.0.marks.closed 1 ≡ true }
    ensures below { result ≡ true → guest.new.seat.me.0.owner ≡ 2 }
    ensures guest { result ≡ true → is_in guest.new.seat.me.0.marks.homes 1 ≡ false }
    ensures lower { result ≡ true → is_in guest.new.seat.me.0.marks.homes 2 ≡ true }
    ensures open_yet { result ≡ true → is_in guest.new.seat.me.0.marks.closed 2 ≡ false }
{
    if board.register(home, 1) != Ok(()) {
        return false;
    }
    board.request(home, 1, 1);
    if board.try_enter(guest, 1) != Entered::Inside || board.register(guest, 2) != Ok(()) {
        return false;
    }
    board.close_site(home);
    has(board, 4, 65539, 1)
}

// Whether the guest leaves the lower site and then the upper one, whose guest it is until then.
fn is_left(board: &WideBoard, home: &mut WideSeat, guest: &mut WideSeat) -> bool
    requires plan { board.now.plan ≡ record { harts = 2; parents = 0 ∷ 1 ∷ [] } }
    requires of { IsOf board.now home.old × IsOf board.now guest.old }
    requires harts { (home.old.seat.me.0.hart ≡ 0) × (guest.old.seat.me.0.hart ≡ 1) }
    requires owner { home.old.seat.me.0.owner ≡ 1 }
    requires home { is_in home.old.seat.me.0.marks.homes 1 ≡ true }
    requires closed { is_in home.old.seat.me.0.marks.closed 1 ≡ true }
    requires below { guest.old.seat.me.0.owner ≡ 2 }
    requires guest { is_in guest.old.seat.me.0.marks.homes 1 ≡ false }
    requires lower { is_in guest.old.seat.me.0.marks.homes 2 ≡ true }
    requires open_yet { is_in guest.old.seat.me.0.marks.closed 2 ≡ false }
    ensures of { IsOf board.now home.new × IsOf board.now guest.new }
    ensures harts { (home.new.seat.me.0.hart ≡ 0) × (guest.new.seat.me.0.hart ≡ 1) }
    ensures owner { home.new.seat.me.0.owner ≡ 1 }
    ensures home { is_in home.new.seat.me.0.marks.homes 1 ≡ true }
    ensures closed { is_in home.new.seat.me.0.marks.closed 1 ≡ true }
{
    let flying = Seen::Flying { shown: 65539 };
    board.close_site(guest);
    if board.see_empty(home) != flying || !has(board, 4, 65539, 3) {
        return false;
    }
    let Seen::Empty = board.see_empty(guest) else {
        return false;
    };
    board.unregister(guest);
    if board.see_empty(home) != flying || !has(board, 5, 65539, 7) {
        return false;
    }
    board.yield_hart(guest);
    has(board, 6, 3, 7)
}

// Whether the home sees the lower site gone and its own empty, and leaves it.
fn is_over(board: &WideBoard, home: &mut WideSeat) -> bool
    requires plan { board.now.plan ≡ record { harts = 2; parents = 0 ∷ 1 ∷ [] } }
    requires of { IsOf board.now home.old }
    requires hart { home.old.seat.me.0.hart ≡ 0 }
    requires owner { home.old.seat.me.0.owner ≡ 1 }
    requires home { is_in home.old.seat.me.0.marks.homes 1 ≡ true }
    requires closed { is_in home.old.seat.me.0.marks.closed 1 ≡ true }
    ensures of { IsOf board.now home.new }
    ensures hart { home.new.seat.me.0.hart ≡ 0 }
{
    if !board.see_gone(home, 2) {
        return false;
    }
    let Seen::Empty = board.see_empty(home) else {
        return false;
    };
    board.unregister(home);
    has(board, 7, 7, 7)
}

// Whether these are seven entries, and complete.
fn is_complete(alloc: Global, plan: &Plan, entries: &[Entry]) -> Result<bool, Fail> {
    let all = vec![in alloc; true; plan.sites() as usize]?;
    Ok(entries.len() == 7 && first_fault(alloc, plan, &all, entries)? == None)
}

#[test]
fn a_guest_with_a_site_below(rt: HostRuntime) -> Result<(), Fail> {
    let plan = Plan::new(rt.alloc(), 2, &[0, 1])?;
    let Opened {
        board,
        mut first,
        mut last,
        between,
    } = open::<ByGuests>(rt.alloc(), &plan)?;
    assert!(rt; is_below(&board, &mut first, &mut last));
    assert!(rt; is_left(&board, &mut first, &mut last));
    assert!(rt; is_over(&board, &mut first));
    let closed = close(rt.alloc(), board, first, last, between)?;
    assert!(rt; is_complete(rt.alloc(), &plan, closed.entries())?);
    Ok(())
}
