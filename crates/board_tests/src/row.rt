//! Two harts at one site, by any port: five entries. After each call the words are compared.
ghost use Rattle.std.specs.Prelude.{◌≡◌, ◌<◌, ◌≤◌, [], ◌∷◌, true, false};
ghost use Rattle.transfer_table.specs.Entry.{requested};
ghost use Rattle.hart_port.specs.PortView.{is_in};
ghost use Rattle.board_rule.specs.Encodings.{width};
ghost use Rattle.board_rule.specs.Layouts.{HasRoom};
ghost use Rattle.board_tests.specs.Roam.{IsSameHart, HasLooked};

use crate::seats::{Opened, close, open, seat_of};
use crate::shows::{Shown, Shows};
use board_rule::Laid;
use hart_port::{Entered, Port, Seen, Taken};
use lent_board::{Board, BoardPort, ByGuests, ByOwners};
use std::alloc::Global;
use std::test::Fail;
use transfer_table::{Entry, Plan, first_fault};

/// What a table shows of two harts at site 1.
pub(crate) struct Row {
    /// How many harts the home requests.
    pub asked: u8,
    /// The first word and that of the site, after the register, the request, the enter, the close, the yield and the unregister.
    pub shown: [(u64, u64); 6],
    /// What the home sees while its guest is inside.
    pub seen: Seen,
}

/// Two harts, and a first word that holds their owners.
pub(crate) const BY_OWNERS: Row = Row {
    asked: 1,
    shown: [
        (281474976710657, 1),
        (562949953421313, 257),
        (844424930136065, 1),
        (844424930136065, 3),
        (1125899906842625, 3),
        (1407374883553280, 7),
    ],
    seen: Seen::Held {
        shown: 844424930136065,
    },
};

// The words of a journal whose home is hart 0 and requests one hart, and whose guest is hart 1.
const SPELLED_BY_OWNERS: [u64; 5] = [65537, 65794, 65547, 65548, 65541];

/// Two of five harts, and a site's word that counts guests.
const BY_GUESTS: Row = Row {
    asked: 2,
    shown: [(1, 1), (2, 513), (3, 65793), (3, 65795), (4, 259), (5, 263)],
    seen: Seen::Flying { shown: 65795 },
};

// The words of a journal whose home is hart 0 and requests two harts, and whose guest is hart 4.
const SPELLED_BY_GUESTS: [u64; 5] = [65537, 66050, 65571, 65572, 65541];

/// Whether the entries are the five of the row, where the guest is the last hart, and complete.
pub(crate) fn is_row(
    alloc: Global,
    plan: &Plan,
    asked: u8,
    entries: &[Entry],
) -> Result<bool, Fail> {
    let guest = plan.harts() - 1;
    let row = [
        Entry::Register { hart: 0, site: 1 },
        Entry::Request {
            hart: 0,
            site: 1,
            count: asked,
        },
        Entry::Enter {
            hart: guest,
            site: 1,
        },
        Entry::Yield {
            hart: guest,
            site: 1,
        },
        Entry::Unregister { hart: 0, site: 1 },
    ];
    if entries.len() != 5 || entries != row.as_slice() {
        return Ok(false);
    }
    let all = vec![in alloc; true; plan.sites() as usize]?;
    Ok(first_fault(alloc, plan, &all, entries)? == None)
}

// Whether a hart that wants the site is refused there, and isn't wanted in it.
fn is_kept_out<P: Port, W: Shows<P::Hold>>(
    table: &W,
    guest: &mut P,
    hold: P::Hold,
    row: &Row,
) -> bool
    requires plan { (P.seen guest.old).plan.parents ≡ 0 ∷ [] }
    requires base { (P.seen guest.old).owner ≡ 0 }
    ensures same { IsSameHart (P.seen guest.old) (P.seen guest.new) }
    ensures kept { result ≡ true → P.seen guest.new ≡ P.seen guest.old }
{
    guest.register(hold, 1) == Err(Taken { shown: 1 })
        && guest.try_enter(hold, 1) == (Entered::NotWanted { shown: 1 })
        && table.words(hold) == row.shown[0]
}

// Whether the home requests harts, and one other then enters.
fn has_entered<P: Port, W: Shows<P::Hold>>(
    table: &W,
    home: &mut P,
    guest: &mut P,
    hold: P::Hold,
    row: &Row,
) -> bool
    requires plans { ((P.seen home.old).plan.parents ≡ 0 ∷ [])
        × ((P.seen guest.old).plan.parents ≡ 0 ∷ []) }
    requires asked { (1 ≤ row.now.asked) × (row.now.asked < (P.seen home.old).plan.harts) }
    requires home { ((P.seen home.old).owner ≡ 1) × (is_in (P.seen home.old).homes 1 ≡ true)
        × (is_in (P.seen home.old).closed 1 ≡ false) }
    requires unasked { requested 1 (P.seen home.old).mine ≡ 0 }
    requires guest { ((P.seen guest.old).owner ≡ 0) × (is_in (P.seen guest.old).homes 1 ≡ false) }
    ensures same { IsSameHart (P.seen home.old) (P.seen home.new)
        × IsSameHart (P.seen guest.old) (P.seen guest.new) }
    ensures home { ((P.seen home.new).owner ≡ 1) × (is_in (P.seen home.new).homes 1 ≡ true)
        × (is_in (P.seen home.new).closed 1 ≡ false) }
    ensures inside { result ≡ true → ((P.seen guest.new).owner ≡ 1)
        × (is_in (P.seen guest.new).homes 1 ≡ false) }
{
    home.request(hold, 1, row.asked);
    table.words(hold) == row.shown[1]
        && guest.try_enter(hold, 1) == Entered::Inside
        && table.words(hold) == row.shown[2]
}

// Whether one hart registers the site and requests harts, and one other enters after the request and not before.
fn has_come<P: Port, W: Shows<P::Hold>>(
    table: &W,
    home: &mut P,
    guest: &mut P,
    hold: P::Hold,
    row: &Row,
) -> bool
    requires plans { ((P.seen home.old).plan.parents ≡ 0 ∷ [])
        × ((P.seen guest.old).plan.parents ≡ 0 ∷ []) }
    requires asked { (1 ≤ row.now.asked) × (row.now.asked < (P.seen home.old).plan.harts) }
    requires base { ((P.seen home.old).owner ≡ 0) × ((P.seen guest.old).owner ≡ 0) }
    requires guest { is_in (P.seen guest.old).homes 1 ≡ false }
    ensures same { IsSameHart (P.seen home.old) (P.seen home.new)
        × IsSameHart (P.seen guest.old) (P.seen guest.new) }
    ensures home { result ≡ true → ((P.seen home.new).owner ≡ 1)
        × (is_in (P.seen home.new).homes 1 ≡ true) × (is_in (P.seen home.new).closed 1 ≡ false) }
    ensures inside { result ≡ true → ((P.seen guest.new).owner ≡ 1)
        × (is_in (P.seen guest.new).homes 1 ≡ false) }
{
    if home.register(hold, 1) != Ok(()) || table.words(hold) != row.shown[0] {
        return false;
    }
    is_kept_out(table, guest, hold, row) && has_entered(table, home, guest, hold, row)
}

// Whether the home sees this of its site.
fn sees<P: Port>(home: &mut P, hold: P::Hold, seen: &Seen) -> bool
    requires home { is_in (P.seen home.old).homes (P.seen home.old).owner ≡ true }
    requires closed { is_in (P.seen home.old).closed (P.seen home.old).owner ≡ true }
    ensures { HasLooked (P.seen home.old) (P.seen home.new) }
{
    match home.see_empty(hold) {
        Seen::Empty => *seen == Seen::Empty,
        Seen::Flying { shown } => *seen == Seen::Flying { shown },
        Seen::Held { shown } => *seen == Seen::Held { shown },
    }
}

// Whether the site, once closed, has the guest, wants no other hart, is empty without the guest, and is gone when its home has
// left.
fn has_gone<P: Port, W: Shows<P::Hold>>(
    table: &W,
    home: &mut P,
    guest: &mut P,
    hold: P::Hold,
    row: &Row,
) -> bool
    requires plans { ((P.seen home.old).plan.parents ≡ 0 ∷ [])
        × ((P.seen guest.old).plan.parents ≡ 0 ∷ []) }
    requires home { ((P.seen home.old).owner ≡ 1) × (is_in (P.seen home.old).homes 1 ≡ true)
        × (is_in (P.seen home.old).closed 1 ≡ false) }
    requires guest { ((P.seen guest.old).owner ≡ 1) × (is_in (P.seen guest.old).homes 1 ≡ false) }
    ensures same { IsSameHart (P.seen home.old) (P.seen home.new)
        × IsSameHart (P.seen guest.old) (P.seen guest.new) }
{
    home.close_site(hold);
    if table.words(hold) != row.shown[3] || !sees(home, hold, &row.seen) {
        return false;
    }
    guest.yield_hart(hold);
    let left = Entered::NotWanted {
        shown: row.shown[4].1,
    };
    if table.words(hold) != row.shown[4] || guest.try_enter(hold, 1) != left {
        return false;
    }
    if home.see_empty(hold) != Seen::Empty {
        return false;
    }
    home.unregister(hold);
    table.words(hold) == row.shown[5] && home.see_gone(hold, 1)
}

/// Whether two harts meet at the site, and leave it, with these words.
pub(crate) fn is_played<P: Port, W: Shows<P::Hold>>(
    table: &W,
    home: &mut P,
    guest: &mut P,
    hold: P::Hold,
    row: &Row,
) -> bool
    requires plans { ((P.seen home.old).plan.parents ≡ 0 ∷ [])
        × ((P.seen guest.old).plan.parents ≡ 0 ∷ []) }
    requires asked { (1 ≤ row.now.asked) × (row.now.asked < (P.seen home.old).plan.harts) }
    requires base { ((P.seen home.old).owner ≡ 0) × ((P.seen guest.old).owner ≡ 0) }
    requires guest { is_in (P.seen guest.old).homes 1 ≡ false }
    ensures same { IsSameHart (P.seen home.old) (P.seen home.new)
        × IsSameHart (P.seen guest.old) (P.seen guest.new) }
{
    has_come(table, home, guest, hold, row) && has_gone(table, home, guest, hold, row)
}

// Whether the journal's words are those of the five entries.
fn is_spelled<L: Laid>(board: &Board<L>, spelled: &[u64; 5]) -> bool
    requires { 6 < width board.now.plan }
{
    let mut same = true;
    for place in 0..5 {
        same = same && board.peek(2 + place) == spelled[place];
    }
    same
}

// Whether two harts of a board have these words, the journal's words are these, and the entries are those of the row.
fn shows<L: Laid>(
    alloc: Global,
    harts: u8,
    row: &Row,
    spelled: &[u64; 5],
) -> Result<(bool, bool, bool), Fail>
    requires asked { (1 ≤ row.now.asked) × (row.now.asked < harts) }
    requires room { HasRoom L.layout harts }
{
    let plan = Plan::new(alloc, harts, &[0])?;
    let Opened {
        board,
        first,
        last,
        between,
    } = open::<L>(alloc, &plan)?;
    let mut home = BoardPort::new(&board, first);
    let mut guest = BoardPort::new(&board, last);
    let is_played = is_played(&Shown { board: &board }, &mut home, &mut guest, (), row);
    let is_spelled = is_spelled(&board, spelled);
    let first = seat_of(&board, home);
    let last = seat_of(&board, guest);
    let closed = close(alloc, board, first, last, between)?;
    let is_row = is_row(alloc, &plan, row.asked, closed.entries())?;
    Ok((is_played, is_spelled, is_row))
}

#[test]
fn two_harts_at_one_site(rt: HostRuntime) -> Result<(), Fail> {
    let shown = shows::<ByOwners>(rt.alloc(), 2, &BY_OWNERS, &SPELLED_BY_OWNERS)?;
    assert_eq!(rt; shown, (true, true, true));
    Ok(())
}

#[test]
fn two_of_many_harts_at_one_site(rt: HostRuntime) -> Result<(), Fail> {
    let shown = shows::<ByGuests>(rt.alloc(), 5, &BY_GUESTS, &SPELLED_BY_GUESTS)?;
    assert_eq!(rt; shown, (true, true, true));
    Ok(())
}
