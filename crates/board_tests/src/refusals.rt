//! Refusals of a hart, a hart without a guest, and a run that isn't complete, on a board of either layout.
ghost use Rattle.std.specs.Prelude.{◌≡◌, ◌≤◌, [], ◌∷◌};
ghost use Rattle.board_rule.specs.Layouts.{HasRoom};
ghost use Rattle.board_tests.specs.Harts.{AreTwo};

use crate::seats::{Opened, close, open};
use board_rule::Laid;
use hart_port::{Entered, Port, Seen, Taken};
use lent_board::{BoardPort, ByGuests, ByOwners};
use std::alloc::Global;
use std::test::Fail;
use transfer_table::{Fault, Plan, Why, first_fault};

// Whether a guest is refused at a site that is unclaimed, that wants no hart, and that is closing with a want.
fn is_not_wanted<P: Port<Hold = ()>>(home: &mut P, guest: &mut P) -> bool
    requires plans { ((P.seen home.old).plan.parents ≡ 0 ∷ [])
        × ((P.seen guest.old).plan.parents ≡ 0 ∷ []) }
    requires harts { 2 ≤ (P.seen home.old).plan.harts }
    requires base { ((P.seen home.old).owner ≡ 0) × ((P.seen guest.old).owner ≡ 0) }
{
    if guest.try_enter((), 1) != (Entered::NotWanted { shown: 0 })
        || home.register((), 1) != Ok(())
        || guest.register((), 1) != Err(Taken { shown: 1 })
        || guest.skip((), 1) != Err(Taken { shown: 1 })
        || guest.try_enter((), 1) != (Entered::NotWanted { shown: 1 })
    {
        return false;
    }
    home.request((), 1, 1);
    home.close_site(());
    guest.try_enter((), 1) == Entered::NotWanted { shown: 259 }
}

// Whether a site that its home has left refuses a guest, another home and a skip by the word of a site that is gone.
fn is_gone<P: Port<Hold = ()>>(home: &mut P, other: &mut P) -> bool
    requires plans { ((P.seen home.old).plan.parents ≡ 0 ∷ [])
        × ((P.seen other.old).plan.parents ≡ 0 ∷ []) }
    requires base { ((P.seen home.old).owner ≡ 0) × ((P.seen other.old).owner ≡ 0) }
{
    if home.register((), 1) != Ok(()) {
        return false;
    }
    home.close_site(());
    if home.see_empty(()) != Seen::Empty {
        return false;
    }
    home.unregister(());
    other.try_enter((), 1) == Entered::NotWanted { shown: 7 }
        && other.register((), 1) == Err(Taken { shown: 7 })
        && other.skip((), 1) == Err(Taken { shown: 7 })
}

// Whether a hart sees its site empty once it has closed it, though no hart came that it requested.
fn is_left_alone<P: Port<Hold = ()>>(port: &mut P) -> bool
    requires plan { (P.seen port.old).plan.parents ≡ 0 ∷ [] }
    requires harts { 2 ≤ (P.seen port.old).plan.harts }
    requires base { (P.seen port.old).owner ≡ 0 }
{
    if port.hart() != 0 || port.owner() != 0 || port.register((), 1) != Ok(()) {
        return false;
    }
    port.request((), 1, 1);
    if port.see_gone((), 1) {
        return false;
    }
    port.close_site(());
    port.see_empty(()) == Seen::Empty && port.owner() == 1
}

// The same for two harts of a board.
fn stays_out<L: Laid>(opened: Opened<L>) -> bool
    requires { AreTwo opened.board opened.first opened.last }
{
    let Opened {
        board,
        first,
        last,
        between: _,
    } = opened;
    let mut home = BoardPort::new(&board, first);
    let mut guest = BoardPort::new(&board, last);
    is_not_wanted(&mut home, &mut guest)
}

fn goes<L: Laid>(opened: Opened<L>) -> bool
    requires { AreTwo opened.board opened.first opened.last }
{
    let Opened {
        board,
        first,
        last,
        between: _,
    } = opened;
    let mut home = BoardPort::new(&board, first);
    let mut other = BoardPort::new(&board, last);
    is_gone(&mut home, &mut other)
}

fn stays_alone<L: Laid>(opened: Opened<L>) -> bool
    requires { AreTwo opened.board opened.first opened.last }
{
    let Opened {
        board,
        first,
        last: _,
        between: _,
    } = opened;
    is_left_alone(&mut BoardPort::new(&board, first))
}

// Whether a new board of one site and two harts has each of the three.
fn refuses<L: Laid>(alloc: Global) -> Result<(bool, bool, bool), Fail>
    requires { HasRoom L.layout 2 }
{
    let plan = Plan::new(alloc, 2, &[0])?;
    let is_out = stays_out(open::<L>(alloc, &plan)?);
    let is_gone = goes(open::<L>(alloc, &plan)?);
    let is_alone = stays_alone(open::<L>(alloc, &plan)?);
    Ok((is_out, is_gone, is_alone))
}

#[test]
fn harts_are_refused_by_owners(rt: HostRuntime) -> Result<(), Fail> {
    assert_eq!(rt; refuses::<ByOwners>(rt.alloc())?, (true, true, true));
    Ok(())
}

#[test]
fn harts_are_refused_by_guests(rt: HostRuntime) -> Result<(), Fail> {
    assert_eq!(rt; refuses::<ByGuests>(rt.alloc())?, (true, true, true));
    Ok(())
}

// The number of entries of a board that was closed after a register, and the fault of its journal, if the register was made.
fn fault_of<L: Laid>(alloc: Global) -> Result<(bool, usize, Option<Fault>), Fail>
    requires { HasRoom L.layout 2 }
{
    let plan = Plan::new(alloc, 2, &[0])?;
    let Opened {
        board,
        mut first,
        last,
        between,
    } = open::<L>(alloc, &plan)?;
    let is_made = board.register(&mut first, 1) == Ok(());
    let closed = close(alloc, board, first, last, between)?;
    let entries = closed.entries();
    if entries.len() != 1 {
        return Ok((is_made, entries.len(), None));
    }
    let fault = first_fault(alloc, &plan, &[true], entries)?;
    Ok((is_made, 1, fault))
}

const UNFINISHED: Fault = Fault {
    place: 1,
    why: Why::Unfinished { site: 1 },
};

#[test]
fn a_run_that_is_not_complete(rt: HostRuntime) -> Result<(), Fail> {
    let by_owners = fault_of::<ByOwners>(rt.alloc())?;
    assert_eq!(rt; by_owners, (true, 1, Some(UNFINISHED)));
    let by_guests = fault_of::<ByGuests>(rt.alloc())?;
    assert_eq!(rt; by_guests, (true, 1, Some(UNFINISHED)));
    Ok(())
}
