//! The board and its calls.
ghost use Rattle.std.specs.Prelude.{◌≡◌, ◌≤◌, true, false, ◌∷◌, [], ◌<◌};
ghost use Rattle.transfer_table.specs.Plan.{IsPlan, IsSite, parent, site_count};
ghost use Rattle.transfer_table.specs.declared.entry.Entry.TheVariants.{Request, Yield, Unregister};
ghost use Rattle.hart_port.specs.PortView.{is_in};
ghost use Rattle.board_rule.specs.declared.layout.Layout.TheVariants.{Owners};
ghost use Rattle.board_rule.specs.Encodings.{width};
ghost use Rattle.board_rule.specs.Views.{close_view, left_marks};
ghost use Rattle.lent_board.specs.Calls.{Registers, Skips, MayAsk, Makes, Enters, SeesGone, Sees, SeesOwners, MayLeaveHome};

use crate::room::Room;
use crate::seat::HartSeat;
use crate::words::is_held;
use atomic_table::Table;
use board_rule::{BoardRule, GUEST, Laid, Layout, View};
use hart_port::{Entered, Seen, Taken, is_claimed, is_closed, is_wanted};
use std::alloc::Global;
use transfer_table::{Entry, Plan};

/// The table of lent harts as atomic words.
#[derive(Drop)]
pub struct Board<L: Laid> {
    pub(crate) table: Table<(), View, Plan, BoardRule<L>, Global>,
    pub(crate) plan: Plan,
    pub(crate) sites: u16,
    pub(crate) room: Room<L>,
    pub ghost key: { table.shared.key ≡ plan },
    pub ghost is_plan: { IsPlan plan },
    pub ghost harts: { room.harts ≡ plan.harts },
    pub ghost counts: { sites ≡ site_count plan },
    pub ghost wide: { table.shared.table_id.words ≡ width plan },
    pub ghost slotless: { table.shared.table_id.slots ≡ 0 },
}

/// Each call requires that the seat is a seat of this board.
impl<L: Laid> Board<L> {
    ghost use Rattle.lent_board.specs.Of.{IsOf};

    /// Makes Register of the site, a child of the owner. The hart becomes the site's home.
    ///
    /// # Errors
    ///
    /// `Taken` with the site's word if the site was claimed. The hart then made no entry.
    pub fn register(&self, seat: &mut HartSeat, site: u16) -> Result<(), Taken>
        requires of { IsOf self.now seat.old }
        requires site { IsSite self.now.plan site }
        requires child { seat.old.seat.me.0.owner ≡ parent self.now.plan site }
        ensures of { IsOf self.now seat.new }
        ensures does { Registers seat.old.seat.me.0 site result seat.new.seat.me.0 }
    {
        let (hart, owner) = (seat.hart, seat.owner);
        let shown = self.claim(&mut seat.seat, site);
        if is_claimed(shown) {
            return Err(Taken { shown });
        }
        let place = self.make_register(&mut seat.seat, hart, owner, site);
        seat.owner = site;
        self.jot(&mut seat.seat, place, Entry::Register { hart, site });
        Ok(())
    }

    /// Makes Skip of the site, a child of the owner. The hart stays in its owner.
    ///
    /// # Errors
    ///
    /// `Taken` with the site's word if the site was claimed. The hart then made no entry.
    pub fn skip(&self, seat: &mut HartSeat, site: u16) -> Result<(), Taken>
        requires of { IsOf self.now seat.old }
        requires site { IsSite self.now.plan site }
        requires child { seat.old.seat.me.0.owner ≡ parent self.now.plan site }
        ensures of { IsOf self.now seat.new }
        ensures does { Skips seat.old.seat.me.0 site result seat.new.seat.me.0 }
    {
        let hart = seat.hart;
        let found = self.claim(&mut seat.seat, site);
        if is_claimed(found) {
            return Err(Taken { shown: found });
        }
        let place = self.make_skip(&mut seat.seat, site);
        self.jot(&mut seat.seat, place, Entry::Skip { hart, site });
        self.seal(&mut seat.seat, site);
        Ok(())
    }

    /// Makes Request of the site for `count` more harts. The hart is in the site and its home, and hasn't closed it. `count` is
    /// at least 1, and all its requests of the site add up to fewer than the plan's harts.
    pub fn request(&self, seat: &mut HartSeat, site: u16, count: u8)
        requires of { IsOf self.now seat.old }
        requires site { IsSite self.now.plan site }
        requires may { MayAsk self.now.plan seat.old.seat.me.0 site count }
        ensures of { IsOf self.now seat.new }
        ensures does { Makes (Request seat.old.seat.me.0.hart site count) site
            seat.old.seat.me.0.marks seat.old.seat.me.0 seat.new.seat.me.0 }
    {
        let hart = seat.hart;
        let place = self.make_request(&mut seat.seat, count);
        self.jot(&mut seat.seat, place, Entry::Request { hart, site, count });
        self.credit(&mut seat.seat, site, count);
    }

    /// Tries to make Enter of the site, a child of the owner. Returns the word that was read if the hart isn't inside.
    pub fn try_enter(&self, seat: &mut HartSeat, site: u16) -> Entered
        requires of { IsOf self.now seat.old }
        requires site { IsSite self.now.plan site }
        requires child { seat.old.seat.me.0.owner ≡ parent self.now.plan site }
        ensures of { IsOf self.now seat.new }
        ensures does { Enters seat.old.seat.me.0 site result seat.new.seat.me.0 }
    {
        let (hart, owner) = (seat.hart, seat.owner);
        let read = self.glance(&mut seat.seat, site);
        if !is_wanted(read) {
            return Entered::NotWanted { shown: read };
        }
        let found = self.reserve(&mut seat.seat, site, read);
        if found != read {
            return Entered::Moved { read, found };
        }
        let place = self.make_enter(&mut seat.seat, hart, owner, site);
        seat.owner = site;
        self.jot(&mut seat.seat, place, Entry::Enter { hart, site });
        self.arrive(&mut seat.seat, site);
        Entered::Inside
    }

    /// Makes Yield of the owner. The hart isn't the owner's home.
    pub fn yield_hart(&self, seat: &mut HartSeat)
        requires of { IsOf self.now seat.old }
        requires inside { 0 < seat.old.seat.me.0.owner }
        requires guest { is_in seat.old.seat.me.0.marks.homes seat.old.seat.me.0.owner ≡ false }
        ensures of { IsOf self.now seat.new }
        ensures does { Makes (Yield seat.old.seat.me.0.hart seat.old.seat.me.0.owner)
            (parent self.now.plan seat.old.seat.me.0.owner) seat.old.seat.me.0.marks
            seat.old.seat.me.0 seat.new.seat.me.0 }
    {
        let (hart, site) = (seat.hart, seat.owner);
        let above = self.plan.parent(site);
        let place = self.make_yield(&mut seat.seat, hart, site, above);
        seat.owner = above;
        self.jot(&mut seat.seat, place, Entry::Yield { hart, site });
        self.depart(&mut seat.seat, site);
    }

    /// Closes the owner, so that it admits no further hart. The hart is the owner's home.
    pub fn close_site(&self, seat: &mut HartSeat)
        requires of { IsOf self.now seat.old }
        requires home { is_in seat.old.seat.me.0.marks.homes seat.old.seat.me.0.owner ≡ true }
        requires open_yet { is_in seat.old.seat.me.0.marks.closed seat.old.seat.me.0.owner ≡ false }
        ensures of { IsOf self.now seat.new }
        ensures does { seat.new.seat.me.0 ≡ close_view seat.old.seat.me.0 }
    {
        let site = seat.owner;
        self.shut(&mut seat.seat, site);
    }

    /// Whether the site is gone: whether the site's word, which the call reads, is closed.
    pub fn see_gone(&self, seat: &mut HartSeat, site: u16) -> bool
        requires of { IsOf self.now seat.old }
        requires site { IsSite self.now.plan site }
        ensures of { IsOf self.now seat.new }
        ensures does { SeesGone seat.old.seat.me.0 site result seat.new.seat.me.0 }
    {
        is_closed(self.look_gone(&mut seat.seat, site))
    }

    /// Checks whether the owner, which the hart has closed, has a guest. With guests, a guest is another hart in the owner or
    /// in a site below it, on its way in, or leaving, and `Held` is never returned. With owners, a guest is a hart on its way
    /// in, and `Held` reports another hart in the owner.
    pub fn see_empty(&self, seat: &mut HartSeat) -> Seen
        requires of { IsOf self.now seat.old }
        requires home { is_in seat.old.seat.me.0.marks.homes seat.old.seat.me.0.owner ≡ true }
        requires closed { is_in seat.old.seat.me.0.marks.closed seat.old.seat.me.0.owner ≡ true }
        ensures of { IsOf self.now seat.new }
        ensures does { Sees L.layout seat.old.seat.me.0 result seat.new.seat.me.0 }
    {
        let (hart, site) = (seat.hart, seat.owner);
        let shown = self.look_drained(&mut seat.seat, site);
        if shown / GUEST > 0 {
            return Seen::Flying { shown };
        }
        match L::layout() {
            Layout::Owners => self.see_owners(seat, hart, site),
            Layout::Guests => Seen::Empty,
        }
    }

    // The read of a first word that holds the owners.
    fn see_owners(&self, seat: &mut HartSeat, hart: u8, site: u16) -> Seen
        requires of { IsOf self.now seat.old }
        requires layout { L.layout ≡ Owners }
        requires numbers { (seat.old.seat.me.0.hart ≡ hart) × (seat.old.seat.me.0.owner ≡ site) }
        requires drained { is_in seat.old.seat.me.0.marks.drained seat.old.seat.me.0.owner ≡ true }
        ensures of { IsOf self.now seat.new }
        ensures does { SeesOwners seat.old.seat.me.0 result seat.new.seat.me.0 }
    {
        let shown = self.look_empty(&mut seat.seat);
        if is_held(shown, self.plan.harts(), hart, site) {
            return Seen::Held { shown };
        }
        Seen::Empty
    }

    /// Makes Unregister of the owner. The hart has closed the owner, has seen every child gone, and has seen the owner empty
    /// since.
    pub fn unregister(&self, seat: &mut HartSeat)
        requires of { IsOf self.now seat.old }
        requires may { MayLeaveHome self.now.plan seat.old.seat.me.0 }
        ensures of { IsOf self.now seat.new }
        ensures does { Makes (Unregister seat.old.seat.me.0.hart seat.old.seat.me.0.owner)
            (parent self.now.plan seat.old.seat.me.0.owner)
            (left_marks seat.old.seat.me.0.owner seat.old.seat.me.0.marks) seat.old.seat.me.0
            seat.new.seat.me.0 }
    {
        let (hart, site) = (seat.hart, seat.owner);
        let above = self.plan.parent(site);
        let place = self.make_unregister(&mut seat.seat, hart, site, above);
        seat.owner = above;
        self.jot(&mut seat.seat, place, Entry::Unregister { hart, site });
        self.seal(&mut seat.seat, site);
    }

    /// The atomic word at this index: the first word, then the words of the sites, then those of the journal. It needs no seat
    /// and changes no view. Tests compare words by it.
    pub fn peek(&self, place: usize) -> u64
        requires { place < width self.now.plan }
    {
        self.table.shared.peek(place)
    }
}
