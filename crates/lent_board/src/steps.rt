//! The kinds of step, each a single change of one word by a seat.
ghost use Rattle.std.specs.Prelude.{◌≡◌, ◌<◌, Some};
ghost use Rattle.transfer_table.specs.Plan.{IsSite, parent, room};
ghost use Rattle.transfer_table.specs.Entry.{registers, requested};
ghost use Rattle.board_rule.specs.Rule.{FitsPlan};
ghost use Rattle.board_rule.specs.Steps.{IsReady, MayFollow, MayClaim, MayReserve, MayRequest, MayYield, MayClose, MaySeeDrained, MaySeeEmpty, MayUnregister};
ghost use Rattle.board_rule.specs.Views.{claim_view, reserve_view, glance_view, see_gone_view, see_drained_view, see_empty_view, close_view, done_view, jot_view, register_view, request_view, enter_view, yield_view, unregister_view, skip_view};
ghost use Rattle.board_rule.specs.declared.view.Doing.TheVariants.{Claiming, Crediting, Reserved, Landing, Leaving, Sealing};
ghost use Rattle.board_rule.specs.declared.layout.Layout.TheVariants.{Owners};
ghost use Rattle.board_rule.specs.Layouts.{after_enter, after_yield};

use crate::amounts::{entries_of, fall, rise, stay};
use crate::board::Board;
use crate::plays::{
    Asked, Claim, Follow, Glance, Jot, MakeEnter, MakeRegister, MakeRequest, MakeSkip,
    MakeUnregister, MakeYield, Reserve, SeeDrained, SeeEmpty, SeeGone, Shut,
};
use atomic_table::Seat;
use board_rule::{GUEST, Laid, Layout, View, word_of};
use hart_port::{CLAIMED, CLOSED, CLOSING, WISH};
use std::marker::Brand;
use transfer_table::Entry;

impl<L: Laid> Board<L> {
    ghost use Rattle.lent_board.specs.Of.{IsOn};
    ghost use Rattle.lent_board.specs.Plays.{IsSmall};

    /// Claims the site. Returns the word found.
    pub(crate) fn claim(&self, seat: &mut Seat<(), View>, site: u16) -> u64
        requires on { IsOn self.now seat.old.table_id seat.old.me.0 }
        requires may { MayClaim self.now.plan seat.old.me.0 site }
        ensures on { IsOn self.now seat.new.table_id seat.new.me.0 }
        ensures view { seat.new.me ≡ (claim_view site result seat.old.me.0, seat.old.me.1) }
        ensures fits { FitsPlan seat.new.me.0 }
    {
        self.table
            .shared
            .fetch_or::<Claim>(seat, site as usize, CLAIMED)
    }

    /// Makes the Register of the claimed site. Returns the index of its entry.
    pub(crate) fn make_register(
        &self,
        seat: &mut Seat<(), View>,
        hart: u8,
        owner: u16,
        site: u16,
    ) -> u64
        requires on { IsOn self.now seat.old.table_id seat.old.me.0 }
        requires numbers { (seat.old.me.0.hart ≡ hart) × (seat.old.me.0.owner ≡ owner) }
        requires child { IsSite self.now.plan site × (owner ≡ parent self.now.plan site) }
        requires claiming { seat.old.me.0.doing ≡ Claiming site }
        ensures on { IsOn self.now seat.new.table_id seat.new.me.0 }
        ensures view { seat.new.me ≡ (register_view result seat.old.me.0, seat.old.me.1) }
        ensures fits { FitsPlan seat.new.me.0 }
        ensures place { result < room self.now.plan }
        ensures first { (registers site seat.old.me.0.mine ≡ 0)
            × (requested site seat.old.me.0.mine ≡ 0) }
    {
        let amount = rise::<L>(hart, owner, site);
        entries_of::<L>(
            self.table
                .shared
                .fetch_add::<MakeRegister<L>>(seat, 0, amount),
        )
    }

    /// Makes the Skip of the claimed site. Returns the index of its entry.
    pub(crate) fn make_skip(&self, seat: &mut Seat<(), View>, site: u16) -> u64
        requires on { IsOn self.now seat.old.table_id seat.old.me.0 }
        requires claiming { seat.old.me.0.doing ≡ Claiming site }
        ensures on { IsOn self.now seat.new.table_id seat.new.me.0 }
        ensures view { seat.new.me ≡ (skip_view result seat.old.me.0, seat.old.me.1) }
        ensures fits { FitsPlan seat.new.me.0 }
        ensures place { result < room self.now.plan }
    {
        // The step is about the claimed site.
        let _ = site;
        let amount = stay::<L>();
        entries_of::<L>(self.table.shared.fetch_add::<MakeSkip<L>>(seat, 0, amount))
    }

    /// Makes a Request of the owner for `count` harts. Returns the index of its entry.
    pub(crate) fn make_request(&self, seat: &mut Seat<(), View>, count: u8) -> u64
        requires on { IsOn self.now seat.old.table_id seat.old.me.0 }
        requires may { MayRequest self.now.plan seat.old.me.0 count }
        ensures on { IsOn self.now seat.new.table_id seat.new.me.0 }
        ensures view { seat.new.me ≡ (request_view count result seat.old.me.0, seat.old.me.1) }
        ensures fits { FitsPlan seat.new.me.0 }
        ensures place { result < room self.now.plan }
    {
        self.make_request_as::<Brand>(seat, count)
    }

    /// The same, with the count named by the type of the step.
    fn make_request_as<A: Asked>(&self, seat: &mut Seat<(), View>, count: u8) -> u64
        requires on { IsOn self.now seat.old.table_id seat.old.me.0 }
        requires asked { count ≡ A.count }
        requires may { MayRequest self.now.plan seat.old.me.0 count }
        ensures on { IsOn self.now seat.new.table_id seat.new.me.0 }
        ensures view { seat.new.me ≡ (request_view count result seat.old.me.0, seat.old.me.1) }
        ensures fits { FitsPlan seat.new.me.0 }
        ensures place { result < room self.now.plan }
    {
        // The step's type has the count, by the clause `asked`.
        let _ = count;
        let amount = stay::<L>();
        entries_of::<L>(
            self.table
                .shared
                .fetch_add::<MakeRequest<L, A>>(seat, 0, amount),
        )
    }

    /// Makes the Enter of the site to which the hart is reserved. Returns the index of its entry.
    pub(crate) fn make_enter(
        &self,
        seat: &mut Seat<(), View>,
        hart: u8,
        owner: u16,
        site: u16,
    ) -> u64
        requires on { IsOn self.now seat.old.table_id seat.old.me.0 }
        requires numbers { (seat.old.me.0.hart ≡ hart) × (seat.old.me.0.owner ≡ owner) }
        requires child { IsSite self.now.plan site × (owner ≡ parent self.now.plan site) }
        requires reserved { seat.old.me.0.doing ≡ Reserved site }
        ensures on { IsOn self.now seat.new.table_id seat.new.me.0 }
        ensures view { seat.new.me ≡ (enter_view L.layout result seat.old.me.0, seat.old.me.1) }
        ensures fits { FitsPlan seat.new.me.0 }
        ensures place { result < room self.now.plan }
    {
        let amount = rise::<L>(hart, owner, site);
        entries_of::<L>(self.table.shared.fetch_add::<MakeEnter<L>>(seat, 0, amount))
    }

    /// Makes a Yield of the owner, whose parent is `above`. Returns the index of its entry.
    pub(crate) fn make_yield(
        &self,
        seat: &mut Seat<(), View>,
        hart: u8,
        owner: u16,
        above: u16,
    ) -> u64
        requires on { IsOn self.now seat.old.table_id seat.old.me.0 }
        requires numbers { (seat.old.me.0.hart ≡ hart) × (seat.old.me.0.owner ≡ owner) }
        requires up { IsSite self.now.plan owner × (above ≡ parent self.now.plan owner) }
        requires may { MayYield seat.old.me.0 }
        ensures on { IsOn self.now seat.new.table_id seat.new.me.0 }
        ensures view { seat.new.me ≡ (yield_view L.layout result seat.old.me.0, seat.old.me.1) }
        ensures fits { FitsPlan seat.new.me.0 }
        ensures place { result < room self.now.plan }
    {
        let amount = fall::<L>(hart, owner, above);
        entries_of::<L>(self.table.shared.fetch_add::<MakeYield<L>>(seat, 0, amount))
    }

    /// Makes an Unregister of the owner, whose parent is `above`. Returns the index of its entry.
    pub(crate) fn make_unregister(
        &self,
        seat: &mut Seat<(), View>,
        hart: u8,
        owner: u16,
        above: u16,
    ) -> u64
        requires on { IsOn self.now seat.old.table_id seat.old.me.0 }
        requires numbers { (seat.old.me.0.hart ≡ hart) × (seat.old.me.0.owner ≡ owner) }
        requires up { IsSite self.now.plan owner × (above ≡ parent self.now.plan owner) }
        requires may { MayUnregister self.now.plan seat.old.me.0 }
        ensures on { IsOn self.now seat.new.table_id seat.new.me.0 }
        ensures view { seat.new.me ≡ (unregister_view result seat.old.me.0, seat.old.me.1) }
        ensures fits { FitsPlan seat.new.me.0 }
        ensures place { result < room self.now.plan }
    {
        let amount = fall::<L>(hart, owner, above);
        entries_of::<L>(
            self.table
                .shared
                .fetch_add::<MakeUnregister<L>>(seat, 0, amount),
        )
    }

    /// Writes the entry at its index of the journal.
    pub(crate) fn jot(&self, seat: &mut Seat<(), View>, place: u64, entry: Entry)
        requires on { IsOn self.now seat.old.table_id seat.old.me.0 }
        requires place { place < room self.now.plan }
        requires drawn { seat.old.me.0.drawn ≡ Some record { place = place; entry = entry } }
        ensures on { IsOn self.now seat.new.table_id seat.new.me.0 }
        ensures view { seat.new.me ≡ (jot_view seat.old.me.0, seat.old.me.1) }
        ensures fits { FitsPlan seat.new.me.0 }
    {
        let index = 1 + self.sites as usize + place as usize;
        let word = word_of(entry);
        self.table.shared.store::<Jot>(seat, index, word);
    }

    /// Adds `count` wishes to the site's want.
    pub(crate) fn credit(&self, seat: &mut Seat<(), View>, site: u16, count: u8)
        requires on { IsOn self.now seat.old.table_id seat.old.me.0 }
        requires site { IsSite self.now.plan site }
        requires crediting { MayFollow seat.old.me.0 (Crediting site count) }
        ensures on { IsOn self.now seat.new.table_id seat.new.me.0 }
        ensures view { seat.new.me ≡ (done_view seat.old.me.0, seat.old.me.1) }
        ensures fits { FitsPlan seat.new.me.0 }
    {
        self.table
            .shared
            .fetch_add::<Follow>(seat, site as usize, WISH * count as u64);
    }

    /// The step that completes an Enter of the site.
    pub(crate) fn arrive(&self, seat: &mut Seat<(), View>, site: u16)
        requires on { IsOn self.now seat.old.table_id seat.old.me.0 }
        requires site { IsSite self.now.plan site }
        requires entered { MayFollow seat.old.me.0 (after_enter L.layout site) }
        requires fits { FitsPlan seat.old.me.0 }
        ensures on { IsOn self.now seat.new.table_id seat.new.me.0 }
        ensures view { seat.new.me ≡ (done_view seat.old.me.0, seat.old.me.1) }
        ensures fits { FitsPlan seat.new.me.0 }
    {
        match L::layout() {
            Layout::Owners => self.land(seat, site),
            Layout::Guests => {}
        }
    }

    /// The step that completes a Yield of the site.
    pub(crate) fn depart(&self, seat: &mut Seat<(), View>, site: u16)
        requires on { IsOn self.now seat.old.table_id seat.old.me.0 }
        requires site { IsSite self.now.plan site }
        requires yielded { MayFollow seat.old.me.0 (after_yield L.layout site) }
        requires fits { FitsPlan seat.old.me.0 }
        ensures on { IsOn self.now seat.new.table_id seat.new.me.0 }
        ensures view { seat.new.me ≡ (done_view seat.old.me.0, seat.old.me.1) }
        ensures fits { FitsPlan seat.new.me.0 }
    {
        match L::layout() {
            Layout::Owners => {}
            Layout::Guests => self.leave(seat, site),
        }
    }

    /// Takes the hart off the harts on their way into the site.
    fn land(&self, seat: &mut Seat<(), View>, site: u16)
        requires on { IsOn self.now seat.old.table_id seat.old.me.0 }
        requires site { IsSite self.now.plan site }
        requires landing { MayFollow seat.old.me.0 (Landing site) }
        ensures on { IsOn self.now seat.new.table_id seat.new.me.0 }
        ensures view { seat.new.me ≡ (done_view seat.old.me.0, seat.old.me.1) }
        ensures fits { FitsPlan seat.new.me.0 }
    {
        self.table
            .shared
            .fetch_sub::<Follow>(seat, site as usize, GUEST);
    }

    /// Takes the hart off the site's guests.
    fn leave(&self, seat: &mut Seat<(), View>, site: u16)
        requires on { IsOn self.now seat.old.table_id seat.old.me.0 }
        requires site { IsSite self.now.plan site }
        requires leaving { MayFollow seat.old.me.0 (Leaving site) }
        ensures on { IsOn self.now seat.new.table_id seat.new.me.0 }
        ensures view { seat.new.me ≡ (done_view seat.old.me.0, seat.old.me.1) }
        ensures fits { FitsPlan seat.new.me.0 }
    {
        self.table
            .shared
            .fetch_sub::<Follow>(seat, site as usize, GUEST);
    }

    /// Sets the site's closed bit.
    pub(crate) fn seal(&self, seat: &mut Seat<(), View>, site: u16)
        requires on { IsOn self.now seat.old.table_id seat.old.me.0 }
        requires site { IsSite self.now.plan site }
        requires sealing { MayFollow seat.old.me.0 (Sealing site) }
        ensures on { IsOn self.now seat.new.table_id seat.new.me.0 }
        ensures view { seat.new.me ≡ (done_view seat.old.me.0, seat.old.me.1) }
        ensures fits { FitsPlan seat.new.me.0 }
    {
        self.table
            .shared
            .fetch_or::<Follow>(seat, site as usize, CLOSED);
    }

    /// Sets the owner's closing bit.
    pub(crate) fn shut(&self, seat: &mut Seat<(), View>, owner: u16)
        requires on { IsOn self.now seat.old.table_id seat.old.me.0 }
        requires owner { seat.old.me.0.owner ≡ owner }
        requires site { IsSite self.now.plan owner }
        requires may { MayClose seat.old.me.0 }
        ensures on { IsOn self.now seat.new.table_id seat.new.me.0 }
        ensures view { seat.new.me ≡ (close_view seat.old.me.0, seat.old.me.1) }
        ensures fits { FitsPlan seat.new.me.0 }
    {
        self.table
            .shared
            .fetch_or::<Shut>(seat, owner as usize, CLOSING);
    }

    /// Reads the site's word.
    pub(crate) fn glance(&self, seat: &mut Seat<(), View>, site: u16) -> u64
        requires on { IsOn self.now seat.old.table_id seat.old.me.0 }
        requires site { IsSite self.now.plan site }
        requires ready { IsReady seat.old.me.0 }
        ensures on { IsOn self.now seat.new.table_id seat.new.me.0 }
        ensures view { seat.new.me ≡ (glance_view site result seat.old.me.0, seat.old.me.1) }
        ensures fits { FitsPlan seat.new.me.0 }
        ensures small { IsSmall result }
    {
        self.table.shared.load::<Glance>(seat, site as usize)
    }

    /// Reads the site's word. If it is closed, the view has seen the site gone.
    pub(crate) fn look_gone(&self, seat: &mut Seat<(), View>, site: u16) -> u64
        requires on { IsOn self.now seat.old.table_id seat.old.me.0 }
        requires site { IsSite self.now.plan site }
        requires ready { IsReady seat.old.me.0 }
        ensures on { IsOn self.now seat.new.table_id seat.new.me.0 }
        ensures view { seat.new.me ≡ (see_gone_view site result seat.old.me.0, seat.old.me.1) }
        ensures fits { FitsPlan seat.new.me.0 }
    {
        self.table.shared.load::<SeeGone>(seat, site as usize)
    }

    /// Reads the owner's word. If it has no guest, the view has seen the owner drained, and with guests empty.
    pub(crate) fn look_drained(&self, seat: &mut Seat<(), View>, owner: u16) -> u64
        requires on { IsOn self.now seat.old.table_id seat.old.me.0 }
        requires owner { seat.old.me.0.owner ≡ owner }
        requires site { IsSite self.now.plan owner }
        requires may { MaySeeDrained seat.old.me.0 }
        ensures on { IsOn self.now seat.new.table_id seat.new.me.0 }
        ensures view { seat.new.me ≡ (see_drained_view L.layout result seat.old.me.0, seat.old.me.1) }
        ensures fits { FitsPlan seat.new.me.0 }
    {
        self.table
            .shared
            .load::<SeeDrained<L>>(seat, owner as usize)
    }

    /// Reads the first word, which holds the owners. If no other hart is in the owner, the view has seen the owner empty.
    pub(crate) fn look_empty(&self, seat: &mut Seat<(), View>) -> u64
        requires on { IsOn self.now seat.old.table_id seat.old.me.0 }
        requires layout { L.layout ≡ Owners }
        requires may { MaySeeEmpty seat.old.me.0 }
        ensures on { IsOn self.now seat.new.table_id seat.new.me.0 }
        ensures view { seat.new.me ≡ (see_empty_view result seat.old.me.0, seat.old.me.1) }
        ensures fits { FitsPlan seat.new.me.0 }
    {
        self.table.shared.load::<SeeEmpty>(seat, 0)
    }

    /// Reserves the hart to the site, if the site's word is still the one that was read. Returns the word found.
    pub(crate) fn reserve(&self, seat: &mut Seat<(), View>, site: u16, read: u64) -> u64
        requires on { IsOn self.now seat.old.table_id seat.old.me.0 }
        requires small { IsSmall read }
        requires may { MayReserve self.now.plan seat.old.me.0 site read }
        ensures on { IsOn self.now seat.new.table_id seat.new.me.0 }
        ensures view { seat.new.me ≡ (reserve_view site read result seat.old.me.0, seat.old.me.1) }
        ensures fits { FitsPlan seat.new.me.0 }
    {
        let reserved = read - WISH + GUEST;
        self.table
            .shared
            .compare_exchange::<Reserve>(seat, site as usize, read, reserved)
    }
}
