//! A board by reference, and a seat of it.
ghost use Rattle.std.specs.Prelude.{◌≡◌, ◌<◌, ◌≤◌, true, false};
ghost use Rattle.transfer_table.specs.Plan.{IsSite, parent};
ghost use Rattle.hart_port.specs.Count.{RoseIfErr, RoseUnlessInside};
ghost use Rattle.hart_port.specs.PortView.{IsPortView, is_in, Registers, Skips, HasEnded, MayRequest, requested_by, Enters, yielded, closes, sees_gone, Sees, MayUnregister, unregistered};
ghost use Rattle.lent_board.specs.Calls.{Registers as OwnRegisters, Skips as OwnSkips, Enters as OwnEnters, SeesGone, Sees as OwnSees};
ghost use Rattle.lent_board.specs.Of.{IsOf};
ghost use Rattle.lent_board.specs.PortViews.{port_view};

use crate::board::Board;
use crate::seat::HartSeat;
use board_rule::Laid;
use hart_port::{Entered, Port, Seen, Taken};

/// The port of a hart of a board. No call blocks. The contract of a call that returns a word, or sees a site gone, also states
/// the seat's new view, as the board's call does. So the call read that word on the board.
#[derive(Drop)]
pub struct BoardPort<'a, L: Laid> {
    board: &'a Board<L>,
    seat: HartSeat,
    refused: u64,
    ghost of_board: { IsOf board.now seat },
}

impl<'a, L: Laid> BoardPort<'a, L> {
    /// The port of a seat of the board, with no refusal counted.
    pub fn new(board: &'a Board<L>, seat: HartSeat) -> BoardPort<'a, L>
        requires of { IsOf board.now seat }
        ensures board { result.board.now ≡ board.now }
        ensures seat { result.seat ≡ seat }
        ensures refused { result.refused ≡ 0 }
    {
        BoardPort {
            board,
            seat,
            refused: 0,
        }
    }

    /// The seat.
    pub fn into_seat(self) -> HartSeat
        ensures seat { result ≡ self.entry.seat }
        ensures of { IsOf self.entry.board.now result }
    {
        let BoardPort {
            board: _,
            seat,
            refused: _,
        } = self;
        seat
    }
}

impl<'a, L: Laid> Port for BoardPort<'a, L> {
    type Hold = ();

    ghost seen = { λ w. port_view w.seat };

    ghost use Rattle.lent_board.specs.Calls.{Registers as OwnRegisters, Skips as OwnSkips, Enters as OwnEnters, SeesGone, Sees as OwnSees};

    ghost refused = { λ w. w.refused };

    ghost register_gives = { λ w site answer v. OwnRegisters w.seat.seat.me.0 site answer v.seat.seat.me.0 };

    ghost skip_gives = { λ w site answer v. OwnSkips w.seat.seat.me.0 site answer v.seat.seat.me.0 };

    ghost enter_gives = { λ w site answer v. OwnEnters w.seat.seat.me.0 site answer v.seat.seat.me.0 };

    ghost gone_gives = { λ w site answer v. SeesGone w.seat.seat.me.0 site answer v.seat.seat.me.0 };

    ghost empty_gives = { λ w answer v. OwnSees L.layout w.seat.seat.me.0 answer v.seat.seat.me.0 };

    fn hart(&self) -> u8 {
        self.seat.hart()
    }

    fn owner(&self) -> u16 {
        self.seat.owner()
    }

    fn register(&mut self, _hold: (), site: u16) -> Result<(), Taken>
        requires known { IsSite (port_view self.old.seat).plan site }
        requires child { (port_view self.old.seat).owner
            ≡ parent (port_view self.old.seat).plan site }
        ensures does { Registers (port_view self.old.seat) site result (port_view self.new.seat) }
        ensures own { OwnRegisters self.old.seat.seat.me.0 site result self.new.seat.seat.me.0 }
        ensures count { RoseIfErr result self.old.refused self.new.refused }
        ensures kept { IsPortView (port_view self.new.seat) }
        ensures board { self.new.board.now ≡ self.old.board.now }
    {
        let answer = self.board.register(&mut self.seat, site);
        if answer.is_err() {
            self.refused = self.refused.saturating_add(1);
        }
        answer
    }

    fn skip(&mut self, _hold: (), site: u16) -> Result<(), Taken>
        requires known { IsSite (port_view self.old.seat).plan site }
        requires child { (port_view self.old.seat).owner
            ≡ parent (port_view self.old.seat).plan site }
        ensures does { Skips (port_view self.old.seat) site result (port_view self.new.seat) }
        ensures own { OwnSkips self.old.seat.seat.me.0 site result self.new.seat.seat.me.0 }
        ensures count { RoseIfErr result self.old.refused self.new.refused }
        ensures kept { IsPortView (port_view self.new.seat) }
        ensures board { self.new.board.now ≡ self.old.board.now }
    {
        let answer = self.board.skip(&mut self.seat, site);
        if answer.is_err() {
            self.refused = self.refused.saturating_add(1);
        }
        answer
    }

    fn request(&mut self, _hold: (), site: u16, count: u8)
        requires known { IsSite (port_view self.old.seat).plan site }
        requires may { MayRequest (port_view self.old.seat) site count }
        ensures does { port_view self.new.seat ≡ requested_by (port_view self.old.seat) site count }
        ensures count { self.new.refused ≡ self.old.refused }
        ensures kept { IsPortView (port_view self.new.seat) }
        ensures board { self.new.board.now ≡ self.old.board.now }
    {
        self.board.request(&mut self.seat, site, count);
    }

    fn try_enter(&mut self, _hold: (), site: u16) -> Entered
        requires known { IsSite (port_view self.old.seat).plan site }
        requires child { (port_view self.old.seat).owner
            ≡ parent (port_view self.old.seat).plan site }
        ensures does { Enters (port_view self.old.seat) site result (port_view self.new.seat) }
        ensures own { OwnEnters self.old.seat.seat.me.0 site result self.new.seat.seat.me.0 }
        ensures count { RoseUnlessInside result self.old.refused self.new.refused }
        ensures kept { IsPortView (port_view self.new.seat) }
        ensures board { self.new.board.now ≡ self.old.board.now }
    {
        let answer = self.board.try_enter(&mut self.seat, site);
        if !matches!(answer, Entered::Inside) {
            self.refused = self.refused.saturating_add(1);
        }
        answer
    }

    fn yield_hart(&mut self, _hold: ())
        requires inside { 0 < (port_view self.old.seat).owner }
        requires guest { is_in (port_view self.old.seat).homes
            (port_view self.old.seat).owner ≡ false }
        ensures does { port_view self.new.seat ≡ yielded (port_view self.old.seat) }
        ensures count { self.new.refused ≡ self.old.refused }
        ensures kept { IsPortView (port_view self.new.seat) }
        ensures board { self.new.board.now ≡ self.old.board.now }
    {
        self.board.yield_hart(&mut self.seat);
    }

    fn close_site(&mut self, _hold: ())
        requires home { is_in (port_view self.old.seat).homes
            (port_view self.old.seat).owner ≡ true }
        requires open_yet { is_in (port_view self.old.seat).closed
            (port_view self.old.seat).owner ≡ false }
        ensures does { port_view self.new.seat ≡ closes (port_view self.old.seat) }
        ensures count { self.new.refused ≡ self.old.refused }
        ensures kept { IsPortView (port_view self.new.seat) }
        ensures board { self.new.board.now ≡ self.old.board.now }
    {
        self.board.close_site(&mut self.seat);
    }

    fn see_gone(&mut self, _hold: (), site: u16) -> bool
        requires { IsSite (port_view self.old.seat).plan site }
        ensures gone { result ≡ true
            → port_view self.new.seat ≡ sees_gone (port_view self.old.seat) site }
        ensures not_yet { result ≡ false → port_view self.new.seat ≡ port_view self.old.seat }
        ensures own { SeesGone self.old.seat.seat.me.0 site result self.new.seat.seat.me.0 }
        ensures alone { (port_view self.old.seat).alone ≡ true
            → HasEnded (port_view self.old.seat) site → result ≡ true }
        ensures count { self.new.refused ≡ self.old.refused }
        ensures kept { IsPortView (port_view self.new.seat) }
        ensures board { self.new.board.now ≡ self.old.board.now }
    {
        self.board.see_gone(&mut self.seat, site)
    }

    fn see_empty(&mut self, _hold: ()) -> Seen
        requires home { is_in (port_view self.old.seat).homes
            (port_view self.old.seat).owner ≡ true }
        requires closed { is_in (port_view self.old.seat).closed
            (port_view self.old.seat).owner ≡ true }
        ensures does { Sees (port_view self.old.seat) result (port_view self.new.seat) }
        ensures own { OwnSees L.layout self.old.seat.seat.me.0 result self.new.seat.seat.me.0 }
        ensures count { self.new.refused ≡ self.old.refused }
        ensures kept { IsPortView (port_view self.new.seat) }
        ensures board { self.new.board.now ≡ self.old.board.now }
    {
        self.board.see_empty(&mut self.seat)
    }

    fn unregister(&mut self, _hold: ())
        requires { MayUnregister (port_view self.old.seat) }
        ensures does { port_view self.new.seat ≡ unregistered (port_view self.old.seat) }
        ensures count { self.new.refused ≡ self.old.refused }
        ensures kept { IsPortView (port_view self.new.seat) }
        ensures board { self.new.board.now ≡ self.old.board.now }
    {
        self.board.unregister(&mut self.seat);
    }
}
