//! Calls that read a site's wishes and guests, take wishes back, or return whether the last guest left.
ghost use Rattle.std.specs.Prelude.{◌≡◌, ◌≤◌, ◌+◌, ◌-◌, true};
ghost use Rattle.open_table.specs.Table.{slots, is_home};
ghost use Rattle.open_rule.specs.Steps.{MayWithdraw, MayYield};
ghost use Rattle.open_rule.specs.Words.{want_of, guests_of};
ghost use Rattle.open_board.specs.Calls.{YieldsLast, WithdrawsFrom, Withdraws, ReadsHome, ReadsSite};
ghost use Rattle.open_board.specs.Checked.{ChecksYieldLast, ChecksWithdraw, ChecksReadHome, ChecksReadSite};

use crate::board::OpenBoard;
use crate::checked::Refused;
use crate::seat::OpenSeat;
use crate::words::{closing_in, guests_in, parent_in, want_in};

/// The wishes and the guests of a site when a call loaded its word. A site that isn't live has none.
#[derive(Clone, Copy, Debug, PartialEq, Eq)]
pub struct Counts {
    /// The number of requested harts that have not entered.
    pub wishes: u8,
    /// The number of harts that entered and have not left, with those in sites below.
    pub guests: u8,
}

/// The result of a try to withdraw wishes.
#[derive(Clone, Copy, Debug, PartialEq, Eq)]
pub enum Withdrawn {
    /// The wishes are taken back.
    Done,
    /// The word that the call loaded has fewer wishes.
    TooFew { shown: u64 },
    /// The word that the call loaded has the wishes, but the exchange found another word.
    Moved { read: u64, found: u64 },
}

fn counts_in(word: u64) -> Counts
    ensures wishes { result.wishes ≡ want_of word }
    ensures guests { result.guests ≡ guests_of word }
{
    Counts {
        wishes: want_in(word) as u8,
        guests: guests_in(word) as u8,
    }
}

/// Each call has the precondition that the seat is one of this board. None allocates.
impl OpenBoard {
    ghost use Rattle.open_board.specs.Of.{IsOf};

    /// The wishes and the guests of the owner, whose home the hart is. Until the hart's next entry other harts can only turn a wish
    /// into a guest, or leave. So `request` may ask for as many harts as there is room for by these counts.
    ///
    /// One atomic step, a load.
    pub fn read_home(&self, seat: &mut OpenSeat) -> Counts
        requires of { IsOf self.now seat.old }
        requires home { is_home seat.old.seat.me.0.stack ≡ true }
        ensures of { IsOf self.now seat.new }
        ensures does { ReadsHome seat.old.seat.me.0 result seat.new.seat.me.0 }
    {
        let site = seat.owner;
        let found = self.look_home(&mut seat.seat, site);
        counts_in(found)
    }

    /// The wishes and the guests of the site, 1 to `harts * levels`, at the moment of the load.
    ///
    /// One atomic step, a load.
    pub fn read_site(&self, seat: &mut OpenSeat, site: u16) -> Counts
        requires of { IsOf self.now seat.old }
        requires site { (1 ≤ site) × (site ≤ slots self.now.size) }
        ensures of { IsOf self.now seat.new }
        ensures does { ReadsSite seat.old.seat.me.0 site result seat.new.seat.me.0 }
    {
        let found = self.glance(&mut seat.seat, site);
        counts_in(found)
    }

    /// Takes back `count` wishes of the owner that no hart has met. The hart must be the owner's home.
    ///
    /// A load, and one atomic exchange if the loaded word has so many wishes. The call doesn't retry.
    pub fn withdraw(&self, seat: &mut OpenSeat, count: u8) -> Withdrawn
        requires of { IsOf self.now seat.old }
        requires may { MayWithdraw seat.old.seat.me.0 }
        ensures of { IsOf self.now seat.new }
        ensures does { Withdraws seat.old.seat.me.0 count result seat.new.seat.me.0 }
    {
        let site = seat.owner;
        let read = self.look_home(&mut seat.seat, site);
        self.withdraw_from(seat, read, count)
    }

    // Takes back wishes of the owner if `read`, the word that its home loaded, has so many and is still its word.
    fn withdraw_from(&self, seat: &mut OpenSeat, read: u64, count: u8) -> Withdrawn
        requires of { IsOf self.now seat.old }
        requires may { MayWithdraw seat.old.seat.me.0 }
        ensures of { IsOf self.now seat.new }
        ensures does { WithdrawsFrom seat.old.seat.me.0 read count result seat.new.seat.me.0 }
    {
        if want_in(read) < count as u64 {
            return Withdrawn::TooFew { shown: read };
        }
        let site = seat.owner;
        let found = self.make_withdraw(&mut seat.seat, site, read, count);
        if found != read {
            return Withdrawn::Moved { read, found };
        }
        Withdrawn::Done
    }

    /// Leaves the owner for its parent, as `yield_hart` does. Returns whether the owner was closing and the hart its only guest.
    /// Then the owner is empty, and its home may be waiting for that. The home of site `x` is hart `(x - 1) / levels`.
    ///
    /// One atomic step, a subtraction. The call touches nothing of the site afterwards, so the home may end it at once.
    pub fn yield_last(&self, seat: &mut OpenSeat) -> bool
        requires of { IsOf self.now seat.old }
        requires may { MayYield seat.old.seat.me.0 }
        ensures of { IsOf self.now seat.new }
        ensures does { YieldsLast seat.old.seat.me.0 result seat.new.seat.me.0 }
    {
        let site = seat.owner;
        let found = self.make_yield_last(&mut seat.seat, site);
        seat.owner = parent_in(found);
        closing_in(found) && guests_in(found) == 1
    }

    /// The wishes and the guests of the owner, as `read_home`.
    ///
    /// # Errors
    ///
    /// `NotHome` if the hart isn't the home of its owner.
    pub fn checked_read_home(&self, seat: &mut OpenSeat) -> Result<Counts, Refused>
        requires of { IsOf self.now seat.old }
        ensures of { IsOf self.now seat.new }
        ensures does { ChecksReadHome seat.old.seat.me.0 result seat.new.seat.me.0 }
    {
        if !self.at_home(seat) {
            return Err(Refused::NotHome);
        }
        Ok(self.read_home(seat))
    }

    /// The wishes and the guests of the site, as `read_site`.
    ///
    /// # Errors
    ///
    /// `NoSuchSite` if the number isn't 1 to `harts * levels`.
    pub fn checked_read_site(&self, seat: &mut OpenSeat, site: u16) -> Result<Counts, Refused>
        requires of { IsOf self.now seat.old }
        ensures of { IsOf self.now seat.new }
        ensures does { ChecksReadSite self.now.size seat.old.seat.me.0 site result seat.new.seat.me.0 }
    {
        let sites = self.size.harts as u16 * self.size.levels as u16;
        if site == 0 || site > sites {
            return Err(Refused::NoSuchSite);
        }
        Ok(self.read_site(seat, site))
    }

    /// Takes back `count` wishes of the owner, as `withdraw` does.
    ///
    /// # Errors
    ///
    /// `NotHome` if the hart isn't the home of its owner.
    pub fn checked_withdraw(&self, seat: &mut OpenSeat, count: u8) -> Result<Withdrawn, Refused>
        requires of { IsOf self.now seat.old }
        ensures of { IsOf self.now seat.new }
        ensures does { ChecksWithdraw seat.old.seat.me.0 count result seat.new.seat.me.0 }
    {
        if !self.at_home(seat) {
            return Err(Refused::NotHome);
        }
        Ok(self.withdraw(seat, count))
    }

    /// Leaves the owner for its parent, as `yield_last` does.
    ///
    /// # Errors
    ///
    /// `NotGuest` if the hart isn't a guest of its owner.
    pub fn checked_yield_last(&self, seat: &mut OpenSeat) -> Result<bool, Refused>
        requires of { IsOf self.now seat.old }
        ensures of { IsOf self.now seat.new }
        ensures does { ChecksYieldLast seat.old.seat.me.0 result seat.new.seat.me.0 }
    {
        if !self.is_visiting(seat) {
            return Err(Refused::NotGuest);
        }
        Ok(self.yield_last(seat))
    }
}
