//! Calls that make several entries of the table in one atomic step.
ghost use Rattle.std.specs.Prelude.{◌≡◌, ◌≤◌, ◌-◌};
ghost use Rattle.open_rule.specs.Steps.{MayClose};
ghost use Rattle.open_board.specs.Calls.{RegistersWishing, Finishes, LoadsAndFinishes};
ghost use Rattle.open_board.specs.Checked.{ChecksRegisterWishing, ChecksEnd};

use crate::board::{OpenBoard, TooDeep};
use crate::checked::Refused;
use crate::seat::OpenSeat;
use crate::words::{closing_in, guests_in, parent_in};

/// Why a register with wishes was refused.
#[derive(Clone, Copy, Debug, PartialEq, Eq)]
pub enum NotRegistered {
    /// The hart is already the home of as many sites as the board has levels.
    TooDeep,
    /// The wishes would have been more than the other harts, `harts - 1`.
    TooManyWished,
}

/// The result of a try to end an empty site.
#[derive(Clone, Copy, Debug, PartialEq, Eq)]
pub enum Finish {
    /// The site is gone.
    Gone,
    /// The word that the call loaded has a guest.
    Busy { shown: u64 },
    /// The word that the call loaded has no guest, but the exchange found another word: a hart entered in between.
    Moved { read: u64, found: u64 },
}

/// Each call has the precondition that the seat is one of this board. None allocates.
impl OpenBoard {
    ghost use Rattle.open_board.specs.Of.{IsOf};

    /// Registers the next of the hart's sites, as `register` does, and requests `count` harts there, as `request` does, in one
    /// step. `count` is at most the other harts. Returns the site's number, 1 to `harts * levels`.
    ///
    /// One atomic step, a store. It makes the entries Register and Request.
    ///
    /// # Errors
    ///
    /// `TooDeep` exactly if the hart is the home of as many sites as the board has levels. The call then makes no step.
    pub fn register_wishing(&self, seat: &mut OpenSeat, count: u8) -> Result<u16, TooDeep>
        requires of { IsOf self.now seat.old }
        requires few { count ≤ self.now.size.harts - 1 }
        ensures of { IsOf self.now seat.new }
        ensures does { RegistersWishing seat.old.seat.me.0 count result seat.new.seat.me.0 }
    {
        let (hart, homes, owner) = (seat.hart, seat.homes, seat.owner);
        if homes >= self.size.levels {
            return Err(TooDeep);
        }
        let site = 1 + u16::from(hart) * u16::from(self.size.levels) + u16::from(homes);
        self.make_register_wishing(&mut seat.seat, site, owner, count);
        seat.owner = site;
        seat.homes = homes + 1;
        Ok(site)
    }

    /// Closes and ends the owner if it has no guest, as `close`, `see_empty` and `unregister` do, in one step. Its parent is then
    /// the hart's owner. The hart must be the owner's home and must not have closed it. Wishes that no hart met are gone too.
    ///
    /// A load, and one atomic exchange if the loaded word has no guest. It makes the entries Close, SeeEmpty and Unregister. The
    /// call doesn't retry. If it returns another result than `Gone`, the owner stays open.
    pub fn end_if_empty(&self, seat: &mut OpenSeat) -> Finish
        requires of { IsOf self.now seat.old }
        requires may { MayClose seat.old.seat.me.0 }
        ensures of { IsOf self.now seat.new }
        ensures does { LoadsAndFinishes seat.old.seat.me.0 result seat.new.seat.me.0 }
    {
        let site = seat.owner;
        let read = self.look_home(&mut seat.seat, site);
        self.finish_from(seat, read)
    }

    // Ends the owner if `read`, the word that its home loaded, has no guest and is still its word.
    fn finish_from(&self, seat: &mut OpenSeat, read: u64) -> Finish
        requires of { IsOf self.now seat.old }
        requires may { MayClose seat.old.seat.me.0 }
        ensures of { IsOf self.now seat.new }
        ensures does { Finishes seat.old.seat.me.0 read result seat.new.seat.me.0 }
    {
        if guests_in(read) != 0 {
            return Finish::Busy { shown: read };
        }
        let (site, homes) = (seat.owner, seat.homes);
        let found = self.make_end(&mut seat.seat, site, read);
        if found != read {
            return Finish::Moved { read, found };
        }
        seat.owner = parent_in(found);
        seat.homes = homes - 1;
        Finish::Gone
    }

    /// Registers a site and requests `count` harts there, as `register_wishing` does.
    ///
    /// # Errors
    ///
    /// `NotRegistered::TooDeep` if the hart is the home of as many sites as the board has levels, else
    /// `NotRegistered::TooManyWished` if `count` is more than `harts - 1`. The call then makes no step.
    pub fn checked_register_wishing(
        &self,
        seat: &mut OpenSeat,
        count: u8,
    ) -> Result<u16, NotRegistered>
        requires of { IsOf self.now seat.old }
        ensures of { IsOf self.now seat.new }
        ensures does { ChecksRegisterWishing self.now.size seat.old.seat.me.0 count result
            seat.new.seat.me.0 }
    {
        if seat.homes >= self.size.levels {
            return Err(NotRegistered::TooDeep);
        }
        if count > self.size.harts - 1 {
            return Err(NotRegistered::TooManyWished);
        }
        match self.register_wishing(seat, count) {
            Ok(site) => Ok(site),
            Err(TooDeep) => Err(NotRegistered::TooDeep),
        }
    }

    /// Closes and ends the owner if it has no guest, as `end_if_empty` does.
    ///
    /// # Errors
    ///
    /// `NotHome` if the hart isn't the home of its owner, else `IsClosed` if it closed it.
    pub fn checked_end_if_empty(&self, seat: &mut OpenSeat) -> Result<Finish, Refused>
        requires of { IsOf self.now seat.old }
        ensures of { IsOf self.now seat.new }
        ensures does { ChecksEnd seat.old.seat.me.0 result seat.new.seat.me.0 }
    {
        if !self.at_home(seat) {
            return Err(Refused::NotHome);
        }
        let site = seat.owner;
        let read = self.look_home(&mut seat.seat, site);
        if closing_in(read) {
            return Err(Refused::IsClosed);
        }
        Ok(self.finish_from(seat, read))
    }
}
