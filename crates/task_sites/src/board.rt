//! The board of a crew, and the seats at it.
//!
//! Why the board has a name in its type: a seat goes through tasks of any kind, whose contracts state nothing about it. By the
//! name each seat is known to be one of the crew's board when the run ends.
ghost use Rattle.std.specs.Prelude.{◌≡◌, ◌<◌, ◌≤◌};
ghost use Rattle.open_board.specs.Checked.{ChecksRegisterWishing, ChecksEnter, ChecksYield, ChecksClose, ChecksEnd, ChecksUnregister};
ghost use Rattle.open_board.specs.Views.{owner_of};

use open_board::{Entered, Finish, NotRegistered, OpenBoard, OpenSeat, Refused, Size};
use std::marker::{Brand, Model, PhantomData};

/// The board of a crew. Each run picks it.
pub trait Naming {
    ghost use Rattle.atomic_table.specs.Seated.{TableId};
    ghost use Rattle.open_table.specs.declared.table.Size.{Size};

    /// The words of the board.
    ghost table: { TableId };

    /// The number of the board's harts and levels.
    ghost size: { Size };
}

impl Naming for Brand {
    ghost use Rattle.task_sites.specs.Names.{no_table, no_size};

    ghost table = { no_table };

    ghost size = { no_size };
}

/// The board that `B` names. Contracts see the board.
#[derive(Drop)]
pub struct CrewBoard<B: Naming> {
    board: OpenBoard,
    of: PhantomData<B>,
}

impl<B: Naming> Model for CrewBoard<B> {
    ghost use Rattle.std.specs.Prelude.{◌≡◌};
    ghost use Rattle.open_board.specs.declared.board.OpenBoard.{OpenBoard};

    ghost Value = { OpenBoard };

    ghost view = { λ b. b.board };

    ghost invariant = { λ b. (b.board.table.shared.table_id ≡ B.table) × (b.board.size ≡ B.size) };
}

/// A seat at the board that `B` names. Contracts see the seat.
#[derive(Drop)]
pub struct CrewSeat<B: Naming> {
    seat: OpenSeat,
    of: PhantomData<B>,
}

impl<B: Naming> Model for CrewSeat<B> {
    ghost use Rattle.std.specs.Prelude.{◌≡◌};
    ghost use Rattle.open_board.specs.declared.seat.OpenSeat.{OpenSeat};

    ghost Value = { OpenSeat };

    ghost view = { λ s. s.seat };

    ghost invariant = { λ s. (s.seat.seat.table_id ≡ B.table) × (s.seat.seat.me.0.size ≡ B.size) };
}

impl<B: Naming> CrewSeat<B> {
    /// Names the board of a seat.
    pub fn new(seat: OpenSeat) -> CrewSeat<B>
        requires board { seat.seat.table_id ≡ B.table }
        requires size { seat.seat.me.0.size ≡ B.size }
        ensures { result ≡ seat }
    {
        CrewSeat {
            seat,
            of: PhantomData,
        }
    }

    /// The hart's number, from 0.
    pub fn hart(&self) -> u8
        ensures { result ≡ self.now.seat.me.0.hart }
    {
        self.seat.hart()
    }

    /// The site that the hart is in; 0 is the base.
    pub fn owner(&self) -> u16
        ensures { result ≡ owner_of self.now.seat.me.0 }
    {
        self.seat.owner()
    }

    /// Returns the seat.
    pub fn into_seat(self) -> OpenSeat
        ensures same { result ≡ self }
        ensures board { result.seat.table_id ≡ B.table }
        ensures size { result.seat.me.0.size ≡ B.size }
    {
        let CrewSeat { seat, of: _ } = self;
        seat
    }
}

/// Each call is the board's own, which checks its precondition and refuses an entry that the table of lent harts does not
/// admit. No call allocates.
impl<B: Naming> CrewBoard<B> {
    /// Names a board.
    pub fn new(board: OpenBoard) -> CrewBoard<B>
        requires board { board.table.shared.table_id ≡ B.table }
        requires size { board.size ≡ B.size }
        ensures { result ≡ board }
    {
        CrewBoard {
            board,
            of: PhantomData,
        }
    }

    /// The number of harts and levels.
    pub fn size(&self) -> Size
        ensures { result ≡ self.now.size }
    {
        self.board.size()
    }

    /// Registers the next of the hart's sites as a child of its owner, and requests `count` harts there, in one step. Returns the
    /// site's number.
    ///
    /// # Errors
    ///
    /// `TooDeep` or `TooManyWished`, as `OpenBoard::checked_register_wishing`.
    pub fn register_wishing(&self, seat: &mut CrewSeat<B>, count: u8) -> Result<u16, NotRegistered>
        ensures { ChecksRegisterWishing self.now.size seat.old.seat.me.0 count result seat.new.seat.me.0 }
    {
        self.board.checked_register_wishing(&mut seat.seat, count)
    }

    /// Tries to enter the site as a guest.
    ///
    /// # Errors
    ///
    /// `NoSuchSite` if the number isn't 1 to `harts * levels`.
    pub fn try_enter(&self, seat: &mut CrewSeat<B>, site: u16) -> Result<Entered, Refused>
        ensures { ChecksEnter self.now.size seat.old.seat.me.0 site result seat.new.seat.me.0 }
    {
        self.board.checked_enter(&mut seat.seat, site)
    }

    /// Leaves the owner for its parent.
    ///
    /// # Errors
    ///
    /// `NotGuest` if the hart isn't a guest of its owner.
    pub fn yield_hart(&self, seat: &mut CrewSeat<B>) -> Result<(), Refused>
        ensures { ChecksYield seat.old.seat.me.0 result seat.new.seat.me.0 }
    {
        self.board.checked_yield(&mut seat.seat)
    }

    /// Closes the owner: no further hart may enter it.
    ///
    /// # Errors
    ///
    /// `NotHome` or `IsClosed`, as `OpenBoard::checked_close`.
    pub fn close(&self, seat: &mut CrewSeat<B>) -> Result<(), Refused>
        ensures { ChecksClose seat.old.seat.me.0 result seat.new.seat.me.0 }
    {
        self.board.checked_close(&mut seat.seat)
    }

    /// Closes and ends the owner in one step, if it has no guest.
    ///
    /// # Errors
    ///
    /// `NotHome` or `IsClosed`, as `OpenBoard::checked_end_if_empty`.
    pub fn end_if_empty(&self, seat: &mut CrewSeat<B>) -> Result<Finish, Refused>
        ensures { ChecksEnd seat.old.seat.me.0 result seat.new.seat.me.0 }
    {
        self.board.checked_end_if_empty(&mut seat.seat)
    }

    /// Ends the owner if it is closed and has no guest.
    ///
    /// # Errors
    ///
    /// `NotHome`, `NotClosed` or `NotEmpty`, as `OpenBoard::checked_unregister`.
    pub fn unregister(&self, seat: &mut CrewSeat<B>) -> Result<(), Refused>
        ensures { ChecksUnregister seat.old.seat.me.0 result seat.new.seat.me.0 }
    {
        self.board.checked_unregister(&mut seat.seat)
    }

    /// Returns the board.
    pub fn into_board(self) -> OpenBoard
        ensures same { result ≡ self }
        ensures board { result.table.shared.table_id ≡ B.table }
        ensures size { result.size ≡ B.size }
    {
        let CrewBoard { board, of: _ } = self;
        board
    }
}
