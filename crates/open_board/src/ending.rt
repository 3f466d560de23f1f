//! The end of a board, for all its seats.
ghost use Rattle.std.specs.Prelude.{◌≡◌, ◌<◌, ℕ, [], length, vec_len, IfOk, IfErr, IfSome, IsNone};
ghost use Rattle.std.specs.List.{All};
ghost use Rattle.open_rule.specs.Views.{joined_view};
ghost use Rattle.open_board.specs.Of.{IsOf};
ghost use Rattle.open_board.specs.Ending.{AreAll, AreAtBase, HasFinished, CantEnd, AreOthers, HasFrom, HasLast, IsHomeAgain};

use crate::board::OpenBoard;
use crate::plays::Gather;
use crate::seat::OpenSeat;

/// Why a board can't end.
#[derive(Clone, Copy, Debug, PartialEq, Eq)]
pub enum NotEnded {
    /// There are more seats than harts, or fewer.
    WrongCount,
    /// The seat at this index of the list, from 0, is another hart's.
    OutOfOrder { place: usize, hart: u8 },
    /// The hart is in this site, as its home or as a guest.
    InSite { hart: u8, site: u16 },
}

/// The board didn't end. The board and the seats come back unchanged.
#[derive(Drop)]
pub struct EndRefused {
    pub board: OpenBoard,
    pub seats: Vec<OpenSeat>,
    pub why: NotEnded,
}

impl OpenBoard {
    /// Ends the board and frees its words. `seats` has one seat for each hart, in the order of the harts'
    /// numbers, and each hart is at the base.
    ///
    /// One atomic step for each seat but the first, a load. Does not allocate.
    pub fn end(self, mut seats: Vec<OpenSeat>)
        requires all { AreAll self.table.shared.table_id self.size seats.items }
        requires base { AreAtBase seats.items }
        ensures { HasFinished self.size seats.items }
    {
        let mut first = seats.remove(0);
        gather_all(&self, &mut first, seats);
        finish(self, first);
    }

    /// Ends the board as `end` does, if `seats` has one seat for each hart, in the order of the harts' numbers, and each hart
    /// is at the base. Its only precondition is that each is a seat of this board.
    ///
    /// # Errors
    ///
    /// `EndRefused`, with the board, the seats and the first reason found: the call tests the count of the seats first, then
    /// each seat in turn.
    pub fn checked_end(self, seats: Vec<OpenSeat>) -> Result<(), EndRefused>
        requires of { All (IsOf self) seats.items }
        ensures ended { IfOk result (λ _. (vec_len seats ≡ self.size.harts)
            × ((n : ℕ) → n < self.size.harts → IsHomeAgain seats.items n)
            × HasFinished self.size seats.items) }
        ensures refused { IfErr result (λ r. (r.board ≡ self) × (r.seats.items ≡ seats.items)
            × CantEnd self.size seats.items r.why) }
    {
        match why_not(&self, seats.as_slice()) {
            Some(why) => Err(EndRefused {
                board: self,
                seats,
                why,
            }),
            None => {
                self.end(seats);
                Ok(())
            }
        }
    }
}

// Why the board can't end with these seats.
fn why_not(board: &OpenBoard, seats: &[OpenSeat]) -> Option<NotEnded>
    requires { All (IsOf board.now) seats.now }
    ensures may { IsNone result → (length seats.now ≡ board.now.size.harts)
        × ((n : ℕ) → n < board.now.size.harts → IsHomeAgain seats.now n) }
    ensures cant { IfSome result (CantEnd board.now.size seats.now) }
{
    if seats.len() != board.size.harts as usize {
        return Some(NotEnded::WrongCount);
    }
    for place in 0..seats.len() {
        let (hart, site) = (seats[place].hart, seats[place].owner);
        if hart as usize != place {
            return Some(NotEnded::OutOfOrder { place, hart });
        }
        if site != 0 {
            return Some(NotEnded::InSite { hart, site });
        }
    }
    None
}

// Joins all other seats into the first.
fn gather_all(board: &OpenBoard, first: &mut OpenSeat, mut seats: Vec<OpenSeat>)
    requires board { IsOf board.now first.old }
    requires first { (first.old.seat.me.0.hart ≡ 0) × (first.old.seat.me.0.stack ≡ []) }
    requires seats { AreOthers board.now.table.shared.table_id board.now.size seats.items }
    ensures board { IsOf board.now first.new }
    ensures first { (first.new.seat.me.0.hart ≡ 0) × (first.new.seat.me.0.stack ≡ []) }
    ensures mine { first.new.seat.me.0.mine ≡ first.old.seat.me.0.mine }
    ensures gathered { HasFrom first.new.seat.me.0 seats.items 0 }
{
    while let Some(other) = seats.pop() {
        gather(board, first, other);
    }
}

// Joins another hart's seat into the first.
fn gather(board: &OpenBoard, first: &mut OpenSeat, other: OpenSeat)
    requires of { IsOf board.now first.old × IsOf board.now other }
    requires first { first.old.seat.me.0.hart ≡ 0 }
    requires base { other.seat.me.0.stack ≡ [] }
    ensures of { IsOf board.now first.new }
    ensures joined { first.new.seat.me.0 ≡ joined_view first.old.seat.me.0 other.seat.me.0 }
{
    let OpenSeat {
        seat,
        hart: _,
        owner: _,
        homes: _,
        unused: _,
    } = other;
    board
        .table
        .shared
        .join_seat::<Gather>(&mut first.seat, seat);
}

// Frees the words of a board whose other seats were all joined into hart 0's.
fn finish(board: OpenBoard, first: OpenSeat)
    requires of { IsOf board first }
    ensures { HasLast board.size first }
{
    let OpenBoard { table, size: _ } = board;
    let OpenSeat {
        seat,
        hart: _,
        owner: _,
        homes: _,
        unused: _,
    } = first;
    table.close_with(seat).free();
}
