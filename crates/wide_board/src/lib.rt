//! The table of lent harts as atomic words, for any plan: the first word is the number of entries, and the word of a site
//! counts its guests.
//!
//! The crate names the types of `lent_board`, which has the calls, for this layout. `docs/BOARD.md` explains the protocol, and
//! `board_tests` has examples.
#![tactic(auto)]

pub use hart_port::{Entered, Seen, Taken};
pub use lent_board::HartSeat as WideSeat;
use lent_board::{Board, BoardPort, ByGuests};

/// The board.
pub type WideBoard = Board<ByGuests>;

/// The port of a hart of the board.
pub type WidePort<'a> = BoardPort<'a, ByGuests>;

/// The journal of a board that was closed.
pub type WideClosed = lent_board::Closed<ByGuests>;

/// The allocation of the journal failed. The board and the seats come back unchanged.
pub type WideRefused = lent_board::CloseRefused<ByGuests>;
