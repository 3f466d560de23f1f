//! The table of lent harts as atomic words, for at most four harts: the first word holds each hart's owner.
//!
//! The crate names the types of `lent_board`, which has the calls, for this layout. `docs/BOARD.md` explains the protocol, and
//! `board_tests` has examples.
#![tactic(auto)]

pub use hart_port::{Entered, Seen, Taken};
pub use lent_board::HartSeat;
use lent_board::{Board, BoardPort, ByOwners};

/// The board.
pub type WordBoard = Board<ByOwners>;

/// The port of a hart of the board.
pub type WordPort<'a> = BoardPort<'a, ByOwners>;

/// The journal of a board that was closed.
pub type Closed = lent_board::Closed<ByOwners>;

/// The allocation of the journal failed. The board and the seats come back unchanged.
pub type CloseRefused = lent_board::CloseRefused<ByOwners>;
