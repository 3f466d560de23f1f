//! The table of lent harts as atomic words.
//!
//! The threads of a run share a `Board` by reference. Each hart has a `HartSeat`, with which it makes its transfers. A transfer
//! is one addition to the first word, and one to four steps on other words; a check is a load. No call locks or blocks, and
//! only `new` and `close` allocate. The layout of the first word and of the sites' words is a type parameter, `Layout`.
//!
//! Begin with `Board` in `board.rt`. `docs/BOARD.md` explains the protocol, `board_rule` has its invariant and laws, and
//! `board_tests` has examples.
#![tactic(auto)]

mod amounts;
mod board;
mod ending;
mod layouts;
mod making;
mod plays;
mod port;
mod room;
mod seat;
mod steps;
mod words;

pub use board::Board;
pub use board_rule::{Laid, Layout};
pub use ending::{CloseRefused, Closed};
pub use hart_port::{Entered, Seen, Taken};
pub use layouts::{ByGuests, ByOwners};
pub use port::BoardPort;
pub use room::Room;
pub use seat::HartSeat;
