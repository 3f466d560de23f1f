//! Claim counters: atomic words by which harts claim the members of a phase without a lock. Each member is claimed by one hart,
//! once. A table has a counter for each phase of each team (a "row"). `board_tests` has examples.
#![tactic(auto)]

mod claimed;
pub mod laws;
mod plays;
mod seat;
mod seat_view;
mod table;

pub use claimed::Claimed;
pub use seat::ClaimSeat;
pub use seat_view::{Look, LookKind, SeatView};
pub use table::{ClaimTable, MOST_ROWS};
