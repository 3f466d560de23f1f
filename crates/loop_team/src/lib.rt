//! The loop team: the scheduler of one `team`.
//!
//! A `Team` is for one hart. Harts share a `SharedTeam`, each by a hand of its own, and claim its members by a `ClaimTable`.
//!
//! The members of one phase run at once, and the team opens the next phase when all have arrived. Begin with `Team` in
//! `team.rt`, then `TeamHand` in `hand.rt`; the tests of `scheduler_tests` run teams with one hart and with threads.
#![tactic(auto)]

mod found;
mod hand;
pub mod laws;
mod rows;
mod shared;
mod stripes;
mod team;

pub use claim_words::{ClaimSeat, ClaimTable, Claimed};
pub use found::Found;
pub use hand::TeamHand;
pub use rows::rows_fit;
pub use shared::SharedTeam;
pub use team::{Team, TeamHeard, TeamSeal, TeamWork};
