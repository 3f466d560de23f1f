//! A small scheduler, complete with its proofs, as an example for authors of schedulers.
//!
//! It runs its contexts in turn, and lends harts to its children by turns. `Turns` is for one thread. Harts share a
//! `SharedTurns`, each by a `TurnsHand` of its own. `laws` has what a user may rely on over any run of calls. Begin with
//! `Turns` in `turns.rt`; `table_tests/src/turns.rt` has scripts for it, and `scheduler_tests` runs programs with it.
#![tactic(auto)]

mod hand;
pub mod laws;
mod ring;
mod turns;

pub use hand::{SharedTurns, TurnsHand};
pub use turns::{Turns, TurnsHeard, TurnsSeal};
