//! The barrier between the phases of a loop team.
//!
//! Neither a hart nor a context waits at the barrier. A member that ends its phase brings its piece and is done. The hart that
//! brings the last piece gets the writes of the whole phase.
//!
//! `BarrierState` is the barrier of one owner, and `LitheBarrier` the same under a lock. Begin with `BarrierState` in
//! `state.rt`. `loop_team` uses it, and `piece_tests` has examples.
#![tactic(auto)]

mod shared;
mod state;

pub use shared::LitheBarrier;
pub use state::{Arrival, BarrierState};
