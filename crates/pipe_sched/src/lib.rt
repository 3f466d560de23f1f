//! Pipelines: the scheduler of a `team` whose members overtake one another.
//!
//! No member waits at a barrier. A member goes on to its next phase as soon as it has done its own and the members below it
//! have done that next phase. The state knows which piece is due, and the state of each piece. A `Pipe` is the scheduler over
//! it, for one hart. Harts share a `SharedPipe`, each by a hand of its own.
//!
//! Which constructs may be pipes, `pipe_walk` checks; its calls are given out here too.
//!
//! Begin with `PipeState` in `state.rt` and `handing.rt`; the tests of `scheduler_tests` run pipes with one hart and with threads.
#![tactic(auto)]

mod filling;
mod hand;
mod handing;
mod looks;
mod merging;
mod pipe;
mod shared;
mod shown;
mod slot;
mod state;
mod under_lock;

pub use hand::PipeHand;
pub use looks::{Found, Looks};
pub use pipe::{Pipe, PipeHeard, PipeSeal, PipeWork};
pub use pipe_walk::{PipeFault, pipe_check, uncrossed};
pub use shared::SharedPipe;
pub use state::PipeState;
