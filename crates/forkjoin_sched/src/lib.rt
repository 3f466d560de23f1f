//! The fork-join pool: the scheduler of one `par`.
//!
//! A `Pool` is for one hart. Harts share a `SharedPool`, each by a hand of its own. The home of the site offers the pool's
//! jobs: it pushes their job indices onto its deque, from which it pops and guests steal, without the lock of the pool.
//!
//! Begin with `Pool` in `pool.rt`, then `PoolHand` in `calls.rt`; the tests of `scheduler_tests` run pools with one hart and with
//! threads.
#![tactic(auto)]

mod batch;
mod calls;
mod hand;
pub mod laws;
mod looks;
mod offering;
mod pieces;
mod pool;
mod same_jobs;
mod shared;

pub use batch::{NotAdded, PieceBatch};
pub use hand::PoolHand;
pub use looks::{Found, Looks};
pub use pool::{Pool, PoolHeard, PoolSeal, PoolWork};
pub use shared::SharedPool;
