//! The scheduler at the root of the tree.
//!
//! The base lends each hart that comes to it to the top site with the oldest wish. `Base` is for one thread. `BaseHand` is one
//! hart's hand on a base under a lock. `SharedBaseHand` is one hart's hand on a base with two atomic flags beside the lock,
//! which idle harts read. Begin with `Base` in `base.rt`; `table_tests` has an example of each.
#![tactic(auto)]

mod base;
mod hand;
mod shared;

pub use base::{Base, BaseHeard, BaseSeal};
pub use hand::BaseHand;
pub use shared::{SharedBase, SharedBaseHand};
