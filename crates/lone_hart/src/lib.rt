//! The schedulers of a single hart. Begin with `LoneSites` in `lone.rt`; the tests of `lithe_tests` run programs with it.
//!
//! With `LoneSites`, the procedure of `hart_work` runs each `par` by a pool, each `team` by a team, and each piece by a machine of
//! its own. It needs no runtime, and returns.
//!
//! Runs on several harts open pools and teams (`open_pool`, `open_team`), give schedulers room for wishes (`room_for_wishes`),
//! and take the writes of a pool (`take_from_pool`) in the same way.
#![tactic(auto)]

mod lone;
mod pools;
mod site;
mod teams;
mod wishes;

pub use lone::LoneSites;
pub use pools::{open_pool, take_from_pool};
pub use site::LoneSite;
pub use teams::open_team;
pub use wishes::room_for_wishes;
