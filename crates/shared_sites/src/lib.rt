//! The schedulers of sites that all harts share: the directory in which harts find them, and one hart's access to them.
//!
//! The directory has a cell for each site, which is set once. A home publishes the scheduler of its site there, and other harts
//! find it. Each hart reads a cell through a note of its own, so that it never finds another scheduler there than before.
//!
//! A hart brings its own access to the deques and its own seat of the claim table (`Claims`) to each shared scheduler; these
//! are its `HartLocal`. With them it calls the scheduler of a site, which a `SchedulerRef` names. It doesn't use a scheduler for
//! which it has no deque or counters.
//!
//! `hart_loop` accesses shared schedulers only by this crate. Begin with `SiteCell` in `directory.rt`, `HartLocal` in `hart_local.rt` and
//! `SchedulerRef` in `scheduler_ref.rt`; the tests of `harts_tests` publish and find schedulers, and run whole programs.
#![tactic(auto)]

mod claims;
mod completed;
mod directory;
mod hart_local;
mod kept;
mod scheduler_ref;
mod shared_site;

pub use claims::Claims;
pub use completed::Completed;
pub use directory::{SiteCell, cells, site_cells};
pub use hart_local::{HartLocal, hart_locals_of};
pub use scheduler_ref::{PoolRef, SchedulerRef, TeamRef};
pub use shared_site::SharedSite;
