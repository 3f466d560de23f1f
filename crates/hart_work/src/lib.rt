//! What a hart does at the sites of a program: one procedure for every port and every kind of schedulers.
//!
//! The trait `Machines` runs jobs, and the trait `Sites` has the schedulers of a hart's sites. The procedure runs a job's steps,
//! runs each construct that they hand out as a site of its own, skips the sites that they pass, and returns the hart to its site.
//! It moves the hart by the six calls of `sched_api`; `At` is a hart's hand on the scheduler of one of its sites. `Run` is what all
//! calls of one run have in common. Over a port and schedulers that never block the procedure returns.
//!
//! `lone_hart` runs it with the schedulers of a single hart, and `hart_loop` with shared ones. Begin with `serve` and
//! `run_construct` in `serving.rt`; the tests of `harts_tests` run whole programs with it.
#![tactic(auto)]

mod at;
mod callbacks;
mod found;
mod machines;
mod run;
mod serving;
mod sites;

pub use at::{At, SiteHeard, SiteSeal};
pub use callbacks::{call_back, callback_with};
pub use found::Found;
pub use machines::Machines;
pub use run::Run;
pub use serving::{run_construct, run_piece, serve};
pub use sites::Sites;
