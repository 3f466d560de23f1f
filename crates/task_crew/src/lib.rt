//! Runs a task on several harts.
//!
//! [`run_on`] starts the harts once. Hart 0 runs the task, and an open board lends the other harts to the tasks inside it, from
//! site to site. A hart that finds nothing to do checks for a few microseconds and then sleeps until there is a wish for harts,
//! or the run has ended. On one hart no thread starts and nothing blocks.
//!
//! A crate whose tests call [`run_on`] has a line `NAME tests_may=Threads+Wait: task_crew ..` in `crates.txt`. The line lists the
//! crates that its files name, and not those below them.
//!
//! # Example
//!
//! From `task_tests/src/lengths.rt`: a text's length, by tasks that cut it at most six times, on `harts` harts.
//!
//! ```text
//! run_on(rt, alloc, harts, 6, Length { text, cuts: 6 })
//! ```
#![tactic(auto)]

mod eight;
mod error;
mod run;

pub use eight::{run_observed_eight_levels, run_on_eight_levels};
pub use error::RunError;
pub use run::{MOST_HARTS, MOST_LEVELS, run_observed, run_on};
