//! The machines that run a program's jobs, as an implementation of the trait `Machines` of `hart_work`, and the laws on the
//! sites of jobs.
//!
//! The machines are the same on one hart and on several. Their ghost members about the sites of jobs are for a hart that keeps
//! an account. Begin with `JobMachines` in `machines.rt`; the tests in `by_bound.rt` of `piece_tests` run jobs by the trait.
//!
//! Each public module holds laws. No code there runs: each function's contract is a law, and its body is empty. In the order
//! in which they rest on each other: `planned_sites`, `site_passes`, `site_parts`, `piece_accounts`, `machine_accounts`.
#![tactic(auto)]

pub mod machine_accounts;
mod machines;
pub mod piece_accounts;
pub mod planned_sites;
pub mod site_parts;
pub mod site_passes;
mod steps;

pub use machines::JobMachines;
