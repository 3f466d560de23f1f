//! The checker: which programs may be run in parallel, the first condition that any other program fails, and the plan of
//! accepted programs.
//!
//! A run takes an `Accepted` program, which `check` returns. Begin with `check` in `checker.rt` and the conditions in
//! `specs/FaultOf.antt`; the tests of `language_tests` check programs that pass and programs that fail each condition.
#![tactic(auto)]

mod accepted;
mod around;
mod checker;
mod depth;
mod fault;
mod laws;
mod limits;
mod names;
mod ranges;
mod units;
mod unroll;

pub use accepted::Accepted;
pub use checker::{check, check_meaning};
pub use fault::{CheckFault, Limit};
pub use laws::{conditions_are_checked, conditions_are_tested};
