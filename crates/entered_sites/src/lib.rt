//! The sites of a program's plan that the one-thread meaning enters. Both sides of an `if` have their sites in the plan, and
//! the meaning enters those of one side.
//!
//! A run's journal is compared with these sites: they are registered, and all others skipped. Begin with `entered` in
//! `walk.rt`; the tests of `language_tests` have examples.
#![tactic(auto)]

mod accepted;
mod choice;
mod walk;
mod walker;

pub use accepted::entered_by;
pub use walk::entered;
