//! A library of tasks, to copy: the greatest number of a slice, by halves of the slice. `docs/TASKS.md` walks through it.
#![tactic(auto)]

mod greatest;
#[cfg(test)]
mod tests;

pub use greatest::{Greatest, run_greatest};
