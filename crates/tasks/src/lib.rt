//! Tasks of any kind on harts: a task may run tasks inside it on the harts that run it, nested as deep as it states.
//!
//! An author states what tasks of a kind output ([`TaskKind`]) and how a task runs ([`Task`]). Inside `run`, the author calls
//! [`Harts::fork_join`] with a list of tasks. The call returns their outputs in order, or the error of the first task that
//! failed. The type that implements [`Harts`] decides how many harts there are, and which hart runs which task. This crate has
//! one hart, which runs the tasks in order ([`run_alone`]); `task_crew` has several. A library whose tasks run inside tasks of
//! other kinds is written over `held_tasks`, and calls `fork_join_as` instead.
//!
//! # Example
//!
//! The sum of a text's digits, by halves of the text, from `task_tests/src/digits.rt`. The task borrows the text, and may be cut `cuts`
//! times. In this test `gives` allows any output; `task_tests/src/lengths.rt` has a kind whose `gives` is exact.
//!
//! ```text
//! impl<'p> TaskKind for Digits<'p> {
//!     type Output = u64;
//!     type Error = DigitError;
//!     ghost gives = { λ _ _. Unit {0} };
//!     ghost fails = { λ _ _. Unit {0} };
//!     ghost depth = { λ task. task.cuts };
//! }
//!
//! impl<'p> Task for Digits<'p> {
//!     fn run<H: Harts<Self>>(self, alloc: Global, harts: &mut H) -> Result<u64, DigitError> {
//!         let Digits { text, cuts } = self;
//!         if cuts == 0 || text.len() < 2 {
//!             return sum_of(text);
//!         }
//!         let (front, back) = text.split_at(text.len() / 2);
//!         let mut halves = Vec::with_capacity(alloc, 2)?;
//!         halves.push_reserved(Digits { text: front, cuts: cuts - 1 });
//!         halves.push_reserved(Digits { text: back, cuts: cuts - 1 });
//!         let sums = harts.fork_join(alloc, halves)?;
//!         Ok(sums.iter().fold(0u64, |sum, part| sum.wrapping_mul(100).wrapping_add(*part)))
//!     }
//! }
//!
//! run_alone(alloc, Digits { text, cuts })
//! ```
#![tactic(auto)]

mod one_hart;
mod task;

pub use one_hart::{Four, Ground, Level, Levels16, in_order, run_alone};
pub use task::{Harts, Task, TaskKind};
