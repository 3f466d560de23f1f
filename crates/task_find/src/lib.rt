//! The first element of a slice that passes a test, as a library of tasks.
//!
//! [`Find`] is a fold whose ranges fail by what they find. The error of a list of tasks is that of the first task that failed, so
//! the error of the whole slice is its first index. The tasks behind a failed one that have not begun are dropped, so a search
//! stops early on any number of harts. [`FindTask`] is the search as a task. Inside a task of another kind, call [`find_first`].
//!
//! # Example
//!
//! From `task_tests/src/finds.rt`.
//!
//! ```text
//! impl Predicate<u64> for Sevens {
//!     ghost passes = { λ _ number. number % 7 == 0 };
//!     fn passes(&self, element: &u64) -> bool {
//!         *element % 7 == 0
//!     }
//! }
//!
//! let find = Find { elements: &numbers, predicate: &Sevens };
//! let whole = FindTask::Whole { find, cuts, shortest: 0 };
//! assert_eq!(rt; run_on_eight_levels(&rt, rt.alloc(), 2, cuts, whole), Ok(Some(3)));
//! ```
#![tactic(auto)]

mod find;
mod task;

pub use find::{Find, Found, Predicate, find_first};
pub use task::FindTask;
