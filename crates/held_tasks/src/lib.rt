//! Tasks of one kind inside tasks of another: a library's tasks run on the harts of any task that calls the library.
//!
//! A kind of tasks that [`Holds`] another can contain it. A library defines its own kind of tasks, and writes its procedure
//! over any `V: Holds<Own>` and `H: Harts<V>`, with [`fork_join_as`] instead of `fork_join`, or [`join_as`] for two tasks. So
//! the procedure runs inside the tasks of an application, and inside its own. An application whose kind holds two libraries'
//! tasks runs one of each at once by [`join_two`].
//!
//! # Example
//!
//! ```text
//! // In the library: its tasks are of the kind `Sort`.
//! pub fn run_sort<V: Holds<Sort>, H: Harts<V>>(sort: Sort, alloc: Global, harts: &mut H) -> Result<Vec<u64>, AllocError> {
//!     ..
//!     let parts = fork_join_as::<Sort, V, H>(alloc, harts, halves)?;
//!     ..
//! }
//!
//! // In the application: its tasks are of the kind `Row`, one of which is a sort.
//! impl Holds<Sort> for Row { .. }
//! let sorted = run_sort::<Row, H>(sort, alloc, harts)?;
//! ```
#![tactic(auto)]

mod holds;
mod run;
mod two;

pub use holds::Holds;
pub use run::{fork_join_as, join_as};
pub use two::join_two;
