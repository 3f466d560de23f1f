//! Libraries inside one another: a loop over the rows of a table, which sorts each row by a fork-join library and adds up the
//! row by a loop library, all on the same harts.
//!
//! The application has one kind of tasks, [`Work`], with a variant for each library that it calls. It implements `Holds` once
//! for each. Any free hart takes a range of rows, a part of a row that is sorted, or a part of a row that is added up.
//!
//! # Example
//!
//! A table of three rows, from `task_tests/src/rows.rt`.
//!
//! ```text
//! let rows = Rows {
//!     rows: &table,
//!     cuts,
//!     shortest: 0,
//! };
//! let work = Work::Table(Part::whole(rows, 2, 0));
//! match run_alone(rt.alloc(), work)? {
//!     Done::Summaries(summaries) => assert!(rt; summaries == expected, "with {cuts} cuts"),
//!     _ => assert!(rt; false, "not summaries"),
//! }
//! ```
#![tactic(auto)]

mod holds;
mod rows;
mod work;

pub use rows::Rows;
pub use work::{Done, Summary, Work};
