//! Tasks that wait for harts. One hart claims each task once, in one atomic step, and its outcome comes back in the task's
//! slot.
//!
//! A table is made of a list of tasks and shared by reference. Each hart takes a seat, claims the task at an index, runs it and
//! stores its outcome. The hart that needs the outcomes collects each from its index. No call locks or blocks.
//!
//! A seat's view lists what the seat has claimed, stored and collected, and no step changes a list but by one entry of its own
//! call. By the table's invariant no task is lost: a task whose word isn't 0 was claimed by a seat, has its outcome, which a seat
//! stored, in its slot, or had its outcome collected by a seat; and each outcome that was collected was stored.
//!
//! # Example
//!
//! From `task_tests/src/tables.rt`, where a task is a number and its output twice the number.
//!
//! ```text
//! let table = TaskTable::new(rt.alloc(), tasks)?;
//!
//! // Any hart:
//! let mut seat = table.seat();
//! let Some(task) = table.claim(seat, place) else {
//!     return false;
//! };
//! table.give(seat, place, Ok(task.0 as u64 * 2));
//!
//! // The hart that needs the outcomes:
//! match table.collect(seat, place) {
//!     Some(Ok(output)) => Some(output),
//!     _ => None,
//! }
//! ```
#![tactic(auto)]

mod rule;
mod slot;
mod table;

pub use slot::{Outcome, SeatView, TaskList, TaskSeat, TaskSlot, TaskView};
pub use table::TaskTable;
