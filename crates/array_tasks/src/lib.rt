//! The array language as a client of tasks: a program's jobs run as tasks, on 1 to 64 harts.
//!
//! A [`JobTask`] steps the machine of its job. At a construct it runs the construct's jobs as tasks inside it, phase after phase,
//! and supplies their merged writes to the machine. So the runs of this crate need no plan, and keep no journal; the layer below
//! `task_crew` lends the harts. [`run_program`] leaves the arrays of the one-thread meaning, and [`lines_of`] goes from a text to
//! the lines that `lithe_run solo` prints for it.
//!
//! Begin with `run_job` in `job_task.rt` and `run_construct` in `constructs.rt`.
#![tactic(auto)]

mod constructs;
mod error;
mod job_task;
mod machines;
mod program;
#[cfg(test)]
mod tests;
mod text;

pub use error::{ProgramError, TextError};
pub use job_task::{JobTask, run_job};
pub use program::{LEVELS, run_program, run_program_observed};
pub use text::{MOST_BYTES, lines_observed, lines_of};
