//! A trace of a run of tasks: which hart ran which task when, in which site.
//!
//! A [`Trace`] has a list of events for each hart. [`Traced`] is the handle of a traced run: it keeps the begin and the end of
//! each task, with the time. [`chrome_trace`] writes the events in the JSON form of Chrome's trace events, which
//! `chrome://tracing` and Perfetto open.
//!
//! The contracts state that the events of each hart are nested: each end is that of the task that began last of those that
//! still run, and each task that has begun has ended. There is a list for each hart of the trace. A hart's row keeps each event
//! that it gets, or why it is missing (`Keeps`); it is behind a lock, so no contract states that each task has an event.
//!
//! Begin with `Trace` in `trace.rt`, `IsNested` in `specs/Nesting.antt` and `Keeps` in `specs/Keeping.antt`.
//!
//! # Example
//!
//! From `task_tests/src/runs.rt`.
//!
//! ```text
//! let trace = Trace::new(rt, alloc, harts)?;
//! let handle = Traced::new(rt, Some(&trace));
//! let count = run_observed(&handle, alloc, harts, levels, tree).ok();
//! drop(handle);
//! let events = trace.into_events(alloc)?;
//! Ok((count, chrome_trace(alloc, events.as_slice())?))
//! ```
#![tactic(auto)]

mod chrome;
mod error;
mod event;
mod trace;

pub use chrome::chrome_trace;
pub use error::TraceError;
pub use event::Event;
pub use trace::{Trace, Traced};
