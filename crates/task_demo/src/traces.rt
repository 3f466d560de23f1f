//! The trace of a run.
use crate::error::DemoError;
use crate::runs::{Ran, run_demo};
use crate::words::Demo;
use std::alloc::Global;
use std::fs;
use std::rt::Files;
use std::sync::Wait;
use std::thread::Threads;
use std::time::Clock;
use task_trace::{Trace, chrome_trace};

/// Runs what the words request. If they name a file, the file gets the trace of the run.
///
/// # Errors
///
/// As [`run_demo`]'s; `NoTrace` if an event is missing, and `NoFile` if the file can't be written.
///
/// # Memory
///
/// As [`run_demo`]'s, and with a trace 32 bytes for each task and the text, about 150 bytes for each task.
pub fn run_traced<R: Threads + Wait + Clock + Files + Sync>(
    rt: &R,
    alloc: Global,
    demo: &Demo,
    text: &[u8],
) -> Result<Ran, DemoError> {
    let Some(path) = &demo.trace else {
        return run_demo(rt, alloc, demo, text, None);
    };
    let trace = Trace::new(rt, alloc, demo.harts)?;
    let ran = run_demo(rt, alloc, demo, text, Some(&trace))?;
    let text = chrome_trace(alloc, trace.into_events(alloc)?.as_slice())?;
    match fs::write(rt, path.as_str(), text.as_bytes()) {
        Ok(()) => Ok(ran),
        Err(_) => Err(DemoError::NoFile),
    }
}
