//! The spaces of a text, counted on several harts.
use std::alloc::{AllocError, Global};
use std::sync::Wait;
use std::thread::Threads;
use task_crew::{RunError, run_on};
use task_start::Spaces;

/// Counts the spaces of a text on `harts` harts, in 16 parts.
///
/// # Errors
///
/// As [`run_on`]'s.
pub fn count_on<R: Threads + Wait + Sync>(
    rt: &R,
    alloc: Global,
    harts: u8,
    text: &[u8],
) -> Result<usize, RunError<AllocError>> {
    run_on(rt, alloc, harts, 4, Spaces { text, cuts: 4 })
}
