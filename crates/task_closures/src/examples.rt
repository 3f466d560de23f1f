//! What a user writes.
ghost use Rattle.std.specs.Prelude.{◌≡◌, ◌*◌, IfOk, length};
ghost use Rattle.std.specs.List.{AllZip};

use crate::each::map_on;
use crate::pair::join_on;
use std::alloc::{AllocError, Global};
use std::sync::Wait;
use std::thread::Threads;
use task_crew::RunError;

/// The greatest number of a slice and its length, by two closures at once.
///
/// # Errors
///
/// As [`join_on`]'s.
pub fn greatest_and_length<R: Threads + Wait + Sync>(
    rt: &R,
    alloc: Global,
    harts: u8,
    numbers: &[u64],
) -> Result<(Option<u64>, usize), RunError<AllocError>>
    ensures { IfOk result (λ both. both.1 ≡ length numbers.now) }
{
    join_on(
        rt,
        alloc,
        harts,
        || numbers.iter().copied().max(),
        || numbers.len(),
    )
}

/// The squares of numbers.
///
/// # Errors
///
/// As [`map_on`]'s.
pub fn squares_of<R: Threads + Wait + Sync>(
    rt: &R,
    alloc: Global,
    harts: u8,
    numbers: &[u32],
) -> Result<Vec<u64>, RunError<AllocError>>
    ensures { IfOk result (λ squares. AllZip (λ n s. s ≡ n * n) numbers.now squares.items) }
{
    map_on(
        rt,
        alloc,
        harts,
        numbers,
        |n: &u32| (*n as u64) * (*n as u64),
    )
}
