//! The greatest number of a slice, on several harts.
ghost use Rattle.std.specs.Prelude.{◌≡◌, IfOk};
ghost use Rattle.greatest_number.specs.Numbers.{greatest_of};

use greatest_number::Greatest;
use std::alloc::{AllocError, Global};
use std::sync::Wait;
use std::thread::Threads;
use task_crew::{RunError, run_on};

/// The greatest number of a slice, 0 of no numbers, on `harts` harts.
///
/// # Errors
///
/// As [`run_on`]'s.
pub fn greatest_on<R: Threads + Wait + Sync>(
    rt: &R,
    alloc: Global,
    harts: u8,
    numbers: &[u32],
) -> Result<u32, RunError<AllocError>>
    ensures { IfOk result (λ output. output ≡ greatest_of numbers.now) }
{
    run_on(rt, alloc, harts, 6, Greatest { numbers, cuts: 6 })
}
