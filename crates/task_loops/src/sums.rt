//! The sum of a slice's numbers.
ghost use Rattle.std.specs.Prelude.{◌≡◌, ◌≤◌, ◌⊎◌, ◌%◌, ◌^◌, ℕ, length, sum, IsOk, IfOk, IfErr, alloc_error};
ghost use Rattle.task_loops.specs.Ranges.{between};

use crate::fold::{Fold, Indices, Leaf, Part, run_fold};
use held_tasks::Holds;
use std::alloc::{AllocError, Global};
use tasks::{Harts, TaskKind};

/// The sum of a slice's numbers, modulo 2^64.
#[derive(Clone, Copy)]
pub struct Sum<'p> {
    /// The numbers.
    pub numbers: &'p [u64],
}

impl<'p> Indices for Sum<'p> {
    ghost size = { λ fold. length fold.numbers.now };

    fn count(&self) -> usize
        ensures { result ≡ length self.now.numbers.now }
    {
        self.numbers.len()
    }
}

impl<'p> Fold for Sum<'p> {
    type Output = u64;

    type Error = AllocError;

    ghost gives = { λ fold low high output. output ≡ sum (between low high fold.numbers.now) % 2 ^ 64 };

    ghost fails = { λ _ _ _ _. ⊥ };

    ghost depth = { λ _. 0 };

    fn join(&self, front: u64, back: u64) -> Result<u64, AllocError>
        ensures output { IfOk result (λ output. (low middle high : ℕ) → low ≤ middle → middle ≤ high
            → front ≡ sum (between low middle self.now.numbers.now) % 2 ^ 64
            → back ≡ sum (between middle high self.now.numbers.now) % 2 ^ 64
            → output ≡ sum (between low high self.now.numbers.now) % 2 ^ 64) }
        ensures error { IfErr result (λ error. error ≡ alloc_error) }
        ensures ok { IsOk result }
    {
        Ok(front.wrapping_add(back))
    }

    ghost front_fails = { λ _ _ _ _ _ _ _ no. no };

    ghost back_fails = { λ _ _ _ _ _ _ _ _ _ no. no };
}

impl<'p, V: TaskKind> Leaf<V> for Sum<'p> {
    fn run<H: Harts<V>>(
        &self,
        _alloc: Global,
        _harts: &mut H,
        low: usize,
        high: usize,
    ) -> Result<u64, AllocError>
        requires in_order { low ≤ high }
        requires within { high ≤ length self.now.numbers.now }
        requires levels { 0 ≤ H.levels _harts.old }
        ensures output { IfOk result
            (λ output. output ≡ sum (between low high self.now.numbers.now) % 2 ^ 64) }
        ensures error { IfErr result (λ error. ⊥ ⊎ (error ≡ alloc_error)) }
        ensures ok { IsOk result }
        ensures levels { H.levels _harts.new ≡ H.levels _harts.old }
    {
        Ok(sum_of(&self.numbers[low..high]))
    }
}

// The sum of numbers, modulo 2^64.
fn sum_of(numbers: &[u64]) -> u64
    ensures { result ≡ sum numbers.now % 2 ^ 64 }
{
    let mut total = 0u64;
    'numbers: for number in numbers {
        total = total.wrapping_add(*number);
    }
    total
}

/// Adds up the numbers of a slice, modulo 2^64, by tasks inside tasks of any kind that holds them.
///
/// # Errors
///
/// An allocation failure.
///
/// # Memory
///
/// What [`run_fold`] allocates.
pub fn run_sum<'p, V: Holds<Part<Sum<'p>>>, H: Harts<V>>(
    alloc: Global,
    harts: &mut H,
    numbers: Sum<'p>,
    cuts: u8,
    shortest: usize,
) -> Result<u64, AllocError>
    requires { cuts ≤ H.levels harts.old }
    ensures output { IfOk result (λ output. output ≡ sum numbers.entry.numbers.now % 2 ^ 64) }
    ensures error { IfErr result (λ error. error ≡ alloc_error) }
    ensures levels { H.levels harts.new ≡ H.levels harts.old }
{
    let whole = Part::whole(numbers, cuts, shortest);
    let total = run_fold::<Sum<'p>, V, H>(alloc, harts, whole)?;
    Ok(total)
}
