//! The greatest number of a slice.
ghost use Rattle.std.specs.Prelude.{◌≡◌, ◌≤◌, ℕ, Some, refl, IfOk, IfErr, alloc_error};
ghost use Rattle.greatest_number.specs.Numbers.{greatest_of};
ghost use Rattle.greatest_number.specs.declared.greatest.Greatest.{Greatest};

use held_tasks::{Holds, join_as};
use std::alloc::{AllocError, Global};
use tasks::{Harts, Task, TaskKind};

/// A slice whose greatest number is looked for. It may be cut into halves, and each half again, `cuts` times.
#[derive(Drop)]
pub struct Greatest<'p> {
    pub numbers: &'p [u32],
    pub cuts: u8,
}

// The output is the greatest number, 0 of no numbers. The tasks have no error of their own.
impl<'p> TaskKind for Greatest<'p> {
    type Output = u32;

    type Error = AllocError;

    ghost gives = { λ task output. output ≡ greatest_of task.numbers.now };

    ghost fails = { λ _ _. ⊥ };

    ghost depth = { λ task. task.cuts };
}

/// The greatest number of a slice, 0 of no numbers, by tasks inside tasks of any kind that holds these.
///
/// # Errors
///
/// An allocation failure.
#[tactic(auto, using(crate::proofs::Numbers::greatest_halves))]
pub fn run_greatest<'p, V: Holds<Greatest<'p>>, H: Harts<V>>(
    alloc: Global,
    harts: &mut H,
    task: Greatest<'p>,
) -> Result<u32, AllocError>
    requires { task.cuts ≤ H.levels harts.old }
    ensures output { IfOk result (λ output. output ≡ greatest_of task.entry.numbers.now) }
    ensures error { IfErr result (λ error. error ≡ alloc_error) }
    ensures levels { H.levels harts.new ≡ H.levels harts.old }
{
    let Greatest { numbers, cuts } = task;
    if cuts == 0 || numbers.len() < 2 {
        return Ok(greatest_in(numbers));
    }
    let (front, back) = numbers.split_at(numbers.len() / 2);
    let front = Greatest {
        numbers: front,
        cuts: cuts - 1,
    };
    let back = Greatest {
        numbers: back,
        cuts: cuts - 1,
    };
    let (front, back) = join_as::<Greatest<'p>, V, H>(alloc, harts, front, back)?;
    Ok(front.max(back))
}

// The greatest number of a slice, by one hart.
#[tactic(auto, using(crate::proofs::Numbers::greatest_of_more))]
fn greatest_in(numbers: &[u32]) -> u32
    ensures { result ≡ greatest_of numbers.now }
{
    let mut greatest = 0u32;
    'numbers: for number in numbers {
        greatest = greatest.max(*number);
    }
    greatest
}

// The library's own kind of tasks, so that it runs without an application.
impl<'p> Holds<Greatest<'p>> for Greatest<'p> {
    ghost held = { λ task. task };

    ghost same_depth = { λ _. refl };

    ghost same_outcome = { λ _ output given. (output, given) };

    fn hold(task: Greatest<'p>) -> Greatest<'p>
        ensures { result ≡ task.entry }
    {
        task
    }

    fn output_of(output: u32) -> Option<u32>
        ensures { (task : Greatest) → output ≡ greatest_of task.numbers.now → (own : ℕ)
            × (result ≡ Some own) × (own ≡ greatest_of task.numbers.now) }
    {
        Some(output)
    }

    fn error_of(error: AllocError) -> AllocError
        ensures { result ≡ error }
    {
        error
    }
}

impl<'p> Task for Greatest<'p> {
    fn run<H: Harts<Self>>(self, alloc: Global, harts: &mut H) -> Result<u32, AllocError> {
        run_greatest::<Greatest<'p>, H>(alloc, harts, self)
    }
}
