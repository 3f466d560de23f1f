//! Two tasks of different kinds at once, inside an application's task: both outputs, and the first failure by order.
ghost use Rattle.std.specs.Prelude.{◌≡◌, ℕ, Some, length, refl};
ghost use Rattle.task_tests.specs.Pairs.{gives_of, fails_of, depth_of, GivesHalf, GivesSize};
ghost use Rattle.task_tests.specs.declared.pairs.Half.{Half};
ghost use Rattle.task_tests.specs.declared.pairs.Size.{Size};
ghost use Rattle.task_tests.specs.declared.pairs.Both.TheVariants.{Halves, Measures};
ghost use Rattle.task_tests.specs.declared.pairs.BothError.TheVariants.{Odd, Empty, OutOfMemory};

use crate::gates::Gate;
use held_tasks::{Holds, join_two};
use std::alloc::{AllocError, Global};
use std::sync::Wait;
use std::test::Fail;
use std::thread::Threads;
use task_crew::{RunError, run_on_eight_levels};
use tasks::{Harts, Task, TaskKind};

/// Why a task has no output.
#[derive(Debug, Drop, PartialEq)]
pub enum BothError {
    Odd,
    Empty,
    OutOfMemory,
}

impl From<AllocError> for BothError {
    ghost from_gives = { λ _ error. error ≡ OutOfMemory };

    fn from(_error: AllocError) -> BothError {
        BothError::OutOfMemory
    }
}

/// The half of an even number.
#[derive(Drop)]
pub struct Half<'p> {
    number: u8,
    gate: &'p Gate,
}

impl<'p> TaskKind for Half<'p> {
    type Output = u8;

    type Error = BothError;

    ghost gives = { GivesHalf };

    ghost fails = { λ _ error. error ≡ Odd };

    ghost depth = { λ _. 0 };
}

/// The length of a text that isn't empty.
#[derive(Drop)]
pub struct Size<'p> {
    text: &'p [u8],
    gate: &'p Gate,
}

impl<'p> TaskKind for Size<'p> {
    type Output = usize;

    type Error = BothError;

    ghost gives = { GivesSize };

    ghost fails = { λ _ error. error ≡ Empty };

    ghost depth = { λ _. 0 };
}

/// The application's task: one of each kind, or a task of one kind.
#[derive(Drop)]
pub enum Both<'p> {
    Leads(Half<'p>, Size<'p>),
    Halves(Half<'p>),
    Measures(Size<'p>),
}

/// The output of the application's task.
#[derive(Debug, Drop, PartialEq)]
pub enum Done {
    Pair(u8, usize),
    Number(u8),
    Bytes(usize),
}

impl<'p> TaskKind for Both<'p> {
    type Output = Done;

    type Error = BothError;

    ghost gives = { gives_of };

    ghost fails = { fails_of };

    ghost depth = { depth_of };
}

impl<'p> Holds<Half<'p>> for Both<'p> {
    ghost held = { λ task. Halves task };

    ghost same_depth = { λ _. refl };

    ghost same_outcome = { λ _ _ given. (given.0, given.2) };

    fn hold(task: Half<'p>) -> Both<'p>
        ensures { result ≡ Halves task.entry }
    {
        Both::Halves(task)
    }

    fn output_of(output: Done) -> Option<u8>
        ensures { (task : Half) → gives_of (Halves task) output
            → (own : ℕ) × (result ≡ Some own) × GivesHalf task own }
    {
        match output {
            Done::Number(number) => Some(number),
            _ => None,
        }
    }

    fn error_of(error: BothError) -> BothError
        ensures own { (task : Half) → error ≡ Odd → result ≡ Odd }
        ensures memory { error ≡ OutOfMemory → result ≡ OutOfMemory }
    {
        error
    }
}

impl<'p> Holds<Size<'p>> for Both<'p> {
    ghost held = { λ task. Measures task };

    ghost same_depth = { λ _. refl };

    ghost same_outcome = { λ _ _ given. (given.0, given.2) };

    fn hold(task: Size<'p>) -> Both<'p>
        ensures { result ≡ Measures task.entry }
    {
        Both::Measures(task)
    }

    fn output_of(output: Done) -> Option<usize>
        ensures { (task : Size) → gives_of (Measures task) output
            → (own : ℕ) × (result ≡ Some own) × GivesSize task own }
    {
        match output {
            Done::Bytes(bytes) => Some(bytes),
            _ => None,
        }
    }

    fn error_of(error: BothError) -> BothError
        ensures own { (task : Size) → error ≡ Empty → result ≡ Empty }
        ensures memory { error ≡ OutOfMemory → result ≡ OutOfMemory }
    {
        error
    }
}

impl<'p> Task for Both<'p> {
    fn run<H: Harts<Self>>(self, alloc: Global, harts: &mut H) -> Result<Done, BothError> {
        match self {
            Both::Leads(half, size) => {
                let (number, bytes) = join_two::<Half<'p>, Size<'p>, Both<'p>, H>(
                    alloc, harts, half, size,
                )?;
                Ok(Done::Pair(number, bytes))
            }
            Both::Halves(half) => {
                half.gate.pass();
                if half.number % 2 == 1 {
                    return Err(BothError::Odd);
                }
                Ok(Done::Number(half.number / 2))
            }
            Both::Measures(size) => {
                size.gate.pass();
                if size.text.is_empty() {
                    return Err(BothError::Empty);
                }
                Ok(Done::Bytes(size.text.len()))
            }
        }
    }
}

// The outcome of both tasks on so many harts, which wait for one another.
fn both_on<R: Threads + Wait + Sync>(
    rt: &R,
    alloc: Global,
    harts: u8,
    number: u8,
    text: &[u8],
) -> Result<Done, RunError<BothError>> {
    let gate = Gate::new(harts as u64);
    let half = Half {
        number,
        gate: &gate,
    };
    let size = Size { text, gate: &gate };
    let outcome = run_on_eight_levels(rt, alloc, harts, 1, Both::Leads(half, size))?;
    if gate.has_run_out() {
        return Ok(Done::Number(0));
    }
    Ok(outcome)
}

#[test]
fn two_kinds_run_at_once_and_the_first_failure_decides(rt: HostRuntime) -> Result<(), Fail> {
    for harts in [1u8, 2] {
        for _round in 0..50 {
            let both = both_on(&rt, rt.alloc(), harts, 14, b"text");
            assert_eq!(rt; &both, &Ok(Done::Pair(7, 4)));
            let odd = both_on(&rt, rt.alloc(), harts, 15, b"");
            assert_eq!(rt; &odd, &Err(RunError::Task(BothError::Odd)));
            let empty = both_on(&rt, rt.alloc(), harts, 14, b"");
            assert_eq!(rt; &empty, &Err(RunError::Task(BothError::Empty)));
        }
    }
    Ok(())
}
