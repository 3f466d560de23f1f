//! A library's task, which outputs the greatest number, inside an application's own tasks.
ghost use Rattle.std.specs.Prelude.{ℕ, ◌≡◌, ◌≤◌, ◌+◌, ◌⊎◌, [], Some, None, All, IfOk, IfErr, IfSome, MatchOption, refl, alloc_error};
ghost use Rattle.task_tests.specs.declared.greatest.GreatestError.TheVariants.{NoNumbers};

use held_tasks::{Holds, join_as};
use std::alloc::{AllocError, Global};
use std::test::Fail;
use tasks::{Harts, Task, TaskKind, run_alone};

/// Why numbers have no greatest.
#[derive(Debug, Drop, PartialEq)]
enum GreatestError {
    NoNumbers,
    OutOfMemory,
}

impl From<AllocError> for GreatestError {
    ghost use Rattle.task_tests.specs.declared.greatest.GreatestError.TheVariants.{OutOfMemory};

    ghost from_gives = { λ _ error. error ≡ OutOfMemory };

    fn from(_error: AllocError) -> GreatestError {
        GreatestError::OutOfMemory
    }
}

/// The library's task: the greatest of numbers, in halves that are cut so many times.
#[derive(Drop)]
struct Greatest<'p> {
    numbers: &'p [u64],
    cuts: u8,
}

impl<'p> TaskKind for Greatest<'p> {
    type Output = u64;

    type Error = GreatestError;

    ghost gives = { λ task output. All (λ number. number ≤ output) task.numbers.now };

    ghost fails = { λ task error. (error ≡ NoNumbers) × (task.numbers.now ≡ []) };

    ghost depth = { λ task. task.cuts };
}

// The library's procedure, inside any kind of tasks that holds its own.
fn run_greatest<'p, V: Holds<Greatest<'p>>, H: Harts<V>>(
    task: Greatest<'p>,
    alloc: Global,
    harts: &mut H,
) -> Result<u64, GreatestError>
    requires { task.cuts ≤ H.levels harts.old }
    ensures output { IfOk result (λ output. All (λ number. number ≤ output) task.entry.numbers.now) }
    ensures error { IfErr result (λ error. ((error ≡ NoNumbers) × (task.entry.numbers.now ≡ []))
        ⊎ ⟦<GreatestError as From<AllocError>>⟧.from_gives alloc_error error) }
    ensures levels { H.levels harts.new ≡ H.levels harts.old }
{
    let Greatest { numbers, cuts } = task;
    if cuts == 0 || numbers.len() < 2 {
        return greatest_of(numbers);
    }
    let cuts = cuts - 1;
    let (front, back) = numbers.split_at(numbers.len() / 2);
    let front = Greatest {
        numbers: front,
        cuts,
    };
    let back = Greatest {
        numbers: back,
        cuts,
    };
    let (first, second) = join_as::<Greatest<'p>, V, H>(alloc, harts, front, back)?;
    Ok(first.max(second))
}

// The greatest of numbers, on this hart.
fn greatest_of(numbers: &[u64]) -> Result<u64, GreatestError>
    ensures output { IfOk result (λ output. All (λ number. number ≤ output) numbers.now) }
    ensures error { IfErr result (λ error. (error ≡ NoNumbers) × (numbers.now ≡ [])) }
{
    match numbers.iter().copied().max() {
        Some(greatest) => Ok(greatest),
        None => Err(GreatestError::NoNumbers),
    }
}

impl<'p> Holds<Greatest<'p>> for Greatest<'p> {
    ghost use Rattle.task_tests.specs.declared.greatest.Greatest.{Greatest};
    ghost use Rattle.task_tests.specs.declared.greatest.GreatestError.TheVariants.{OutOfMemory};

    ghost held = { λ task. task };

    ghost same_depth = { λ _. refl };

    ghost same_outcome = { λ _ output given. (output, given) };

    fn hold(task: Greatest<'p>) -> Greatest<'p> {
        task
    }

    fn output_of(output: u64) -> Option<u64>
        ensures { (task : Greatest) → All (λ number. number ≤ output) task.numbers.now
            → (own : ℕ) × (result ≡ Some own) × All (λ number. number ≤ own) task.numbers.now }
    {
        Some(output)
    }

    fn error_of(error: GreatestError) -> GreatestError
        ensures own { (task : Greatest) → (error ≡ NoNumbers) × (task.numbers.now ≡ [])
            → (result ≡ NoNumbers) × (task.numbers.now ≡ []) }
        ensures memory { error ≡ OutOfMemory → result ≡ OutOfMemory }
    {
        error
    }
}

impl<'p> Task for Greatest<'p> {
    fn run<H: Harts<Self>>(self, alloc: Global, harts: &mut H) -> Result<u64, GreatestError> {
        run_greatest::<Greatest<'p>, H>(self, alloc, harts)
    }
}

// The greatest of numbers that are cut so many times.
fn greatest_alone(alloc: Global, numbers: &[u64], cuts: u8) -> Result<u64, GreatestError>
    requires { cuts ≤ 16 }
    ensures { IfOk result (λ output. All (λ number. number ≤ output) numbers.now) }
{
    run_alone(alloc, Greatest { numbers, cuts })
}

#[test]
fn a_library_runs_inside_its_own_tasks(rt: HostRuntime) -> Result<(), Fail> {
    let numbers = [3u64, 1, 4, 1, 5, 9, 2, 6];
    for cuts in 0..4u8 {
        assert_eq!(rt; greatest_alone(rt.alloc(), &numbers, cuts)?, 9);
        assert_eq!(rt;
            greatest_alone(rt.alloc(), &[], cuts),
            Err(GreatestError::NoNumbers)
        );
    }
    Ok(())
}

/// The application's task: the library's task alone, or, with one level inside, that of two lists of numbers.
#[derive(Drop)]
struct Both<'p> {
    left: Greatest<'p>,
    right: Option<&'p [u64]>,
    inside: u8,
}

impl<'p> TaskKind for Both<'p> {
    type Output = u64;

    type Error = GreatestError;

    ghost gives = { λ task output. All (λ number. number ≤ output) task.left.numbers.now
        × IfSome task.right (λ numbers. All (λ number. number ≤ output) numbers.now) };

    ghost fails = { λ task error. (error ≡ NoNumbers)
        × MatchOption task.right (task.left.numbers.now ≡ [])
        (λ numbers. (task.left.numbers.now ≡ []) ⊎ (numbers.now ≡ [])) };

    ghost depth = { λ task. task.left.cuts + task.inside };
}

impl<'p> Holds<Greatest<'p>> for Both<'p> {
    ghost use Rattle.std.proofs.Common.{rules};
    ghost use Rattle.task_tests.specs.declared.greatest.Greatest.{Greatest};
    ghost use Rattle.task_tests.specs.declared.greatest.GreatestError.TheVariants.{OutOfMemory};

    ghost held = { λ task. record { left = task; right = None; inside = 0 } };

    ghost same_depth = { λ task. Prim.search rules };

    ghost same_outcome = { λ _ output given. (output, given.0) };

    fn hold(task: Greatest<'p>) -> Both<'p> {
        Both {
            left: task,
            right: None,
            inside: 0,
        }
    }

    fn output_of(output: u64) -> Option<u64>
        ensures { (task : Greatest) → All (λ number. number ≤ output) task.numbers.now × Unit {0}
            → (own : ℕ) × (result ≡ Some own) × All (λ number. number ≤ own) task.numbers.now }
    {
        Some(output)
    }

    fn error_of(error: GreatestError) -> GreatestError
        ensures own { (task : Greatest) → (error ≡ NoNumbers) × (task.numbers.now ≡ [])
            → (result ≡ NoNumbers) × (task.numbers.now ≡ []) }
        ensures memory { error ≡ OutOfMemory → result ≡ OutOfMemory }
    {
        error
    }
}

impl<'p> Task for Both<'p> {
    fn run<H: Harts<Self>>(self, alloc: Global, harts: &mut H) -> Result<u64, GreatestError> {
        let Both {
            left,
            right,
            inside,
        } = self;
        let Some(numbers) = right else {
            return run_greatest::<Both<'p>, H>(left, alloc, harts);
        };
        if inside == 0 {
            let first = greatest_of(left.numbers)?;
            let second = greatest_of(numbers)?;
            return Ok(first.max(second));
        }
        let cuts = left.cuts;
        let right = Greatest { numbers, cuts };
        let (first, second) = join_as::<Greatest<'p>, Both<'p>, H>(alloc, harts, left, right)?;
        Ok(first.max(second))
    }
}

#[test]
fn a_library_runs_inside_tasks_of_an_application(rt: HostRuntime) -> Result<(), Fail> {
    for inside in 0..2u8 {
        let left = Greatest {
            numbers: &[3u64, 1, 4, 1, 5],
            cuts: 3,
        };
        let task = Both {
            left,
            right: Some(&[9u64, 2, 6]),
            inside,
        };
        assert_eq!(rt; run_alone(rt.alloc(), task)?, 9);
    }
    let left = Greatest {
        numbers: &[3u64, 1],
        cuts: 1,
    };
    let task = Both {
        left,
        right: Some(&[]),
        inside: 1,
    };
    assert_eq!(rt; run_alone(rt.alloc(), task), Err(GreatestError::NoNumbers));
    Ok(())
}
