//! A small library of tasks, as an author writes it: the length of a text, by halves of the text.
ghost use Rattle.std.specs.Prelude.{◌≡◌, ◌≤◌, ℕ, Some, length, refl, IfOk, IfErr, alloc_error};
ghost use Rattle.task_tests.specs.declared.lengths.Length.{Length};

use held_tasks::{Holds, join_as};
use std::alloc::{AllocError, Global};
use std::sync::Wait;
use std::test::Fail;
use std::thread::Threads;
use task_crew::{RunError, run_on};
use tasks::{Harts, Task, TaskKind};

/// A text whose length is computed. It may be cut into halves, and each half again, `cuts` times.
#[derive(Drop)]
pub struct Length<'p> {
    pub text: &'p [u8],
    pub cuts: u8,
}

// The output is a length. The tasks have no error of their own.
impl<'p> TaskKind for Length<'p> {
    type Output = usize;

    type Error = AllocError;

    ghost gives = { λ task output. output ≡ length task.text.now };

    ghost fails = { λ _ _. ⊥ };

    ghost depth = { λ task. task.cuts };
}

/// The length of a text, inside tasks of any kind that holds these.
///
/// # Errors
///
/// An allocation failure.
pub fn run_length<'p, V: Holds<Length<'p>>, H: Harts<V>>(
    alloc: Global,
    harts: &mut H,
    task: Length<'p>,
) -> Result<usize, AllocError>
    requires { task.cuts ≤ H.levels harts.old }
    ensures output { IfOk result (λ output. output ≡ length task.entry.text.now) }
    ensures error { IfErr result (λ error. error ≡ alloc_error) }
    ensures levels { H.levels harts.new ≡ H.levels harts.old }
{
    let Length { text, cuts } = task;
    if cuts == 0 || text.len() < 2 {
        return Ok(text.len());
    }
    let (front, back) = text.split_at(text.len() / 2);
    let front = Length {
        text: front,
        cuts: cuts - 1,
    };
    let back = Length {
        text: back,
        cuts: cuts - 1,
    };
    let (front, back) = join_as::<Length<'p>, V, H>(alloc, harts, front, back)?;
    Ok(front + back)
}

// The library's own kind of tasks, so that it runs without an application.
impl<'p> Holds<Length<'p>> for Length<'p> {
    ghost held = { λ task. task };

    ghost same_depth = { λ _. refl };

    ghost same_outcome = { λ _ output given. (output, given) };

    fn hold(task: Length<'p>) -> Length<'p>
        ensures { result ≡ task.entry }
    {
        task
    }

    fn output_of(output: usize) -> Option<usize>
        ensures { (task : Length) → output ≡ length task.text.now → (own : ℕ) × (result ≡ Some own)
            × (own ≡ length task.text.now) }
    {
        Some(output)
    }

    fn error_of(error: AllocError) -> AllocError
        ensures { result ≡ error }
    {
        error
    }
}

impl<'p> Task for Length<'p> {
    fn run<H: Harts<Self>>(self, alloc: Global, harts: &mut H) -> Result<usize, AllocError> {
        run_length::<Length<'p>, H>(alloc, harts, self)
    }
}

/// The length of a text, on `harts` harts.
///
/// # Errors
///
/// As [`run_on`]'s.
pub fn length_on<R: Threads + Wait + Sync>(
    rt: &R,
    alloc: Global,
    harts: u8,
    text: &[u8],
) -> Result<usize, RunError<AllocError>>
    ensures { IfOk result (λ output. output ≡ length text.now) }
{
    run_on(rt, alloc, harts, 6, Length { text, cuts: 6 })
}

#[test]
fn the_length_is_the_same_on_any_number_of_harts(rt: HostRuntime) -> Result<(), Fail> {
    let text = Vec::from_elem(rt.alloc(), b'x', 1000)?;
    for harts in [1u8, 2, 4, 16, 64] {
        let length = length_on(&rt, rt.alloc(), harts, text.as_slice());
        assert_eq!(rt; length, Ok(1000), "on {harts} harts");
    }
    assert_eq!(rt; length_on(&rt, rt.alloc(), 4, b""), Ok(0));
    Ok(())
}

#[test]
fn no_hart_is_an_error(rt: HostRuntime) -> Result<(), Fail> {
    assert_eq!(rt;
        length_on(&rt, rt.alloc(), 0, b"text"),
        Err(RunError::HartCount(0))
    );
    Ok(())
}
