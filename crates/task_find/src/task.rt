//! The search as a task.
ghost use Rattle.std.specs.Prelude.{◌≡◌, ℕ, List, refl};
ghost use Rattle.task_find.specs.Failing.{FailsRange};
ghost use Rattle.task_find.specs.Kinds.{gives_of, fails_of, depth_of};
ghost use Rattle.task_find.specs.declared.find.Found.TheVariants.{OutOfMemory};
ghost use Rattle.task_find.specs.declared.task.FindTask.TheVariants.{Range};

use crate::find::{Find, Found, Predicate, find_first};
use held_tasks::Holds;
use std::alloc::Global;
use task_loops::{Indices, Part, run_fold};
use tasks::{Harts, Task, TaskKind};

/// A search, or a range of one, as a task.
///
/// Why a kind of its own: the kit's borrow checker doesn't cover `run_on` of a [`Part`] whose fold has an error type of its own.
/// Why generic over the fold: a type that names a `Part` of `Find` can't be stated, since only a generic `impl` gives its indices.
#[derive(Drop)]
pub enum FindTask<F: Indices> {
    /// The search of a slice. It outputs the index of the first element that passes, or `None` if none passes, and it fails only
    /// by [`Found::OutOfMemory`].
    Whole {
        /// The slice and the test.
        find: F,
        /// The slice is cut into at most 2^cuts ranges.
        cuts: u8,
        /// One hart searches a range that has fewer elements.
        shortest: usize,
    },
    /// A range of a search. It outputs `None`, or fails by [`Found::At`].
    Range(Part<F>),
}

impl<'p, A, P: Predicate<A>> TaskKind for FindTask<Find<'p, A, P>> {
    type Output = Option<usize>;

    type Error = Found;

    ghost gives = { gives_of P.passes };

    ghost fails = { fails_of P.passes };

    ghost depth = { depth_of };
}

impl<'p, A, P: Predicate<A>> Holds<Part<Find<'p, A, P>>> for FindTask<Find<'p, A, P>> {
    ghost held = { λ task. Range task };

    ghost same_depth = { λ _. refl };

    ghost same_outcome = { λ _ _ given. (tt {0}, given.1) };

    fn hold(task: Part<Find<'p, A, P>>) -> FindTask<Find<'p, A, P>>
        ensures { result ≡ Range task.entry }
    {
        FindTask::Range(task)
    }

    fn output_of(_output: Option<usize>) -> Option<()> {
        Some(())
    }

    fn error_of(error: Found) -> Found
        ensures own { (elements : List A) (predicate : P) (low high : ℕ)
            → FailsRange (P.passes predicate) elements low high error
            → FailsRange (P.passes predicate) elements low high result }
        ensures memory { error ≡ OutOfMemory → result ≡ OutOfMemory }
    {
        error
    }
}

impl<'p, A, P: Predicate<A>> Task for FindTask<Find<'p, A, P>> {
    fn run<H: Harts<Self>>(self, alloc: Global, harts: &mut H) -> Result<Option<usize>, Found> {
        match self {
            FindTask::Whole {
                find,
                cuts,
                shortest,
            } => {
                let found = find_first::<A, P, FindTask<Find<'p, A, P>>, H>(
                    alloc, harts, find, cuts, shortest,
                )?;
                Ok(found)
            }
            FindTask::Range(part) => {
                run_fold::<Find<'p, A, P>, FindTask<Find<'p, A, P>>, H>(alloc, harts, part)?;
                Ok(None)
            }
        }
    }
}
