//! What an author writes, and what the author calls.
ghost use Rattle.std.specs.Prelude.{◌≡◌, ◌≤◌, ◌<◌, ◌⊎◌, ℕ, [], All, IsOk, IfOk, IfErr, alloc_error};
ghost use Rattle.std.specs.List.{AllZip};
ghost use Rattle.tasks.specs.Failures.{FirstFailure};

use std::alloc::{AllocError, Global};

/// The outputs and the errors of tasks of a kind.
pub trait TaskKind: Drop {
    /// The output of a task. It may borrow what the task borrows.
    type Output: Drop;

    /// Why a task fails. An allocation failure becomes such an error by `From`: `Error.from_gives alloc_error error` states that
    /// `error` is this error. Tasks that have no error of their own have `AllocError` here, and `⊥` for `fails`.
    type Error: Drop + From<AllocError>;

    /// The outputs that a task may have, on any hart. What a reference in a task points to is `task.field.now`.
    ghost gives: { Self → Self.Output → Type 0 };

    /// The errors that a task may fail with, beside an allocation failure.
    ghost fails: { Self → Self.Error → Type 0 };

    /// How many levels of tasks may be inside a task: 0 if it runs no tasks, and otherwise more than the depth of each task that
    /// it runs. Mostly a field of the task, by which `run` decides whether it runs tasks.
    ghost depth: { Self → ℕ };

    /// What a task requires to be run. By default nothing. A task that calls a closure requires what the closure requires.
    ghost ready: { Self → Type 0 } = { λ _. Unit {0} };
}

/// How a task runs.
///
/// Why a trait of its own: a library's procedure needs to know the outputs of tasks, and not how the tasks around it run. So
/// [`Harts`] requires only a [`TaskKind`], and the procedure runs inside tasks of any kind.
pub trait Task: TaskKind {
    /// Runs the task on a hart. The task may run tasks inside it by `harts`. An `impl` without clauses has these.
    ///
    /// # Errors
    ///
    /// An error of the task's own, or an allocation failure.
    fn run<H: Harts<Self>>(self, alloc: Global, harts: &mut H) -> Result<Self::Output, Self::Error>
        requires depth { Self.depth self ≤ H.levels harts.old }
        requires ready { Self.ready self }
        ensures output { IfOk result (λ output. Self.gives self output) }
        ensures error { IfErr result
            (λ error. Self.fails self error ⊎ Self.Error.from_gives alloc_error error) }
        ensures levels { H.levels harts.new ≡ H.levels harts.old };
}

/// The harts that a task runs on.
pub trait Harts<T: TaskKind> {
    /// How many levels of tasks may be inside the task that runs.
    ghost levels: { Self → ℕ };

    /// Runs tasks, each on some hart, and returns their outputs in order. It returns once all tasks have ended.
    ///
    /// A function that makes the list ensures that each depth is small enough, by `All`. Its caller then needs no proof of what
    /// this call requires. A proof about the outputs goes down both lists of `AllZip`, or takes one index (`AllZip-get_or` of the
    /// kit's `List.Elements`).
    ///
    /// # Errors
    ///
    /// The error of the first task, in the order of the list, that failed, or an allocation failure. None if the list is empty.
    /// The tasks behind a failed one that have not begun are dropped; those that run already, on several harts, run to their end.
    ///
    /// # Memory
    ///
    /// A list of the outputs, and on several harts a table of the tasks.
    fn fork_join(&mut self, alloc: Global, tasks: Vec<T>) -> Result<Vec<T::Output>, T::Error>
        requires depth { All (λ task. T.depth task < levels self.old) tasks.items }
        requires ready { All T.ready tasks.items }
        ensures outputs { IfOk result (λ outputs. AllZip T.gives tasks.items outputs.items) }
        ensures error { IfErr result (λ error. FirstFailure T.gives T.fails tasks.items error
            ⊎ T.Error.from_gives alloc_error error) }
        ensures no_tasks { tasks.items ≡ [] → IsOk result }
        ensures levels { levels self.new ≡ levels self.old };
}
