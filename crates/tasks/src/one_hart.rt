//! One hart, which runs tasks in order.
ghost use Rattle.std.specs.Prelude.{◌≡◌, ◌≤◌, ◌<◌, ◌+◌, ◌⊎◌, ℕ, [], All, IsOk, IfOk, IfErr, alloc_error};
ghost use Rattle.std.specs.List.{AllZip};
ghost use Rattle.tasks.specs.Failures.{FirstFailure};

use crate::task::{Harts, Task, TaskKind};
use std::alloc::{AllocError, Global};

/// A hart that has no level left: no task may be inside the task that it runs.
#[derive(Drop)]
pub struct Ground;

/// A hart with one level of tasks more than `H`.
#[derive(Drop)]
pub struct Level<H>(H);

/// Four levels more than `H`.
pub type Four<H> = Level<Level<Level<Level<H>>>>;

/// A hart with sixteen levels.
pub type Levels16 = Four<Four<Four<Four<Ground>>>>;

impl<T: TaskKind> Harts<T> for Ground {
    ghost levels = { λ _. 0 };

    // Why no task runs here: no task has a depth below 0, so the list is empty.
    fn fork_join(&mut self, alloc: Global, tasks: Vec<T>) -> Result<Vec<T::Output>, T::Error>
        requires depth { All (λ task. T.depth task < 0) tasks.items }
        requires ready { All T.ready tasks.items }
        ensures outputs { IfOk result (λ outputs. AllZip T.gives tasks.items outputs.items) }
        ensures error { IfErr result (λ error. FirstFailure T.gives T.fails tasks.items error
            ⊎ T.Error.from_gives alloc_error error) }
        ensures ok { IsOk result }
    {
        drop(tasks);
        Ok(Vec::new(alloc))
    }
}

impl<T: Task, H: Harts<T>> Harts<T> for Level<H> {
    ghost levels = { λ harts. H.levels harts.0 + 1 };

    fn fork_join(&mut self, alloc: Global, tasks: Vec<T>) -> Result<Vec<T::Output>, T::Error>
        requires depth { All (λ task. T.depth task < H.levels self.old.0 + 1) tasks.items }
        requires ready { All T.ready tasks.items }
        ensures outputs { IfOk result (λ outputs. AllZip T.gives tasks.items outputs.items) }
        ensures error { IfErr result (λ error. FirstFailure T.gives T.fails tasks.items error
            ⊎ T.Error.from_gives alloc_error error) }
        ensures no_tasks { tasks.items ≡ [] → IsOk result }
        ensures levels { H.levels self.new.0 ≡ H.levels self.old.0 }
    {
        in_order(alloc, &mut self.0, tasks)
    }
}

/// Runs tasks on this hart, in order, up to the first that fails.
///
/// # Errors
///
/// The error of the first task that failed, or an allocation failure. None if the list is empty.
///
/// # Memory
///
/// One list, of the outputs.
pub fn in_order<T: Task, H: Harts<T>>(
    alloc: Global,
    harts: &mut H,
    tasks: Vec<T>,
) -> Result<Vec<T::Output>, T::Error>
    requires depth { All (λ task. T.depth task ≤ H.levels harts.old) tasks.items }
    requires ready { All T.ready tasks.items }
    ensures outputs { IfOk result (λ outputs. AllZip T.gives tasks.items outputs.items) }
    ensures error { IfErr result (λ error. FirstFailure T.gives T.fails tasks.items error
        ⊎ T.Error.from_gives alloc_error error) }
    ensures no_tasks { tasks.items ≡ [] → IsOk result }
    ensures levels { H.levels harts.new ≡ H.levels harts.old }
{
    let mut outputs = Vec::with_capacity(alloc, tasks.len())?;
    let mut rest = tasks.into_iter();
    'tasks: while let Some(task) = rest.next() {
        outputs.push_reserved(task.run(alloc, harts)?);
    }
    Ok(outputs)
}

/// Runs a task on one hart with sixteen levels.
///
/// # Errors
///
/// An error of the task's own, or an allocation failure.
///
/// # Memory
///
/// What the task allocates, and a list of outputs for each `fork_join`.
pub fn run_alone<T: Task>(alloc: Global, task: T) -> Result<T::Output, T::Error>
    requires depth { T.depth task ≤ 16 }
    requires ready { T.ready task }
    ensures output { IfOk result (λ output. T.gives task output) }
    ensures error { IfErr result
        (λ error. T.fails task error ⊎ T.Error.from_gives alloc_error error) }
{
    let four = Level(Level(Level(Level(Ground))));
    let eight = Level(Level(Level(Level(four))));
    let twelve = Level(Level(Level(Level(eight))));
    let mut harts: Levels16 = Level(Level(Level(Level(twelve))));
    task.run(alloc, &mut harts)
}
