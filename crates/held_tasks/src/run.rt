//! Tasks of one kind on the harts of another.
ghost use Rattle.std.specs.Prelude.{◌≡◌, ◌<◌, ◌⊎◌, List, [], All, map, IsOk, IfOk, IfErr, alloc_error};
ghost use Rattle.std.specs.List.{AllZip};
ghost use Rattle.held_tasks.specs.Two.{FailsOfTwo};
ghost use Rattle.tasks.specs.Failures.{FirstFailure};

use crate::holds::Holds;
use std::alloc::{AllocError, Global};
use tasks::{Harts, TaskKind};

/// Runs tasks of the kind `T` on harts for tasks that hold them, and returns their outputs in order.
///
/// # Errors
///
/// The error of the first task, in the order of the list, that failed, or an allocation failure. None if the list is empty.
///
/// # Memory
///
/// Two lists beside what `fork_join` allocates: of the tasks that hold, and of the outputs.
pub fn fork_join_as<T: TaskKind, V: Holds<T>, H: Harts<V>>(
    alloc: Global,
    harts: &mut H,
    tasks: Vec<T>,
) -> Result<Vec<T::Output>, T::Error>
    requires depth { All (λ task. T.depth task < H.levels harts.old) tasks.items }
    requires ready { All T.ready tasks.items }
    ensures outputs { IfOk result (λ outputs. AllZip T.gives tasks.items outputs.items) }
    ensures error { IfErr result (λ error. FirstFailure T.gives T.fails tasks.items error
        ⊎ T.Error.from_gives alloc_error error) }
    ensures no_tasks { tasks.items ≡ [] → IsOk result }
    ensures levels { H.levels harts.new ≡ H.levels harts.old }
{
    let held = hold_all::<T, V>(alloc, tasks)?;
    match harts.fork_join(alloc, held) {
        Ok(outputs) => {
            let own = own_outputs::<T, V>(alloc, outputs)?;
            Ok(own)
        }
        Err(error) => Err(V::error_of(error)),
    }
}

/// Runs two tasks of the kind `T` on harts for tasks that hold them, and returns both outputs.
///
/// # Errors
///
/// The error of the first task; or, if that has an output, the error of the second; or an allocation failure.
///
/// # Memory
///
/// One list of two tasks beside what [`fork_join_as`] allocates.
pub fn join_as<T: TaskKind, V: Holds<T>, H: Harts<V>>(
    alloc: Global,
    harts: &mut H,
    first: T,
    second: T,
) -> Result<(T::Output, T::Output), T::Error>
    requires first { T.depth first < H.levels harts.old }
    requires second { T.depth second < H.levels harts.old }
    requires first_ready { T.ready first }
    requires second_ready { T.ready second }
    ensures outputs { IfOk result
        (λ outputs. T.gives first outputs.0 × T.gives second outputs.1) }
    ensures error { IfErr result (λ error. FailsOfTwo T.gives T.fails first second error
        ⊎ T.Error.from_gives alloc_error error) }
    ensures levels { H.levels harts.new ≡ H.levels harts.old }
{
    let mut tasks = Vec::with_capacity(alloc, 2)?;
    tasks.push_reserved(first);
    tasks.push_reserved(second);
    let mut outputs = fork_join_as::<T, V, H>(alloc, harts, tasks)?;
    let Some(back) = outputs.pop() else {
        unreachable!()
    };
    let Some(front) = outputs.pop() else {
        unreachable!()
    };
    Ok((front, back))
}

// Each task, as a task of the other kind.
fn hold_all<T: TaskKind, V: Holds<T>>(alloc: Global, tasks: Vec<T>) -> Result<Vec<V>, AllocError>
    requires { All T.ready tasks.items }
    ensures held { IfOk result (λ held. held.items ≡ map V.held tasks.items) }
    ensures ready { IfOk result (λ held. All V.ready held.items) }
    ensures no_tasks { tasks.items ≡ [] → IsOk result }
{
    let mut held = Vec::with_capacity(alloc, tasks.len())?;
    let mut rest = tasks.into_iter();
    'tasks: while let Some(task) = rest.next() {
        held.push(V::hold(task))?;
    }
    Ok(held)
}

// The own outputs of tasks that were held.
fn own_outputs<T: TaskKind, V: Holds<T>>(
    alloc: Global,
    outputs: Vec<V::Output>,
) -> Result<Vec<T::Output>, AllocError>
    requires { (tasks : List T) × AllZip (λ task output. V.gives (V.held task) output)
        tasks outputs.items }
    ensures own { IfOk result (λ own. (tasks : List T) → AllZip (λ task output. V.gives (V.held task) output)
        tasks outputs.items → AllZip T.gives tasks own.items) }
    ensures no_outputs { outputs.items ≡ [] → IsOk result }
{
    let mut own = Vec::with_capacity(alloc, outputs.len())?;
    let mut rest = outputs.into_iter();
    'outputs: while let Some(output) = rest.next() {
        let Some(output) = V::output_of(output) else {
            unreachable!()
        };
        own.push(output)?;
    }
    Ok(own)
}
