//! Two tasks of different kinds at once.
ghost use Rattle.std.specs.Prelude.{◌≡◌, ◌<◌, ◌⊎◌, IfOk, IfErr, alloc_error};
ghost use Rattle.held_tasks.specs.Two.{FailsOfTwo};

use crate::holds::Holds;
use std::alloc::{AllocError, Global};
use tasks::{Harts, TaskKind};

/// Runs two tasks of different kinds on harts for tasks that hold both kinds, and returns both outputs.
///
/// # Errors
///
/// The error of the first task; or, if that has an output, the error of the second; or an allocation failure. The error is of the
/// kind that holds, since the two kinds may fail by errors of different types.
///
/// # Memory
///
/// One list of two tasks beside what `fork_join` allocates.
pub fn join_two<A: TaskKind, B: TaskKind, V: Holds<A> + Holds<B>, H: Harts<V>>(
    alloc: Global,
    harts: &mut H,
    first: A,
    second: B,
) -> Result<(A::Output, B::Output), V::Error>
    requires first { A.depth first < H.levels harts.old }
    requires second { B.depth second < H.levels harts.old }
    requires first_ready { A.ready first }
    requires second_ready { B.ready second }
    ensures outputs { IfOk result
        (λ outputs. A.gives first outputs.0 × B.gives second outputs.1) }
    ensures error { IfErr result (λ error. FailsOfTwo V.gives V.fails (⟦<V as Holds<A>>⟧.held first)
        (⟦<V as Holds<B>>⟧.held second) error
        ⊎ V.Error.from_gives alloc_error error) }
    ensures levels { H.levels harts.new ≡ H.levels harts.old }
{
    let mut tasks = Vec::with_capacity(alloc, 2)?;
    tasks.push_reserved(<V as Holds<A>>::hold(first));
    tasks.push_reserved(<V as Holds<B>>::hold(second));
    let mut outputs = harts.fork_join(alloc, tasks)?;
    let Some(back) = outputs.pop() else {
        unreachable!()
    };
    let Some(front) = outputs.pop() else {
        unreachable!()
    };
    let Some(back) = <V as Holds<B>>::output_of(back) else {
        unreachable!()
    };
    let Some(front) = <V as Holds<A>>::output_of(front) else {
        unreachable!()
    };
    Ok((front, back))
}
