//! Runs with at most eight levels.
ghost use Rattle.std.specs.Prelude.{◌≡◌, ◌<◌, ◌≤◌, ◌⊎◌, IfOk, IfErr, alloc_error, Err};
ghost use Rattle.task_table.specs.Slots.{Ends};
ghost use Rattle.task_crew.specs.Runs.{RunFails, AreSeated};

use crate::error::RunError;
use crate::run::{FourMore, MOST_HARTS, Run, ran, run_four_more};
use open_board::OpenBoard;
use std::alloc::Global;
use std::marker::Brand;
use std::sync::Wait;
use std::thread::Threads;
use task_sites::{Naming, NoLevel, Observer, Unobserved};
use task_table::Outcome;
use tasks::Task;

// The most levels of these runs.
const EIGHT: u8 = 8;

/// Runs a task as [`run_on`](crate::run_on) does, with at most eight levels of tasks inside it. `levels` is 0 to 8.
///
/// A program has a copy of the tasks' code for each level that a run may have. So with this call the program is smaller than with
/// `run_on`, and is built faster.
///
/// # Errors
///
/// As those of `run_on`, but `LevelCount` if there are more than eight levels.
///
/// # Memory
///
/// As that of [`run_observed`](crate::run_observed).
pub fn run_on_eight_levels<T: Task + Send, R: Threads + Wait + Sync>(
    rt: &R,
    alloc: Global,
    harts: u8,
    levels: u8,
    task: T,
) -> Result<T::Output, RunError<T::Error>>
where
    T::Output: Send,
    T::Error: Send,
    requires depth { T.depth task ≤ levels }
    requires ready { T.ready task }
    ensures output { IfOk result (λ output. T.gives task output) }
    ensures error { IfErr result
        (RunFails 8 harts levels (T.fails task) (T.Error.from_gives alloc_error)) }
    ensures harts { (harts ≡ 0) ⊎ (64 < harts) → result ≡ Err (RunError.HartCount harts) }
    ensures levels { (1 ≤ harts) → (harts ≤ 64) → (8 < levels) → result
        ≡ Err (RunError.LevelCount levels) }
{
    let unobserved = Unobserved::new(rt);
    run_observed_eight_levels::<T, Unobserved<'_, R>>(&unobserved, alloc, harts, levels, task)
}

/// Runs a task as [`run_on_eight_levels`] does, with an observer, as [`run_observed`](crate::run_observed).
///
/// # Errors
///
/// As those of [`run_on_eight_levels`].
///
/// # Memory
///
/// As that of [`run_observed`](crate::run_observed).
pub fn run_observed_eight_levels<T: Task + Send, R: Threads + Observer + Sync>(
    rt: &R,
    alloc: Global,
    harts: u8,
    levels: u8,
    task: T,
) -> Result<T::Output, RunError<T::Error>>
where
    T::Output: Send,
    T::Error: Send,
    requires depth { T.depth task ≤ levels }
    requires ready { T.ready task }
    ensures output { IfOk result (λ output. T.gives task output) }
    ensures error { IfErr result
        (RunFails 8 harts levels (T.fails task) (T.Error.from_gives alloc_error)) }
    ensures harts { (harts ≡ 0) ⊎ (64 < harts) → result ≡ Err (RunError.HartCount harts) }
    ensures levels { (1 ≤ harts) → (harts ≤ 64) → (8 < levels) → result
        ≡ Err (RunError.LevelCount levels) }
{
    if harts == 0 || harts > MOST_HARTS {
        return Err(RunError::HartCount(harts));
    }
    if levels > EIGHT {
        return Err(RunError::LevelCount(levels));
    }
    match OpenBoard::new(alloc, harts, levels.max(1)) {
        Ok((board, seats)) => ran(run_eight::<Brand, T, R>(
            rt,
            Run {
                alloc,
                board,
                seats,
                levels,
                task,
            },
        )),
        Err(error) => Err(RunError::Task(T::Error::from(error))),
    }
}

// Runs a task on the harts of a board, with at most eight levels, and ends the board.
fn run_eight<B, T, R>(rt: &R, run: Run<T>) -> Outcome<T>
where
    B: Naming + Send + Sync,
    T: Task + Send,
    R: Threads + Observer + Sync,
    T::Output: Send,
    T::Error: Send,
    requires seated { AreSeated B.table B.size run.board run.seats.items }
    requires depth { T.depth run.task ≤ run.levels }
    requires ready { T.ready run.task }
    requires levels { run.levels ≤ 8 }
    ensures { Ends T.gives T.fails (T.Error.from_gives alloc_error) run.task result }
{
    run_four_more::<B, T, R, FourMore<NoLevel>>(rt, run)
}
