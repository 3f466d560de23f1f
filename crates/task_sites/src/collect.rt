//! How tasks of a table are run, and how their outcomes are collected.
ghost use Rattle.std.specs.Prelude.{◌≡◌, ◌<◌, ◌≤◌, ◌+◌, ◌⊎◌, ℕ, length, vec_len, vec_capacity, All, IfOk, IfErr, alloc_error};
ghost use Rattle.std.specs.List.{AllZip};
ghost use mathlib.Core.Option.{some};
ghost use lib.ListN.{get_elem?};
ghost use Rattle.task_table.specs.Slots.{Ends};
ghost use Rattle.task_sites.specs.Collected.{FirstError};

use crate::board::Naming;
use crate::hart::Hart;
use crate::observer::Observer;
use std::alloc::Global;
use std::sync::Wait;
use std::sync::atomic::{AtomicU64, Ordering};
use std::thread;
use task_table::{Outcome, TaskSeat, TaskTable};
use tasks::{Harts, Task, TaskKind};

// Runs the task at an index on a hart, unless a hart has claimed it. It drops a task behind one that is known to have failed: no
// outcome behind the first failure is collected. Returns whether it claimed the task.
pub(crate) fn run_at<T: Task, R: Observer, B: Naming, H: Harts<T>>(
    table: &TaskTable<T>,
    failed: &AtomicU64,
    alloc: Global,
    hart: &Hart<'_, T, R, B>,
    harts: &mut H,
    place: usize,
) -> bool
    requires place { place < length table.now.table.shared.key.value.items }
    requires shallow { All (λ task. T.depth task ≤ H.levels harts.old)
        table.now.table.shared.key.value.items }
    ensures { H.levels harts.new ≡ H.levels harts.old }
{
    let mut seat = table.seat();
    let Some(task) = table.claim(&mut seat, place) else {
        return false;
    };
    if failed.load(Ordering::SeqCst) < place as u64 {
        drop(task);
        return true;
    }
    let outcome = hart.run_observed(alloc, harts, task);
    if outcome.is_err() {
        failed.fetch_min(place as u64, Ordering::SeqCst);
    }
    table.give(&mut seat, place, outcome);
    true
}

// Collects the outcomes of the tasks in order, up to the first failure. Spins for tasks that other harts run.
pub(crate) fn collect_all<T: TaskKind, R: Wait>(
    rt: &R,
    table: &TaskTable<T>,
    mut outputs: Vec<T::Output>,
) -> Result<Vec<T::Output>, T::Error>
    requires some { 0 < length table.now.table.shared.key.value.items }
    requires empty { vec_len outputs ≡ 0 }
    requires room { length table.now.table.shared.key.value.items ≤ vec_capacity outputs }
    ensures outputs { IfOk result (λ all. AllZip T.gives table.now.table.shared.key.value.items
        all.items) }
    ensures error { IfErr result
        (FirstError T.gives T.fails (T.Error.from_gives alloc_error) table.now.table.shared.key.value.items) }
{
    let count = table.count();
    let mut seat = table.seat();
    let mut place = 0;
    'places: while place < count {
        match wait_for(rt, table, &mut seat, place) {
            Ok(output) => outputs.push_reserved(output),
            Err(error) => return Err(error),
        }
        place += 1;
    }
    Ok(outputs)
}

// The outcome of the task at an index. Spins until the hart that runs the task has stored it.
fn wait_for<T: TaskKind, R: Wait>(
    rt: &R,
    table: &TaskTable<T>,
    seat: &mut TaskSeat<T>,
    place: usize,
) -> Outcome<T>
    requires of { seat.old.table_id ≡ table.now.table.shared.table_id }
    requires knows { seat.old.me.0.tasks ≡ table.now.table.shared.key }
    requires place { place < length table.now.table.shared.key.value.items }
    ensures of { seat.new.table_id ≡ seat.old.table_id }
    ensures knows { seat.new.me.0.tasks ≡ seat.old.me.0.tasks }
    ensures outcome { (task : T) → get_elem? table.now.table.shared.key.value.items place ≡ some task
        → Ends T.gives T.fails (T.Error.from_gives alloc_error) task result }
{
    'tries: for _ in rt.forever() {
        if let Some(outcome) = table.collect(seat, place) {
            return outcome;
        }
        thread::yield_now();
    }
    unreachable!()
}
