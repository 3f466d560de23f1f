//! One site: the tasks of one call of `fork_join`, for all harts that come.
ghost use Rattle.std.specs.Prelude.{◌≡◌, ◌<◌, ◌≤◌, ◌⊎◌, ℕ, List, length, vec_len, vec_capacity, All, IfOk, IfErr, alloc_error};
ghost use Rattle.std.specs.List.{AllZip};
ghost use Rattle.task_sites.specs.Collected.{FirstError};

use crate::board::Naming;
use crate::collect::{collect_all, run_at};
use crate::countdown::Countdown;
use crate::hart::Hart;
use crate::observer::Observer;
use std::alloc::{AllocError, Global};
use std::marker::Model;
use std::sync::Wait;
use std::sync::atomic::{AtomicU64, Ordering};
use task_table::TaskTable;
use tasks::{Harts, Task, TaskKind};

/// The tasks of one call of `fork_join`. Contracts see the tasks, the number of levels of tasks that may be inside each, and the
/// number of harts that each may count on.
#[derive(Drop)]
pub struct Site<T: TaskKind> {
    table: TaskTable<T>,
    levels: u8,
    share: u8,
    // The index that is tried next.
    next: AtomicU64,
    // The least index of a task that is known to have failed, or the number of tasks.
    failed: AtomicU64,
    // The number of tasks that have still to end.
    left: Countdown,
}

impl<T: TaskKind> Model for Site<T> {
    ghost use Rattle.std.specs.Prelude.{◌≡◌, ◌<◌, ◌≤◌, ℕ, List, All, length};

    ghost Value = { List T × ℕ × ℕ };

    ghost view = { λ s. (s.table.table.shared.key.value.items, s.levels, s.share) };

    ghost invariant = { λ s. (0 < length s.table.table.shared.key.value.items)
        × All (λ task. T.depth task ≤ s.levels) s.table.table.shared.key.value.items };
}

impl<T: TaskKind> Site<T> {
    /// Makes a site of these tasks. `levels` is the number of levels of tasks that may be inside each, and `share` is the
    /// number of harts that each may count on.
    ///
    /// # Errors
    ///
    /// An allocation failure. The tasks are then dropped.
    ///
    /// # Memory
    ///
    /// A word and a slot for each task, in two blocks.
    pub fn new(alloc: Global, tasks: Vec<T>, levels: u8, share: u8) -> Result<Site<T>, AllocError>
        requires some { 0 < length tasks.items }
        requires shallow { All (λ task. T.depth task ≤ levels) tasks.items }
        requires ready { All T.ready tasks.items }
        ensures { IfOk result (λ site. site ≡ (tasks.items, levels, share)) }
    {
        let count = tasks.len() as u64;
        let table = TaskTable::new(alloc, tasks)?;
        Ok(Site {
            table,
            levels,
            share,
            next: AtomicU64::new(0),
            failed: AtomicU64::new(count),
            left: Countdown::new(count),
        })
    }

    /// The number of levels of tasks that may be inside each task.
    pub fn levels(&self) -> u8
        ensures { result ≡ self.now.1 }
    {
        self.levels
    }

    /// The number of harts that each task may count on.
    pub fn share(&self) -> u8
        ensures { result ≡ self.now.2 }
    {
        self.share
    }

    /// The number of tasks that have still to end.
    pub fn left(&self) -> &Countdown {
        &self.left
    }

    /// Runs tasks that no other hart has claimed on this hart, until there are none. It drops those behind a failed task.
    pub(crate) fn run_tasks<R: Observer, B: Naming, H: Harts<T>>(
        &self,
        alloc: Global,
        hart: &Hart<'_, T, R, B>,
        harts: &mut H,
    )
    where
        T: Task,
        requires { self.now.1 ≤ H.levels harts.old }
        ensures { H.levels harts.new ≡ H.levels harts.old }
    {
        let count = self.table.count();
        let mut ran = 0u64;
        'turns: for _turn in 0..count {
            let place = self.next.fetch_add(1, Ordering::SeqCst);
            if place >= count as u64 {
                break;
            }
            if run_at(
                &self.table,
                &self.failed,
                alloc,
                hart,
                harts,
                place as usize,
            ) {
                ran = ran.wrapping_add(1);
            }
        }
        self.left.take(ran);
    }

    /// Collects the outputs of the tasks in order, up to the first failure. They are appended to `outputs`, which is empty and has
    /// room for them. Spins for tasks that other harts run.
    ///
    /// # Errors
    ///
    /// The error of the first task, in the order of the list, that failed: one of its own, or an allocation that failed in it. The
    /// call itself doesn't allocate.
    pub fn outcomes<R: Wait>(
        &self,
        rt: &R,
        outputs: Vec<T::Output>,
    ) -> Result<Vec<T::Output>, T::Error>
        requires empty { vec_len outputs ≡ 0 }
        requires room { length self.now.0 ≤ vec_capacity outputs }
        ensures outputs { IfOk result (λ all. AllZip T.gives self.now.0 all.items) }
        ensures error { IfErr result
            (FirstError T.gives T.fails (T.Error.from_gives alloc_error) self.now.0) }
    {
        collect_all(rt, &self.table, outputs)
    }
}
