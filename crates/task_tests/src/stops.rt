//! Tasks behind one that has failed, which have not begun: they don't run.
//!
//! Two harts, and a task of two tasks: a holder, and a leader that runs the numbers 0 to 7, of which 3 fails. The leader begins
//! once the holder has begun on the other hart, and the holder ends once the numbers have. So one hart alone runs the numbers.
ghost use Rattle.std.specs.Prelude.{◌≡◌, ◌<◌, IfOk};
ghost use Rattle.std.specs.List.{All};

use crate::gates::Gate;
use std::alloc::{AllocError, Global};
use std::sync::atomic::{AtomicU64, Ordering};
use std::test::Fail;
use task_crew::{RunError, run_on_eight_levels};
use tasks::{Harts, Task, TaskKind};

/// The number of the holder.
const HOLDER: u8 = 8;

/// What the tasks share.
#[derive(Drop)]
struct Shared {
    /// The leader and the holder have begun.
    begun: Gate,
    /// The numbers have ended.
    ended: Gate,
    /// How many numbers began.
    numbers: AtomicU64,
}

/// With two levels the first task, with one the leader, with none a number or the holder.
#[derive(Drop)]
struct Stop<'p> {
    levels: u8,
    number: u8,
    shared: &'p Shared,
}

impl<'p> TaskKind for Stop<'p> {
    type Output = u8;

    type Error = AllocError;

    ghost gives = { λ _ _. Unit {0} };

    ghost fails = { λ _ _. ⊥ };

    ghost depth = { λ task. task.levels };
}

impl<'p> Task for Stop<'p> {
    fn run<H: Harts<Self>>(self, alloc: Global, harts: &mut H) -> Result<u8, AllocError> {
        if self.levels == 0 {
            return run_number(&self);
        }
        if self.levels == 1 {
            self.shared.begun.pass();
            let outcome = harts.fork_join(alloc, tasks_of(alloc, &self, 0, HOLDER)?);
            self.shared.ended.pass();
            let _numbers = outcome?;
            return Ok(self.number);
        }
        let _both = harts.fork_join(alloc, tasks_of(alloc, &self, HOLDER - 1, HOLDER + 1)?)?;
        Ok(self.number)
    }
}

// Runs a number, or the holder.
fn run_number(task: &Stop<'_>) -> Result<u8, AllocError> {
    if task.number == HOLDER {
        task.shared.begun.pass();
        task.shared.ended.pass();
        return Ok(task.number);
    }
    task.shared.numbers.fetch_add(1, Ordering::SeqCst);
    if task.number == 3 {
        return Err(AllocError);
    }
    Ok(task.number)
}

// The tasks inside a task, with these numbers. The holder has no tasks inside it.
fn tasks_of<'p>(
    alloc: Global,
    task: &Stop<'p>,
    first: u8,
    end: u8,
) -> Result<Vec<Stop<'p>>, AllocError>
    requires { 0 < task.now.levels }
    ensures { IfOk result (λ made. All (λ inner. inner.levels < task.now.levels) made.items) }
{
    let mut tasks = Vec::new(alloc);
    'numbers: for number in first..end {
        tasks.push(Stop {
            levels: if number == HOLDER { 0 } else { task.levels - 1 },
            number,
            shared: task.shared,
        })?;
    }
    Ok(tasks)
}

#[test]
fn tasks_behind_a_failed_one_do_not_begin(rt: HostRuntime) -> Result<(), Fail> {
    for _round in 0..100 {
        let shared = Shared {
            begun: Gate::new(2),
            ended: Gate::new(2),
            numbers: AtomicU64::new(0),
        };
        let task = Stop {
            levels: 2,
            number: 0,
            shared: &shared,
        };
        let outcome = run_on_eight_levels(&rt, rt.alloc(), 2, 2, task);
        assert_eq!(rt; outcome, Err(RunError::Task(AllocError)));
        assert_eq!(rt; shared.numbers.load(Ordering::SeqCst), 4);
        assert!(rt; !shared.begun.has_run_out());
        assert!(rt; !shared.ended.has_run_out());
    }
    Ok(())
}
