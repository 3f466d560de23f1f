//! Tasks that fail while others run.
ghost use Rattle.std.specs.Prelude.{◌≡◌, ◌<◌, ◌≤◌, IfOk, false};
ghost use Rattle.std.specs.List.{All};

use std::alloc::{AllocError, Global};
use std::sync::Wait;
use std::sync::atomic::{AtomicU64, Ordering};
use std::test::Fail;
use std::thread::Threads;
use task_crew::{RunError, run_on_eight_levels};
use tasks::{Harts, Task, TaskKind};

/// Why a count has no output.
#[derive(Debug, Drop, PartialEq)]
enum CountError {
    Number(u8),
    OutOfMemory,
}

impl From<AllocError> for CountError {
    ghost use Rattle.std.specs.Prelude.{◌≡◌};
    ghost use Rattle.task_tests.specs.declared.failing.CountError.TheVariants.{OutOfMemory};

    ghost from_gives = { λ _ error. error ≡ OutOfMemory };

    fn from(_error: AllocError) -> CountError {
        CountError::OutOfMemory
    }
}

/// A number, or a task that runs tasks of the numbers 0 to 7. The numbers 3 and 5 fail. Each number counts itself once it has
/// ended.
#[derive(Drop)]
struct Count<'p> {
    leads: bool,
    number: u8,
    ended: &'p AtomicU64,
}

impl<'p> TaskKind for Count<'p> {
    type Output = u8;

    type Error = CountError;

    ghost use Rattle.std.specs.Prelude.{if◌then◌else◌};

    ghost gives = { λ _ _. Unit {0} };

    ghost fails = { λ _ _. Unit {0} };

    ghost depth = { λ task. if task.leads then 1 else 0 };
}

impl<'p> Task for Count<'p> {
    fn run<H: Harts<Self>>(self, alloc: Global, harts: &mut H) -> Result<u8, CountError> {
        if self.leads {
            let _numbers = harts.fork_join(alloc, numbers_of(alloc, self.ended)?)?;
            return Ok(self.number);
        }
        self.ended.fetch_add(1, Ordering::SeqCst);
        if self.number == 3 || self.number == 5 {
            return Err(CountError::Number(self.number));
        }
        Ok(self.number)
    }
}

// The numbers 0 to 7.
fn numbers_of<'p>(alloc: Global, ended: &'p AtomicU64) -> Result<Vec<Count<'p>>, AllocError>
    ensures { IfOk result (λ made. All (λ count. count.leads ≡ false) made.items) }
{
    let mut numbers = Vec::with_capacity(alloc, 8)?;
    'numbers: for number in 0..8u8 {
        numbers.push(Count {
            leads: false,
            number,
            ended,
        })?;
    }
    Ok(numbers)
}

// The error of a run on so many harts with so many levels, and how many numbers had ended.
fn failure<R: Threads + Wait + Sync>(
    rt: &R,
    alloc: Global,
    harts: u8,
    levels: u8,
) -> (Option<RunError<CountError>>, u64)
    requires { 1 ≤ levels }
{
    let ended = AtomicU64::new(0);
    let task = Count {
        leads: true,
        number: 0,
        ended: &ended,
    };
    let why = run_on_eight_levels(rt, alloc, harts, levels, task).err();
    (why, ended.load(Ordering::SeqCst))
}

#[test]
fn the_first_failed_task_decides_on_four_harts(rt: HostRuntime) -> Result<(), Fail> {
    for _round in 0..200 {
        let (why, ended) = failure(&rt, rt.alloc(), 4, 1);
        assert_eq!(rt; why, Some(RunError::Task(CountError::Number(3))));
        // The numbers up to the first that fails, and those behind it that had begun by then.
        assert!(rt; ended >= 4 && ended <= 8, "{ended} numbers");
    }
    Ok(())
}

#[test]
fn the_first_failed_task_decides_on_one_hart(rt: HostRuntime) -> Result<(), Fail> {
    let (why, ended) = failure(&rt, rt.alloc(), 1, 1);
    assert_eq!(rt; why, Some(RunError::Task(CountError::Number(3))));
    assert_eq!(rt; ended, 4);
    Ok(())
}

#[test]
fn wrong_numbers_start_nothing(rt: HostRuntime) -> Result<(), Fail> {
    assert_eq!(rt;
        failure(&rt, rt.alloc(), 0, 1),
        (Some(RunError::HartCount(0)), 0)
    );
    assert_eq!(rt;
        failure(&rt, rt.alloc(), 65, 1),
        (Some(RunError::HartCount(65)), 0)
    );
    assert_eq!(rt;
        failure(&rt, rt.alloc(), 0, 9),
        (Some(RunError::HartCount(0)), 0)
    );
    assert_eq!(rt;
        failure(&rt, rt.alloc(), 1, 9),
        (Some(RunError::LevelCount(9)), 0)
    );
    assert_eq!(rt;
        failure(&rt, rt.alloc(), 4, 9),
        (Some(RunError::LevelCount(9)), 0)
    );
    Ok(())
}
