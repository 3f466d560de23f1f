//! Pairs of empty tasks, by which the time of one `fork_join` is measured.
ghost use Rattle.std.specs.Prelude.{◌≡◌, ◌≤◌, min, IfOk};
ghost use Rattle.std.specs.List.{All};

use std::alloc::{AllocError, Global};
use tasks::{Harts, Task, TaskKind};

/// A task that runs `calls` pairs of empty tasks, one pair after the other. Its output is the number of tasks that have ended.
#[derive(Drop)]
pub struct Pairs {
    /// The number of calls of `fork_join`. With 0 the task is empty.
    pub calls: u32,
}

impl TaskKind for Pairs {
    type Output = u64;

    type Error = AllocError;

    ghost gives = { λ _ _. Unit {0} };

    ghost fails = { λ _ _. Unit {0} };

    ghost depth = { λ task. min 1 task.calls };
}

impl Task for Pairs {
    fn run<H: Harts<Self>>(self, alloc: Global, harts: &mut H) -> Result<u64, AllocError> {
        if self.calls == 0 {
            return Ok(1);
        }
        join_pairs::<H>(alloc, harts, self.calls)
    }
}

// Runs so many pairs of empty tasks, and returns the number of tasks that have ended.
fn join_pairs<H: Harts<Pairs>>(alloc: Global, harts: &mut H, calls: u32) -> Result<u64, AllocError>
    requires { 1 ≤ H.levels harts.old }
    ensures { H.levels harts.new ≡ H.levels harts.old }
{
    let mut ended = 0u64;
    'calls: for _call in 0..calls {
        let counts = harts.fork_join(alloc, pair(alloc)?)?;
        ended = ended.wrapping_add(counts.len() as u64);
    }
    Ok(ended)
}

// Two empty tasks.
fn pair(alloc: Global) -> Result<Vec<Pairs>, AllocError>
    ensures { IfOk result (λ tasks. All (λ task. task.calls ≡ 0) tasks.items) }
{
    let mut tasks = Vec::with_capacity(alloc, 2)?;
    tasks.push(Pairs { calls: 0 })?;
    tasks.push(Pairs { calls: 0 })?;
    Ok(tasks)
}
