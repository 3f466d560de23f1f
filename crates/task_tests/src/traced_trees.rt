//! Tasks that are counted, and of which two may meet.
ghost use Rattle.std.specs.Prelude.{◌≡◌, ◌<◌, ◌-◌, IfOk};
ghost use Rattle.std.specs.List.{All};

use crossbeam_utils::Backoff;
use std::alloc::{AllocError, Global};
use std::sync::atomic::{AtomicU64, Ordering};
use tasks::{Harts, Task, TaskKind};

/// The greatest number of looks of a leaf.
const LOOKS: u32 = 20_000_000;

/// A task with so many levels of tasks inside it, each of two tasks. Its output is the number of tasks. A leaf waits until so
/// many leaves have come.
#[derive(Drop)]
pub struct Tree<'p> {
    pub levels: u8,
    pub wanted: u64,
    pub came: &'p AtomicU64,
}

impl<'p> TaskKind for Tree<'p> {
    type Output = u64;

    type Error = AllocError;

    ghost gives = { λ _ _. Unit {0} };

    ghost fails = { λ _ _. Unit {0} };

    ghost depth = { λ task. task.levels };
}

impl<'p> Task for Tree<'p> {
    fn run<H: Harts<Self>>(self, alloc: Global, harts: &mut H) -> Result<u64, AllocError> {
        if self.levels == 0 {
            wait(self.wanted, self.came);
            return Ok(1);
        }
        let counts = harts.fork_join(alloc, branches_of(alloc, &self)?)?;
        Ok(
            counts
                .iter()
                .fold(1u64, |sum, part| sum.wrapping_add(*part)),
        )
    }
}

// The two tasks inside a task.
fn branches_of<'p>(alloc: Global, tree: &Tree<'p>) -> Result<Vec<Tree<'p>>, AllocError>
    requires { 0 < tree.now.levels }
    ensures { IfOk result (λ made. All (λ branch. branch.levels < tree.now.levels) made.items) }
{
    let mut branches = Vec::with_capacity(alloc, 2)?;
    branches.push(branch_of(tree))?;
    branches.push(branch_of(tree))?;
    Ok(branches)
}

// A task inside a task.
fn branch_of<'p>(tree: &Tree<'p>) -> Tree<'p>
    requires { 0 < tree.now.levels }
    ensures { result.levels ≡ tree.now.levels - 1 }
{
    Tree {
        levels: tree.levels - 1,
        wanted: tree.wanted,
        came: tree.came,
    }
}

// Waits until so many leaves have come, for a bounded number of looks.
fn wait(wanted: u64, came: &AtomicU64) {
    came.fetch_add(1, Ordering::SeqCst);
    let backoff = Backoff::new();
    for _look in 0..LOOKS {
        if came.load(Ordering::SeqCst) >= wanted {
            return;
        }
        backoff.snooze();
    }
}
