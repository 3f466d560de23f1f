//! Tasks inside tasks, whose leaves come to a gate.
ghost use Rattle.std.specs.Prelude.{◌≡◌, ◌<◌, ◌≤◌, ◌-◌, IfOk};
ghost use Rattle.std.specs.List.{All};

use crate::gates::Gate;
use std::alloc::{AllocError, Global};
use std::sync::Wait;
use std::test::Fail;
use std::thread::Threads;
use task_crew::{RunError, run_on, run_on_eight_levels};
use tasks::{Harts, Task, TaskKind};

/// A task with so many levels of tasks inside it, each of so many tasks. Its output is the number of its leaves. Each leaf
/// passes the gate, but for those of tasks that are quiet, of which each level has one if the tree is lopsided.
#[derive(Drop)]
pub struct Tree<'p> {
    levels: u8,
    width: u8,
    lopsided: bool,
    quiet: bool,
    gate: &'p Gate,
}

impl<'p> TaskKind for Tree<'p> {
    type Output = u64;

    type Error = AllocError;

    ghost gives = { λ _ _. Unit {0} };

    ghost fails = { λ _ _. Unit {0} };

    ghost depth = { λ task. task.levels };
}

impl<'p> Task for Tree<'p> {
    fn run<H: Harts<Self>>(self, alloc: Global, harts: &mut H) -> Result<u64, AllocError> {
        if self.levels == 0 {
            if !self.quiet {
                self.gate.pass();
            }
            return Ok(1);
        }
        let leaves = harts.fork_join(alloc, branches_of(alloc, &self)?)?;
        Ok(
            leaves
                .iter()
                .fold(0u64, |sum, part| sum.wrapping_add(*part)),
        )
    }
}

// The tasks inside a task. If the tree is lopsided, only the first has tasks inside it until the last level.
fn branches_of<'p>(alloc: Global, tree: &Tree<'p>) -> Result<Vec<Tree<'p>>, AllocError>
    requires { 0 < tree.now.levels }
    ensures { IfOk result (λ made. All (λ branch. branch.levels < tree.now.levels) made.items) }
{
    let mut branches = Vec::with_capacity(alloc, tree.width as usize)?;
    'branches: for place in 0..tree.width {
        let quiet = tree.lopsided && tree.levels > 1 && place > 0;
        branches.push(Tree {
            levels: if quiet { 0 } else { tree.levels - 1 },
            width: tree.width,
            lopsided: tree.lopsided,
            quiet: tree.quiet || quiet,
            gate: tree.gate,
        })?;
    }
    Ok(branches)
}

// The number of leaves of a tree that runs on so many harts. `None` if the run has no output, or the gate's looks ran out.
fn leaves<R: Threads + Wait + Sync>(
    rt: &R,
    alloc: Global,
    harts: u8,
    tree: (u8, u8, bool),
    wanted: u64,
) -> Option<u64> {
    let gate = Gate::new(wanted);
    let (levels, width, lopsided) = tree;
    let task = Tree {
        levels,
        width,
        lopsided,
        quiet: false,
        gate: &gate,
    };
    let leaves = run_on(rt, alloc, harts, levels, task).ok()?;
    if gate.has_run_out() || gate.count() < wanted {
        return None;
    }
    Some(leaves)
}

#[test]
fn two_tasks_meet_on_two_harts(rt: HostRuntime) -> Result<(), Fail> {
    assert_eq!(rt; leaves(&rt, rt.alloc(), 2, (1, 2, false), 2), Some(2));
    Ok(())
}

// The number of rounds of a test.
const ROUNDS: u32 = 200;

// Whether a tree has this many leaves in each of 200 runs on so many harts.
fn meet_each_time<R: Threads + Wait + Sync>(
    rt: &R,
    alloc: Global,
    harts: u8,
    tree: (u8, u8, bool),
    wanted: u64,
    expected: u64,
) -> bool {
    for _round in 0..ROUNDS {
        if leaves(rt, alloc, harts, tree, wanted) != Some(expected) {
            return false;
        }
    }
    true
}

#[test]
fn siblings_two_levels_deep_meet_on_two_harts(rt: HostRuntime) -> Result<(), Fail> {
    assert!(rt; meet_each_time(&rt, rt.alloc(), 2, (2, 2, true), 2, 3));
    Ok(())
}

#[test]
fn siblings_three_levels_deep_meet_on_two_harts(rt: HostRuntime) -> Result<(), Fail> {
    assert!(rt; meet_each_time(&rt, rt.alloc(), 2, (3, 2, true), 2, 4));
    Ok(())
}

#[test]
fn siblings_two_levels_deep_meet_on_four_harts(rt: HostRuntime) -> Result<(), Fail> {
    assert!(rt; meet_each_time(&rt, rt.alloc(), 4, (2, 2, false), 4, 4));
    Ok(())
}

#[test]
fn siblings_three_levels_deep_meet_on_four_harts(rt: HostRuntime) -> Result<(), Fail> {
    assert!(rt; meet_each_time(&rt, rt.alloc(), 4, (3, 2, true), 2, 4));
    Ok(())
}

#[test]
fn siblings_two_levels_deep_meet_on_sixteen_harts(rt: HostRuntime) -> Result<(), Fail> {
    assert!(rt; meet_each_time(&rt, rt.alloc(), 16, (2, 4, false), 16, 16));
    Ok(())
}

#[test]
fn siblings_three_levels_deep_meet_on_sixteen_harts(rt: HostRuntime) -> Result<(), Fail> {
    assert!(rt; meet_each_time(&rt, rt.alloc(), 16, (3, 2, false), 8, 8));
    Ok(())
}

#[test]
fn tasks_of_one_site_meet(rt: HostRuntime) -> Result<(), Fail> {
    assert_eq!(rt; leaves(&rt, rt.alloc(), 4, (1, 4, false), 4), Some(4));
    assert_eq!(rt; leaves(&rt, rt.alloc(), 16, (1, 16, false), 16), Some(16));
    Ok(())
}

#[test]
fn sixty_four_tasks_meet_on_sixty_four_harts(rt: HostRuntime) -> Result<(), Fail> {
    assert_eq!(rt; leaves(&rt, rt.alloc(), 64, (2, 8, false), 64), Some(64));
    Ok(())
}

#[test]
fn one_hart_runs_all(rt: HostRuntime) -> Result<(), Fail> {
    assert_eq!(rt; leaves(&rt, rt.alloc(), 1, (5, 3, false), 1), Some(243));
    assert_eq!(rt; leaves(&rt, rt.alloc(), 1, (0, 0, false), 1), Some(1));
    Ok(())
}

#[test]
fn deep_trees_have_all_leaves(rt: HostRuntime) -> Result<(), Fail> {
    assert_eq!(rt; leaves(&rt, rt.alloc(), 3, (10, 2, false), 1), Some(1024));
    assert_eq!(rt; leaves(&rt, rt.alloc(), 7, (5, 3, false), 1), Some(243));
    assert_eq!(rt; leaves(&rt, rt.alloc(), 4, (16, 1, false), 1), Some(1));
    assert_eq!(rt; leaves(&rt, rt.alloc(), 4, (1, 0, false), 0), Some(0));
    Ok(())
}

// The number of leaves of a tree with so many levels, by the run that has at most eight.
fn leaves_within_eight<R: Threads + Wait + Sync>(
    rt: &R,
    alloc: Global,
    harts: u8,
    levels: u8,
) -> Result<u64, RunError<AllocError>> {
    let gate = Gate::new(1);
    let task = Tree {
        levels,
        width: 2,
        lopsided: false,
        quiet: false,
        gate: &gate,
    };
    run_on_eight_levels(rt, alloc, harts, levels, task)
}

// The number of leaves of a tree with so many levels and one branch in each, by the run that has at most sixteen.
fn leaves_within_sixteen<R: Threads + Wait + Sync>(
    rt: &R,
    alloc: Global,
    harts: u8,
    levels: u8,
) -> Result<u64, RunError<AllocError>> {
    let gate = Gate::new(1);
    let task = Tree {
        levels,
        width: 1,
        lopsided: false,
        quiet: false,
        gate: &gate,
    };
    run_on(rt, alloc, harts, levels, task)
}

#[test]
fn sixteen_levels_run_and_a_seventeenth_is_refused(rt: HostRuntime) -> Result<(), Fail> {
    for harts in [1u8, 4] {
        assert_eq!(rt; leaves_within_sixteen(&rt, rt.alloc(), harts, 16), Ok(1));
        assert_eq!(rt;
            leaves_within_sixteen(&rt, rt.alloc(), harts, 17),
            Err(RunError::LevelCount(17))
        );
    }
    assert_eq!(rt;
        leaves_within_sixteen(&rt, rt.alloc(), 0, 17),
        Err(RunError::HartCount(0))
    );
    assert_eq!(rt;
        leaves_within_sixteen(&rt, rt.alloc(), 65, 16),
        Err(RunError::HartCount(65))
    );
    Ok(())
}

#[test]
fn eight_levels_run_and_a_ninth_is_refused(rt: HostRuntime) -> Result<(), Fail> {
    for harts in [1u8, 2, 4] {
        assert_eq!(rt; leaves_within_eight(&rt, rt.alloc(), harts, 8), Ok(256));
        assert_eq!(rt; leaves_within_eight(&rt, rt.alloc(), harts, 0), Ok(1));
        assert_eq!(rt;
            leaves_within_eight(&rt, rt.alloc(), harts, 9),
            Err(RunError::LevelCount(9))
        );
    }
    assert_eq!(rt;
        leaves_within_eight(&rt, rt.alloc(), 0, 9),
        Err(RunError::HartCount(0))
    );
    assert_eq!(rt;
        leaves_within_eight(&rt, rt.alloc(), 65, 8),
        Err(RunError::HartCount(65))
    );
    Ok(())
}
