//! The libraries fork as often as their cuts say, and two harts are inside the leaves of one library at once.
ghost use Rattle.std.specs.Prelude.{◌≡◌, ◌≤◌, ◌==◌, ◌%◌};

use crate::gates::Gate;
use crate::searches::{Sevens, doubles};
use open_board::NotEnded;
use std::alloc::{AllocError, Global};
use std::sync::Wait;
use std::sync::atomic::{AtomicU64, Ordering};
use std::test::Fail;
use std::thread::Threads;
use task_crew::{run_observed_eight_levels, run_on_eight_levels};
use task_loops::{Map, Mapped, Part, Sum};
use task_matrix::Times;
use task_nested::{Rows, Work};
use task_search::{Search, Wanted};
use task_sites::Observer;
use task_sort::Sort;
use tasks::Task;

/// A handle that counts the tasks that begin, over another handle. It counts a thousand more if the board refuses to end.
#[derive(Drop)]
struct Counting<'r, R> {
    rt: &'r R,
    begun: &'r AtomicU64,
}

impl<R: Wait> Wait for Counting<'_, R> {}

impl<R: Threads> Threads for Counting<'_, R> {}

impl<R: Wait> Observer for Counting<'_, R> {
    fn is_on(&self) -> bool {
        true
    }

    fn task_begins(&self, _hart: u8, _site: u16) {
        self.begun.fetch_add(1, Ordering::SeqCst);
    }

    fn task_ends(&self, _hart: u8) {}

    fn harts_stay(&self, _why: NotEnded) {
        self.begun.fetch_add(1000, Ordering::SeqCst);
    }
}

// The number of tasks of a run on so many harts. 0 if the run has no output.
fn tasks_of<T: Task + Send, R: Threads + Wait + Sync>(
    rt: &R,
    alloc: Global,
    harts: u8,
    levels: u8,
    task: T,
) -> u64
where
    T::Output: Send,
    T::Error: Send,
    requires depth { T.depth task ≤ levels }
    requires ready { T.ready task }
{
    let begun = AtomicU64::new(0);
    let handle = Counting { rt, begun: &begun };
    match run_observed_eight_levels(&handle, alloc, harts, levels, task) {
        Ok(_) => begun.load(Ordering::SeqCst),
        Err(_) => 0,
    }
}

#[test]
fn a_fold_of_eight_indices_has_a_task_for_each_cut(rt: HostRuntime) -> Result<(), Fail> {
    let numbers = [1u64, 2, 3, 4, 5, 6, 7, 8];
    for harts in [1u8, 2, 4] {
        for (cuts, tasks) in [(0u8, 1u64), (1, 3), (2, 7), (3, 15), (4, 15)] {
            let whole = Part::whole(Sum { numbers: &numbers }, cuts, 0);
            assert_eq!(rt; tasks_of(&rt, rt.alloc(), harts, cuts, whole), tasks);
        }
        let whole = Part::whole(Sum { numbers: &numbers }, 3, 3);
        assert_eq!(rt; tasks_of(&rt, rt.alloc(), harts, 3, whole), 7);
    }
    Ok(())
}

#[test]
fn a_sort_has_two_tasks_for_each_cut(rt: HostRuntime) -> Result<(), Fail> {
    for (cuts, tasks) in [(0u8, 1u64), (1, 3), (2, 7)] {
        let items = vec![in rt.alloc(); 1u64, 2, 3, 4, 5, 6, 7, 8, 9, 10, 11, 12, 13, 14, 15]?;
        let sort = Sort {
            items,
            cuts,
            shortest: 0,
        };
        assert_eq!(rt; tasks_of(&rt, rt.alloc(), 4, cuts, sort), tasks);
    }
    Ok(())
}

// Why 3 tasks: one cut leaves no element before the pivot or after it.
#[test]
fn equal_elements_are_cut_once(rt: HostRuntime) -> Result<(), Fail> {
    let sort = Sort {
        items: Vec::from_elem(rt.alloc(), 5u64, 1000)?,
        cuts: 8,
        shortest: 0,
    };
    assert_eq!(rt; tasks_of(&rt, rt.alloc(), 4, 8, sort), 3);
    Ok(())
}

// Why 5 tasks: a cut around the lower key leaves the others, which are cut once more; one around the higher leaves the lower ones.
#[test]
fn two_keys_are_cut_twice(rt: HostRuntime) -> Result<(), Fail> {
    let mut items = Vec::from_elem(rt.alloc(), 5u64, 500)?;
    let mut others = Vec::from_elem(rt.alloc(), 3u64, 500)?;
    items.append(&mut others)?;
    let sort = Sort {
        items,
        cuts: 8,
        shortest: 0,
    };
    assert_eq!(rt; tasks_of(&rt, rt.alloc(), 4, 8, sort), 5);
    Ok(())
}

#[test]
fn a_product_of_eight_rows_has_a_task_for_each_cut(rt: HostRuntime) -> Result<(), Fail> {
    let mut rows = Vec::with_capacity(rt.alloc(), 8)?;
    for number in 1..9u64 {
        rows.push(vec![in rt.alloc(); number, 1]?)?;
    }
    let columns = [vec![in rt.alloc(); 1u64, 2]?];
    for (cuts, tasks) in [(0u8, 1u64), (1, 3), (2, 7), (3, 15)] {
        let factors = Mapped {
            elements: rows.as_slice(),
            map: Times { columns: &columns },
        };
        let product = Part::whole(factors, cuts, 0);
        assert_eq!(rt; tasks_of(&rt, rt.alloc(), 4, cuts, product), tasks);
    }
    Ok(())
}

// The number of tasks of a table that is cut once, and whose rows are cut so many times.
fn tasks_of_table<R: Threads + Wait + Sync>(
    rt: &R,
    alloc: Global,
    table: &[Vec<u64>],
    cuts: u8,
) -> u64
    requires { cuts ≤ 15 }
{
    let rows = Rows {
        rows: table,
        cuts,
        shortest: 0,
    };
    let work = Work::Table(Part::whole(rows, 1, 0));
    tasks_of(rt, alloc, 4, 1 + cuts, work)
}

// Why 11: the table and its two halves are 3 tasks, and in each row the sort and the sum are cut once.
#[test]
fn libraries_inside_one_another_all_fork(rt: HostRuntime) -> Result<(), Fail> {
    let table = [
        vec![in rt.alloc(); 3u64, 1, 4, 1]?,
        vec![in rt.alloc(); 5u64, 9, 2, 6]?,
    ];
    assert_eq!(rt; tasks_of_table(&rt, rt.alloc(), &table, 0), 3);
    assert_eq!(rt; tasks_of_table(&rt, rt.alloc(), &table, 1), 11);
    Ok(())
}

// Why 7 and not 13: no number above the third level is a multiple of seven.
#[test]
fn a_search_has_a_task_for_each_tree(rt: HostRuntime) -> Result<(), Fail> {
    let tree = doubles(rt.alloc(), 1, 6)?;
    for (levels, tasks) in [(0u8, 1u64), (1, 3), (2, 7)] {
        let search = Search {
            tree: &tree,
            wanted: &Sevens,
            levels,
        };
        assert_eq!(rt; tasks_of(&rt, rt.alloc(), 4, levels, search), tasks);
    }
    Ok(())
}

/// Waits for the others at a gate.
#[derive(Clone, Copy)]
struct Meets<'p> {
    gate: &'p Gate,
}

impl<'p> Map<u8> for Meets<'p> {
    type Image = u8;

    ghost image = { λ _ number image. image ≡ number };

    fn image_of(&self, _alloc: Global, element: &u8) -> Result<u8, AllocError> {
        self.gate.pass();
        Ok(*element)
    }
}

#[test]
fn two_leaves_of_a_loop_meet_on_two_harts(rt: HostRuntime) -> Result<(), Fail> {
    for _round in 0..100 {
        let gate = Gate::new(2);
        let fold = Mapped {
            elements: b"ab",
            map: Meets { gate: &gate },
        };
        let images = run_on_eight_levels(&rt, rt.alloc(), 2, 1, Part::whole(fold, 1, 0)).ok();
        assert!(rt; images.is_some());
        assert!(rt; !gate.has_run_out());
        assert_eq!(rt; gate.count(), 2);
    }
    Ok(())
}

/// The multiples of seven. Each number above 1 waits for the others at a gate.
#[derive(Drop)]
struct MeetingSevens<'p> {
    gate: &'p Gate,
}

impl<'p> Wanted<u64> for MeetingSevens<'p> {
    ghost wants = { λ _ value. value % 7 == 0 };

    fn wants(&self, value: &u64) -> bool {
        if *value > 1 {
            self.gate.pass();
        }
        *value % 7 == 0
    }
}

#[test]
fn two_leaves_of_a_search_meet_on_two_harts(rt: HostRuntime) -> Result<(), Fail> {
    let tree = doubles(rt.alloc(), 1, 1)?;
    for _round in 0..100 {
        let gate = Gate::new(2);
        let wanted = MeetingSevens { gate: &gate };
        let search = Search {
            tree: &tree,
            wanted: &wanted,
            levels: 1,
        };
        assert_eq!(rt;
            run_on_eight_levels(&rt, rt.alloc(), 2, 1, search),
            Ok(None)
        );
        assert!(rt; !gate.has_run_out());
        assert_eq!(rt; gate.count(), 2);
    }
    Ok(())
}
