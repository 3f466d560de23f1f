//! A table of three tasks, by two seats of one hart.
ghost use Rattle.std.specs.Prelude.{◌≡◌, ◌<◌, length};

use std::alloc::AllocError;
use std::test::Fail;
use task_table::{TaskSeat, TaskTable};
use tasks::TaskKind;

/// A task that outputs twice its number.
#[derive(Drop)]
struct Twice(u32);

impl TaskKind for Twice {
    type Output = u64;

    type Error = AllocError;

    ghost gives = { λ _ _. Unit {0} };

    ghost fails = { λ _ _. Unit {0} };

    ghost depth = { λ _. 0 };
}

// Runs the task at an index. Returns whether the seat got it.
fn run_at(table: &TaskTable<Twice>, seat: &mut TaskSeat<Twice>, place: usize) -> bool
    requires of { seat.old.table_id ≡ table.now.table.shared.table_id }
    requires knows { seat.old.me.0.tasks ≡ table.now.table.shared.key }
    requires place { place < length table.now.table.shared.key.value.items }
    ensures of { seat.new.table_id ≡ seat.old.table_id }
    ensures knows { seat.new.me.0.tasks ≡ seat.old.me.0.tasks }
{
    let Some(task) = table.claim(seat, place) else {
        return false;
    };
    table.give(seat, place, Ok(task.0 as u64 * 2));
    true
}

// Collects the output of the task at an index, if there is one.
fn output_at(table: &TaskTable<Twice>, seat: &mut TaskSeat<Twice>, place: usize) -> Option<u64>
    requires of { seat.old.table_id ≡ table.now.table.shared.table_id }
    requires knows { seat.old.me.0.tasks ≡ table.now.table.shared.key }
    requires place { place < length table.now.table.shared.key.value.items }
    ensures of { seat.new.table_id ≡ seat.old.table_id }
    ensures knows { seat.new.me.0.tasks ≡ seat.old.me.0.tasks }
{
    match table.collect(seat, place) {
        Some(Ok(output)) => Some(output),
        _ => None,
    }
}

#[test]
fn each_outcome_comes_back_in_its_slot(rt: HostRuntime) -> Result<(), Fail> {
    let mut tasks = Vec::with_capacity(rt.alloc(), 3)?;
    for number in [5u32, 7, 9] {
        tasks.push(Twice(number))?;
    }
    let table = TaskTable::new(rt.alloc(), tasks)?;
    assert_eq!(rt; table.count(), 3);
    let mut helper = table.seat();
    let mut home = table.seat();
    assert_eq!(rt; output_at(&table, &mut home, 2), None);
    assert!(rt; run_at(&table, &mut helper, 2));
    assert!(rt; run_at(&table, &mut home, 0));
    assert!(rt; run_at(&table, &mut helper, 1));
    assert_eq!(rt; output_at(&table, &mut home, 0), Some(10));
    assert_eq!(rt; output_at(&table, &mut home, 1), Some(14));
    assert_eq!(rt; output_at(&table, &mut home, 2), Some(18));
    Ok(())
}

#[test]
fn a_task_is_claimed_once_and_collected_once(rt: HostRuntime) -> Result<(), Fail> {
    let mut tasks = Vec::new(rt.alloc());
    tasks.push(Twice(21))?;
    let table = TaskTable::new(rt.alloc(), tasks)?;
    assert_eq!(rt; table.count(), 1);
    let mut first = table.seat();
    let mut second = table.seat();
    assert!(rt; run_at(&table, &mut first, 0));
    assert!(rt; !run_at(&table, &mut second, 0));
    assert_eq!(rt; output_at(&table, &mut second, 0), Some(42));
    assert_eq!(rt; output_at(&table, &mut first, 0), None);
    Ok(())
}
