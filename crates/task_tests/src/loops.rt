//! Loops and reductions on one hart, and a loop that changes a slice on several threads.
ghost use Rattle.std.specs.Prelude.{◌≡◌, ◌+◌, ◌<◌};

use std::alloc::{AllocError, Global};
use std::sync::atomic::{AtomicU64, Ordering};
use std::test::Fail;
use task_loops::{
    Body, Change, Each, Map, Mapped, Part, Sum, for_each, for_each_mut, run_map, run_sum,
};
use tasks::{Ground, run_alone};

#[test]
fn a_sum_is_that_of_one_loop(rt: HostRuntime) -> Result<(), Fail> {
    let numbers = [3u64, 1, 4, 1, 5, 9, 2, 6, u64::MAX];
    for cuts in 0..5u8 {
        let part = Part::whole(Sum { numbers: &numbers }, cuts, 0);
        assert_eq!(rt; run_alone(rt.alloc(), part)?, 30);
    }
    let all = Sum { numbers: &numbers };
    let total = run_sum::<Part<Sum>, Ground>(rt.alloc(), &mut Ground, all, 0, 0)?;
    assert_eq!(rt; total, 30);
    Ok(())
}

/// Doubles a number.
#[derive(Clone, Copy)]
struct Twice;

impl Map<u8> for Twice {
    type Image = u16;

    ghost image = { λ _ number image. image ≡ number + number };

    fn image_of(&self, _alloc: Global, element: &u8) -> Result<u16, AllocError> {
        Ok(u16::from(*element) + u16::from(*element))
    }
}

#[test]
fn a_map_keeps_the_order(rt: HostRuntime) -> Result<(), Fail> {
    let elements = [3u8, 1, 255, 0, 7];
    let fold = Mapped {
        elements: elements.as_slice(),
        map: Twice,
    };
    for cuts in 0..4u8 {
        let part = Part::whole(fold, cuts, 2);
        let images = run_alone(rt.alloc(), part)?;
        assert_eq!(rt; images.as_slice(), [6u16, 2, 510, 0, 14].as_slice());
    }
    let images = run_map::<u8, Twice, Part<Mapped<u8, Twice>>, Ground>(
        rt.alloc(),
        &mut Ground,
        fold,
        0,
        0,
    )?;
    assert_eq!(rt; images.as_slice(), [6u16, 2, 510, 0, 14].as_slice());
    Ok(())
}

/// Adds an index to a total.
#[derive(Clone, Copy)]
struct Add<'p> {
    total: &'p AtomicU64,
}

impl<'p> Body for Add<'p> {
    ghost done = { λ _ _. Unit {0} };

    fn run_at(&self, index: usize) {
        self.total.fetch_add(index as u64, Ordering::SeqCst);
    }
}

#[test]
fn a_body_runs_once_at_each_index(rt: HostRuntime) -> Result<(), Fail> {
    let total = AtomicU64::new(0);
    let fold = Each {
        body: Add { total: &total },
        count: 101,
    };
    run_alone(rt.alloc(), Part::whole(fold, 4, 0))?;
    assert_eq!(rt; total.load(Ordering::SeqCst), 5050);
    let fold = Each {
        body: Add { total: &total },
        count: 11,
    };
    for_each::<Add, Part<Each<Add>>, Ground>(rt.alloc(), &mut Ground, fold, 0, 0)?;
    assert_eq!(rt; total.load(Ordering::SeqCst), 5105);
    Ok(())
}

/// Adds its index to each element.
#[derive(Drop)]
struct AddsIndex;

impl Change<usize> for AddsIndex {
    ghost becomes = { λ _ index before after. before < 1000 → index < 1000 → after ≡ before + index };

    fn change(&self, index: usize, element: &mut usize) {
        *element = (*element).wrapping_add(index);
    }
}

#[test]
fn each_element_is_changed_once(rt: HostRuntime) -> Result<(), Fail> {
    for threads in [1usize, 3, 100] {
        let mut elements = [10usize, 20, 30, 40, 50, 60, 70];
        for_each_mut(&rt, &mut elements, threads, &AddsIndex);
        assert_eq!(rt; elements, [10usize, 21, 32, 43, 54, 65, 76]);
    }
    Ok(())
}
