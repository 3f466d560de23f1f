//! Results by hand on 1, 2 and 4 harts, calls that run at once, and numbers of harts that are out of range.
use crate::{for_each_on, greatest_and_length, join_on, map_on, squares_of};
use crossbeam_utils::Backoff;
use std::sync::atomic::{AtomicU64, Ordering};
use std::test::Fail;
use task_crew::RunError;

/// The greatest number of looks of a call at a gate.
const LOOKS: u32 = 20_000_000;

/// A gate that holds each call until two have come, for a bounded number of looks.
#[derive(Drop)]
struct Gate {
    came: AtomicU64,
}

impl Gate {
    fn new() -> Gate {
        Gate {
            came: AtomicU64::new(0),
        }
    }

    // Comes to the gate and is held there. Returns whether two have come.
    fn pass(&self) -> bool {
        self.came.fetch_add(1, Ordering::SeqCst);
        let backoff = Backoff::new();
        for _look in 0..LOOKS {
            if self.came.load(Ordering::SeqCst) >= 2 {
                return true;
            }
            backoff.snooze();
        }
        false
    }
}

#[test]
fn both_results_come_in_order(rt: HostRuntime) -> Result<(), Fail> {
    for harts in [1u8, 2, 4] {
        let both = join_on(&rt, rt.alloc(), harts, || 7u8, || b"text".len());
        assert_eq!(rt; both, Ok((7, 4)), "on {harts} harts");
        let both = greatest_and_length(&rt, rt.alloc(), harts, &[3, 9, 2]);
        assert_eq!(rt; both, Ok((Some(9), 3)), "on {harts} harts");
    }
    Ok(())
}

#[test]
fn two_closures_run_at_once(rt: HostRuntime) -> Result<(), Fail> {
    for harts in [2u8, 4] {
        for _round in 0..50 {
            let gate = Gate::new();
            let both = join_on(&rt, rt.alloc(), harts, || gate.pass(), || gate.pass());
            assert_eq!(rt; both, Ok((true, true)), "on {harts} harts");
        }
    }
    Ok(())
}

#[test]
fn images_come_in_the_order_of_the_elements(rt: HostRuntime) -> Result<(), Fail> {
    let numbers = [1u32, 2, 3, 4, 5, 6, 7, 8, 9, 10, 11];
    for harts in [1u8, 2, 4] {
        let squares = squares_of(&rt, rt.alloc(), harts, &numbers);
        let wanted = vec![in rt.alloc(); 1u64, 4, 9, 16, 25, 36, 49, 64, 81, 100, 121]?;
        assert_eq!(rt; squares, Ok(wanted), "on {harts} harts");
        let none = squares_of(&rt, rt.alloc(), harts, &[]);
        assert_eq!(rt; none, Ok(Vec::new(rt.alloc())), "on {harts} harts");
    }
    Ok(())
}

#[test]
fn two_elements_are_mapped_at_once(rt: HostRuntime) -> Result<(), Fail> {
    for _round in 0..50 {
        let gate = Gate::new();
        let came = map_on(&rt, rt.alloc(), 2, &[1u8, 2], |_: &u8| gate.pass());
        assert_eq!(rt; came, Ok(vec![in rt.alloc(); true, true]?));
    }
    Ok(())
}

#[test]
fn each_index_of_a_range_is_done(rt: HostRuntime) -> Result<(), Fail> {
    for harts in [1u8, 2, 4] {
        for (low, high, wanted) in [(0usize, 10usize, 45u64), (3, 7, 18), (7, 7, 0), (7, 3, 0)] {
            let total = AtomicU64::new(0);
            let done = for_each_on(&rt, rt.alloc(), harts, low..high, |index: usize| {
                total.fetch_add(index as u64, Ordering::SeqCst);
            });
            assert_eq!(rt; done, Ok(()), "on {harts} harts");
            assert_eq!(rt; total.load(Ordering::SeqCst), wanted, "on {harts} harts");
        }
    }
    Ok(())
}

#[test]
fn a_number_of_harts_out_of_range_is_an_error(rt: HostRuntime) -> Result<(), Fail> {
    for harts in [0u8, 65] {
        let both = join_on(&rt, rt.alloc(), harts, || 1u8, || 2u8);
        assert_eq!(rt; both, Err(RunError::HartCount(harts)));
        let squares = squares_of(&rt, rt.alloc(), harts, &[1]);
        assert_eq!(rt; squares, Err(RunError::HartCount(harts)));
        let done = for_each_on(&rt, rt.alloc(), harts, 0..1, |_: usize| {});
        assert_eq!(rt; done, Err(RunError::HartCount(harts)));
    }
    Ok(())
}
