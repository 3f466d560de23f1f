//! The first number of a slice that passes a test.
ghost use Rattle.std.specs.Prelude.{◌==◌, ◌%◌};

use crate::gates::Gate;
use std::alloc::{AllocError, Global};
use std::sync::Wait;
use std::sync::atomic::{AtomicU64, Ordering};
use std::test::Fail;
use std::thread::Threads;
use task_crew::{RunError, run_on_eight_levels};
use task_find::{Find, FindTask, Found, Predicate, find_first};
use task_loops::Part;
use tasks::Ground;

/// The multiples of seven. It counts the numbers that it tests.
#[derive(Drop)]
struct Sevens {
    tested: AtomicU64,
}

impl Predicate<u64> for Sevens {
    ghost passes = { λ _ number. number % 7 == 0 };

    fn passes(&self, element: &u64) -> bool {
        self.tested.fetch_add(1, Ordering::SeqCst);
        *element % 7 == 0
    }
}

// The index of the first multiple of seven, by a search that isn't cut.
fn first_of(alloc: Global, numbers: &[u64], sevens: &Sevens) -> Result<Option<usize>, AllocError> {
    let find = Find {
        elements: numbers,
        predicate: sevens,
    };
    find_first::<u64, Sevens, Part<Find<u64, Sevens>>, Ground>(alloc, &mut Ground, find, 0, 0)
}

#[test]
fn no_number_behind_the_first_is_tested(rt: HostRuntime) -> Result<(), Fail> {
    let sevens = Sevens {
        tested: AtomicU64::new(0),
    };
    let numbers = [3u64, 1, 4, 14, 5, 9, 21];
    assert_eq!(rt; first_of(rt.alloc(), &numbers, &sevens)?, Some(3));
    assert_eq!(rt; sevens.tested.load(Ordering::SeqCst), 4);
    assert_eq!(rt; first_of(rt.alloc(), &numbers[4..6], &sevens)?, None);
    assert_eq!(rt; first_of(rt.alloc(), &[], &sevens)?, None);
    assert_eq!(rt; sevens.tested.load(Ordering::SeqCst), 6);
    Ok(())
}

// The index of the first multiple of seven, by a search on so many harts that is cut so many times.
fn first_on<R: Threads + Wait + Sync>(
    rt: &R,
    alloc: Global,
    harts: u8,
    cuts: u8,
    numbers: &[u64],
    sevens: &Sevens,
) -> Result<Option<usize>, RunError<Found>> {
    let find = Find {
        elements: numbers,
        predicate: sevens,
    };
    let whole = FindTask::Whole {
        find,
        cuts,
        shortest: 0,
    };
    run_on_eight_levels(rt, alloc, harts, cuts, whole)
}

#[test]
fn the_first_is_found_on_any_harts(rt: HostRuntime) -> Result<(), Fail> {
    let sevens = Sevens {
        tested: AtomicU64::new(0),
    };
    let numbers = [3u64, 1, 4, 14, 5, 9, 21];
    for harts in [1u8, 2, 4] {
        for cuts in [0u8, 1, 3, 8] {
            let first = first_on(&rt, rt.alloc(), harts, cuts, &numbers, &sevens);
            assert_eq!(rt; first, Ok(Some(3)));
            let none = first_on(&rt, rt.alloc(), harts, cuts, &numbers[4..6], &sevens);
            assert_eq!(rt; none, Ok(None));
        }
    }
    Ok(())
}

// How many of 256 numbers a search tests that is cut into ranges of one number each, and whose first number is a multiple of seven.
fn tested_of<R: Threads + Wait + Sync>(
    rt: &R,
    alloc: Global,
    harts: u8,
) -> Result<u64, RunError<Found>> {
    let sevens = Sevens {
        tested: AtomicU64::new(0),
    };
    let mut numbers = [1u64; 256];
    numbers[0] = 7;
    let _first = first_on(rt, alloc, harts, 8, &numbers, &sevens)?;
    Ok(sevens.tested.load(Ordering::SeqCst))
}

// Why the least of 100 rounds: a range may begin on the other hart before the first number has been tested.
#[test]
fn ranges_behind_the_first_do_not_begin(rt: HostRuntime) -> Result<(), Fail> {
    assert_eq!(rt; tested_of(&rt, rt.alloc(), 1), Ok(1));
    let mut least = 256u64;
    for _round in 0..100 {
        let tested = tested_of(&rt, rt.alloc(), 2).unwrap_or(256);
        least = least.min(tested);
    }
    assert!(rt; least < 256);
    Ok(())
}

/// The multiples of seven. Each number waits for the others at a gate.
#[derive(Drop)]
struct MeetingSevens<'p> {
    gate: &'p Gate,
}

impl<'p> Predicate<u64> for MeetingSevens<'p> {
    ghost passes = { λ _ number. number % 7 == 0 };

    fn passes(&self, element: &u64) -> bool {
        self.gate.pass();
        *element % 7 == 0
    }
}

#[test]
fn two_ranges_of_a_search_meet_on_two_harts(rt: HostRuntime) -> Result<(), Fail> {
    for _round in 0..100 {
        let gate = Gate::new(2);
        let predicate = MeetingSevens { gate: &gate };
        let find = Find {
            elements: &[8u64, 14],
            predicate: &predicate,
        };
        let whole = FindTask::Whole {
            find,
            cuts: 1,
            shortest: 0,
        };
        let first = run_on_eight_levels(&rt, rt.alloc(), 2, 1, whole);
        assert_eq!(rt; first, Ok(Some(1)));
        assert!(rt; !gate.has_run_out());
        assert_eq!(rt; gate.count(), 2);
    }
    Ok(())
}
