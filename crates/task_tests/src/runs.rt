//! Runs that are traced.
ghost use Rattle.std.specs.Prelude.{◌≤◌};

use crate::texts::{Seen, seen_of};
use crate::traced_trees::Tree;
use std::alloc::Global;
use std::sync::Wait;
use std::sync::atomic::AtomicU64;
use std::test::Fail;
use std::thread::Threads;
use std::time::Clock;
use task_crew::run_observed;
use task_trace::{Trace, TraceError, Traced, chrome_trace};

// The text of a run of a tree with so many levels, and the number of its tasks.
fn traced<R: Threads + Wait + Clock + Sync>(
    rt: &R,
    alloc: Global,
    harts: u8,
    levels: u8,
    wanted: u64,
) -> Result<(Option<u64>, String), TraceError> {
    let trace = Trace::new(rt, alloc, harts)?;
    let came = AtomicU64::new(0);
    let tree = Tree {
        levels,
        wanted,
        came: &came,
    };
    let handle = Traced::new(rt, Some(&trace));
    let count = run_observed(&handle, alloc, harts, levels, tree).ok();
    drop(handle);
    let events = trace.into_events(alloc)?;
    Ok((count, chrome_trace(alloc, events.as_slice())?))
}

// What a viewer reads of all harts.
fn seen_on_all(alloc: Global, text: &str, harts: u8) -> Result<Seen, serde_json::Error> {
    let mut all = seen_of(alloc, text, 0)?;
    for hart in 1..harts {
        let seen = seen_of(alloc, text, hart as u64)?;
        all = Seen {
            begun: all.begun.wrapping_add(seen.begun),
            ended: all.ended.wrapping_add(seen.ended),
            in_base: all.in_base.wrapping_add(seen.in_base),
            is_nested: all.is_nested && seen.is_nested,
        };
    }
    Ok(all)
}

// Whether a run on so many harts has this many tasks, each of them a pair of events.
fn is_whole<R: Threads + Wait + Clock + Sync>(
    rt: &R,
    alloc: Global,
    harts: u8,
    levels: u8,
    tasks: u64,
) -> bool {
    let Ok((count, text)) = traced(rt, alloc, harts, levels, 0) else {
        return false;
    };
    let Ok(seen) = seen_on_all(alloc, text.as_str(), harts) else {
        return false;
    };
    count == Some(tasks) && seen.begun == tasks && seen.ended == tasks && seen.is_nested
}

#[test]
fn each_task_is_a_nested_pair(rt: HostRuntime) -> Result<(), Fail> {
    for harts in [1u8, 2, 4, 16] {
        assert!(rt; is_whole(&rt, rt.alloc(), harts, 0, 1), "{harts} harts");
        assert!(rt; is_whole(&rt, rt.alloc(), harts, 1, 3), "{harts} harts");
        assert!(rt; is_whole(&rt, rt.alloc(), harts, 4, 31), "{harts} harts");
    }
    Ok(())
}

#[test]
fn ten_runs_on_four_harts_lose_no_task(rt: HostRuntime) -> Result<(), Fail> {
    for round in 0..10 {
        assert!(rt; is_whole(&rt, rt.alloc(), 4, 4, 31), "round {round}");
    }
    Ok(())
}

#[test]
fn one_hart_runs_all_tasks_in_the_base(rt: HostRuntime) -> Result<(), Fail> {
    match traced(&rt, rt.alloc(), 1, 3, 0) {
        Ok((count, text)) => {
            let seen = seen_of(rt.alloc(), text.as_str(), 0)?;
            let expected = Seen {
                begun: 15,
                ended: 15,
                in_base: 15,
                is_nested: true,
            };
            assert_eq!(rt; seen, expected);
            assert_eq!(rt; count, Some(15));
        }
        Err(error) => assert!(rt; false, "{error:?}"),
    }
    Ok(())
}

#[test]
fn two_harts_that_meet_are_both_in_the_trace(rt: HostRuntime) -> Result<(), Fail> {
    match traced(&rt, rt.alloc(), 2, 1, 2) {
        Ok((_count, text)) => {
            let home = seen_of(rt.alloc(), text.as_str(), 0)?;
            let guest = seen_of(rt.alloc(), text.as_str(), 1)?;
            assert_eq!(rt; (home.begun, home.in_base, home.is_nested), (2, 1, true));
            assert_eq!(rt; (guest.begun, guest.in_base, guest.is_nested), (1, 0, true));
        }
        Err(error) => assert!(rt; false, "{error:?}"),
    }
    Ok(())
}
