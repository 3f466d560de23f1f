//! Traces that lack an event.
ghost use Rattle.std.specs.Prelude.{◌≤◌};

use crate::traced_trees::Tree;
use std::io;
use std::io::{Error, ErrorKind};
use std::sync::Wait;
use std::sync::atomic::{AtomicU64, Ordering};
use std::test::Fail;
use std::thread::Threads;
use std::time::{Clock, Duration};
use task_crew::run_observed_eight_levels;
use task_sites::Observer;
use task_trace::{Trace, TraceError, Traced};

// A clock that can be read so many times.
#[derive(Drop)]
struct WornClock<'r, R> {
    rt: &'r R,
    left: AtomicU64,
}

impl<R: Wait> Wait for WornClock<'_, R> {}

impl<R: Threads> Threads for WornClock<'_, R> {}

impl<R: Clock> Clock for WornClock<'_, R> {
    fn monotonic(&self) -> io::Result<Duration> {
        if self.left.load(Ordering::SeqCst) == 0 {
            return Err(Error::from(ErrorKind::Unsupported));
        }
        self.left.fetch_sub(1, Ordering::SeqCst);
        self.rt.monotonic()
    }

    fn since_1970(&self) -> io::Result<Duration> {
        self.rt.since_1970()
    }
}

#[test]
fn a_clock_that_fails_is_reported(rt: HostRuntime) -> Result<(), Fail> {
    // The trace reads the clock once, and each of the three tasks twice.
    for readings in 0..8u64 {
        let clock = WornClock {
            rt: &rt,
            left: AtomicU64::new(readings),
        };
        let trace = Trace::new(&clock, rt.alloc(), 1);
        if readings == 0 {
            assert_eq!(rt; trace.err(), Some(TraceError::NoClock));
            continue;
        }
        let Ok(trace) = trace else {
            assert!(rt; false, "no trace after {readings} readings");
            continue;
        };
        let came = AtomicU64::new(0);
        let tree = Tree {
            levels: 1,
            wanted: 0,
            came: &came,
        };
        let handle = Traced::new(&clock, Some(&trace));
        let count = run_observed_eight_levels(&handle, rt.alloc(), 1, 1, tree);
        assert_eq!(rt; count, Ok(3));
        drop(handle);
        let why = trace.into_events(rt.alloc()).err();
        let expected = if readings < 7 {
            Some(TraceError::NoClock)
        } else {
            None
        };
        assert_eq!(rt; why, expected, "after {readings} readings");
    }
    Ok(())
}

#[test]
fn a_hart_without_a_row_is_reported(rt: HostRuntime) -> Result<(), Fail> {
    let Ok(trace) = Trace::new(&rt, rt.alloc(), 1) else {
        assert!(rt; false, "no trace");
        return Ok(());
    };
    let handle = Traced::new(&rt, Some(&trace));
    handle.task_begins(1, 0);
    drop(handle);
    assert_eq!(rt;
        trace.into_events(rt.alloc()).err(),
        Some(TraceError::UnknownHart)
    );
    Ok(())
}

#[test]
fn unpaired_events_are_reported(rt: HostRuntime) -> Result<(), Fail> {
    for begins in [false, true] {
        let Ok(trace) = Trace::new(&rt, rt.alloc(), 1) else {
            assert!(rt; false, "no trace");
            return Ok(());
        };
        let handle = Traced::new(&rt, Some(&trace));
        if begins {
            handle.task_begins(0, 0);
        } else {
            handle.task_ends(0);
        }
        drop(handle);
        assert_eq!(rt;
            trace.into_events(rt.alloc()).err(),
            Some(TraceError::Unpaired)
        );
    }
    Ok(())
}

#[test]
fn without_a_trace_nothing_is_kept(rt: HostRuntime) -> Result<(), Fail> {
    let came = AtomicU64::new(0);
    let tree = Tree {
        levels: 1,
        wanted: 0,
        came: &came,
    };
    let handle = Traced::new(&rt, None);
    assert!(rt; !handle.is_on());
    handle.task_begins(0, 0);
    handle.task_ends(0);
    let count = run_observed_eight_levels(&handle, rt.alloc(), 2, 1, tree);
    assert_eq!(rt; count, Ok(3));
    Ok(())
}
