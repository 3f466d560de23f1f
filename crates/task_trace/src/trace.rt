//! A trace, and the handle of a run that is traced.
ghost use Rattle.std.specs.Prelude.{◌≡◌, ◌⊎◌, length, IfOk, IfErr};
ghost use Rattle.std.specs.List.{All};
ghost use Rattle.task_trace.specs.Nesting.{IsNested};
ghost use Rattle.task_trace.specs.declared.error.TraceError.TheVariants.{OutOfMemory, NoClock};

use crate::error::TraceError;
use crate::event::{Event, HartEvents};
use crossbeam_utils::CachePadded;
use open_board::NotEnded;
use std::alloc::Global;
use std::sync::atomic::{AtomicBool, Ordering};
use std::sync::{Mutex, Wait};
use std::thread::Threads;
use std::time::{Clock, Instant};
use task_sites::Observer;

// The events of a hart. Only that hart takes the lock while it runs.
type Row = CachePadded<Mutex<HartEvents>>;

/// A trace of a run: the events of each hart.
#[derive(Drop)]
pub struct Trace {
    start: Instant,
    rows: Vec<Row>,
    // Whether a hart without a row ran a task.
    has_strayed: AtomicBool,
    // Whether the board refused to end.
    has_stayed: AtomicBool,
}

impl Trace {
    /// Begins a trace of so many harts.
    ///
    /// # Errors
    ///
    /// `NoClock` if the clock can't be read, `OutOfMemory`.
    ///
    /// # Memory
    ///
    /// Some cache lines for each hart. During the run, 32 bytes for each task, in a list that grows. If an allocation of the list
    /// fails, the tasks run on, and [`into_events`](Trace::into_events) reports it.
    pub fn new<C: Clock>(clock: &C, alloc: Global, harts: u8) -> Result<Trace, TraceError>
        ensures rows { IfOk result (λ trace. length trace.rows.items ≡ harts) }
        ensures error { IfErr result (λ error. (error ≡ OutOfMemory) ⊎ (error ≡ NoClock)) }
    {
        let mut rows = Vec::with_capacity(alloc, harts as usize)?;
        'harts: for hart in 0..harts {
            rows.push(CachePadded::new(Mutex::new(HartEvents::new(alloc))))?;
        }
        Ok(Trace {
            start: Instant::now(clock)?,
            rows,
            has_strayed: AtomicBool::new(false),
            has_stayed: AtomicBool::new(false),
        })
    }

    /// Returns the events of each hart, in the order of the harts' numbers.
    ///
    /// # Errors
    ///
    /// `NotEnded` if the run's board refused to end. Why an event is missing: `OutOfMemory`, `NoClock`, `UnknownHart`, or
    /// `Unpaired`. `OutOfMemory` also if the list can't be allocated.
    ///
    /// # Memory
    ///
    /// One list.
    pub fn into_events(self, alloc: Global) -> Result<Vec<Vec<Event>>, TraceError>
        ensures nested { IfOk result (λ harts. All (λ events. IsNested events.items) harts.items) }
        ensures rows { IfOk result (λ harts. length harts.items ≡ length self.rows.items) }
    {
        let Trace {
            start: _,
            rows,
            has_strayed,
            has_stayed,
        } = self;
        if has_stayed.load(Ordering::SeqCst) {
            return Err(TraceError::NotEnded);
        }
        if has_strayed.load(Ordering::SeqCst) {
            return Err(TraceError::UnknownHart);
        }
        let mut harts = Vec::with_capacity(alloc, rows.len())?;
        let mut rest = rows.into_iter();
        'rows: while let Some(row) = rest.next() {
            harts.push(events_of(row)?)?;
        }
        Ok(harts)
    }

    // The nanoseconds since the trace began.
    fn nanos<C: Clock>(&self, clock: &C) -> Result<u64, TraceError> {
        let since = Instant::now(clock)?.duration_since(self.start);
        Ok(u64::try_from(since.as_nanos()).unwrap_or(u64::MAX))
    }

    // The events of a hart.
    fn row(&self, hart: u8) -> Option<&Row> {
        let row = self.rows.get(hart as usize);
        if row.is_none() {
            self.has_strayed.store(true, Ordering::SeqCst);
        }
        row
    }
}

// The events in a row.
fn events_of(row: Row) -> Result<Vec<Event>, TraceError>
    ensures { IfOk result (λ events. IsNested events.items) }
{
    row.into_inner().into_inner().into_events()
}

/// The handle of a run that may be traced, over another handle.
#[derive(Drop)]
pub struct Traced<'t, R> {
    rt: &'t R,
    trace: Option<&'t Trace>,
}

impl<'t, R> Traced<'t, R> {
    /// Makes a handle with the abilities of `rt`, which keeps the events in `trace`. With `None` it keeps nothing, and each task
    /// costs one test.
    pub fn new(rt: &'t R, trace: Option<&'t Trace>) -> Traced<'t, R> {
        Traced { rt, trace }
    }
}

impl<R: Wait> Wait for Traced<'_, R> {}

impl<R: Threads> Threads for Traced<'_, R> {}

impl<R: Wait + Clock> Observer for Traced<'_, R> {
    fn is_on(&self) -> bool {
        self.trace.is_some()
    }

    fn task_begins(&self, hart: u8, site: u16) {
        let Some(trace) = self.trace else {
            return;
        };
        let Some(row) = trace.row(hart) else {
            return;
        };
        let nanos = trace.nanos(self.rt);
        let mut events = row.lock(self.rt);
        match nanos {
            Ok(nanos) => events.begin(site, nanos),
            Err(error) => events.fail(error),
        }
    }

    fn task_ends(&self, hart: u8) {
        let Some(trace) = self.trace else {
            return;
        };
        let Some(row) = trace.row(hart) else {
            return;
        };
        let nanos = trace.nanos(self.rt);
        let mut events = row.lock(self.rt);
        match nanos {
            Ok(nanos) => events.end(nanos),
            Err(error) => events.fail(error),
        }
    }

    fn harts_stay(&self, _why: NotEnded) {
        if let Some(trace) = self.trace {
            trace.has_stayed.store(true, Ordering::SeqCst);
        }
    }
}
