//! The events of one hart.
ghost use Rattle.std.specs.Prelude.{◌≡◌, ◌+◌, ◌^◌, ◌<◌, ◌≤◌, ◌⊎◌, [], Some, None, IsSome, IsNone, IfOk, IfErr};
ghost use Rattle.task_trace.specs.Keeping.{Keeps};
ghost use Rattle.task_trace.specs.Nesting.{running_after, IsNested};
ghost use Rattle.task_trace.specs.declared.error.TraceError.TheVariants.{Unpaired};

use crate::error::TraceError;
use std::alloc::Global;

/// What happened on a hart. Times are in nanoseconds since the trace began.
#[derive(Clone, Copy, Debug, PartialEq)]
pub enum Event {
    /// A task began, while the hart was in this site; site 0 is the base.
    Begin(u16, u64),
    /// The task that began last of those that ran on the hart ended.
    End(u64),
}

/// The events of one hart, in their order.
#[derive(Drop)]
pub(crate) struct HartEvents {
    events: Vec<Event>,
    // The number of tasks that run on the hart.
    running: u64,
    // Why an event is missing. No event is kept after that.
    fault: Option<TraceError>,
    ghost nested: { running_after 0 events.items ≡ Some running },
}

impl HartEvents {
    /// A hart on which nothing has happened.
    pub(crate) fn new(alloc: Global) -> HartEvents
        ensures { (result.events.items ≡ []) × (result.fault ≡ None) }
    {
        HartEvents {
            events: Vec::new(alloc),
            running: 0,
            fault: None,
        }
    }

    /// Keeps that a task begins.
    #[tactic(auto, using(crate::proofs::Nested::more))]
    pub(crate) fn begin(&mut self, site: u16, nanos: u64)
        ensures stopped { IsSome self.old.fault → self.new ≡ self.old }
        ensures kept { IsNone self.old.fault → Keeps (Event.Begin site nanos) (2 ^ 64 ≤ self.old.running + 1)
            self.old.events.items self.new.events.items self.new.fault }
    {
        if self.fault.is_some() {
            return;
        }
        let Some(running) = self.running.checked_add(1) else {
            self.fault = Some(TraceError::Unpaired);
            return;
        };
        match self.events.push(Event::Begin(site, nanos)) {
            Ok(()) => self.running = running,
            Err(_) => self.fault = Some(TraceError::OutOfMemory),
        }
    }

    /// Keeps that the task that began last of those that run ends.
    #[tactic(auto, using(crate::proofs::Nested::fewer))]
    pub(crate) fn end(&mut self, nanos: u64)
        ensures stopped { IsSome self.old.fault → self.new ≡ self.old }
        ensures kept { IsNone self.old.fault → Keeps (Event.End nanos) (self.old.running ≡ 0)
            self.old.events.items self.new.events.items self.new.fault }
    {
        if self.fault.is_some() {
            return;
        }
        let Some(running) = self.running.checked_sub(1) else {
            self.fault = Some(TraceError::Unpaired);
            return;
        };
        match self.events.push(Event::End(nanos)) {
            Ok(()) => self.running = running,
            Err(_) => self.fault = Some(TraceError::OutOfMemory),
        }
    }

    /// Keeps that an event is missing.
    pub(crate) fn fail(&mut self, error: TraceError)
        ensures stopped { IsSome self.old.fault → self.new ≡ self.old }
        ensures kept { IsNone self.old.fault → (self.new.events ≡ self.old.events) × (self.new.fault ≡ Some error) }
    {
        if self.fault.is_none() {
            self.fault = Some(error);
        }
    }

    /// Returns the events.
    ///
    /// # Errors
    ///
    /// Why an event is missing; `Unpaired` if a task still runs.
    pub(crate) fn into_events(self) -> Result<Vec<Event>, TraceError>
        ensures nested { IfOk result (λ events. IsNested events.items) }
        ensures events { IfOk result (λ events. (events ≡ self.events) × (self.fault ≡ None)) }
        ensures error { IfErr result (λ error. (self.fault ≡ Some error)
            ⊎ ((self.fault ≡ None) × (error ≡ Unpaired) × (0 < self.running))) }
    {
        let HartEvents {
            events,
            running,
            fault,
        } = self;
        match fault {
            Some(error) => Err(error),
            None if running == 0 => Ok(events),
            None => Err(TraceError::Unpaired),
        }
    }
}
