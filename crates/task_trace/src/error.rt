//! Why there is no trace.
use std::alloc::{AllocError, AllocFailed};
use std::io;

/// Why there is no trace.
#[derive(Clone, Copy, Debug, PartialEq)]
pub enum TraceError {
    /// An allocation failed, so an event is missing, or there is no text.
    OutOfMemory,
    /// The clock can't be read, so an event is missing.
    NoClock,
    /// A hart that the trace doesn't have ran a task.
    UnknownHart,
    /// A task has begun and not ended, or ended and not begun.
    Unpaired,
    /// The run's board refused to end, as if a hart were still in a site.
    NotEnded,
}

impl From<AllocError> for TraceError {
    ghost use Rattle.std.specs.Prelude.{◌≡◌};
    ghost use Rattle.task_trace.specs.declared.error.TraceError.TheVariants.{OutOfMemory};

    ghost from_gives = { λ _ error. error ≡ OutOfMemory };

    fn from(_error: AllocError) -> TraceError {
        TraceError::OutOfMemory
    }
}

impl<T: Drop> From<AllocFailed<T>> for TraceError {
    ghost use Rattle.std.specs.Prelude.{◌≡◌};
    ghost use Rattle.task_trace.specs.declared.error.TraceError.TheVariants.{OutOfMemory};

    ghost from_gives = { λ _ error. error ≡ OutOfMemory };

    fn from(_: AllocFailed<T>) -> TraceError {
        TraceError::OutOfMemory
    }
}

impl From<io::Error> for TraceError {
    ghost use Rattle.std.specs.Prelude.{◌≡◌};
    ghost use Rattle.task_trace.specs.declared.error.TraceError.TheVariants.{NoClock};

    ghost from_gives = { λ _ error. error ≡ NoClock };

    fn from(_error: io::Error) -> TraceError {
        TraceError::NoClock
    }
}
