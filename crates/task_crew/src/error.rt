//! Why a run has no output.

/// Why a run has no output.
#[derive(Debug, Drop, PartialEq)]
pub enum RunError<E> {
    /// The number of harts is not 1 to 64. Nothing was started.
    HartCount(u8),
    /// There are more levels than the call admits, 16 or 8. Nothing was started.
    LevelCount(u8),
    /// The task failed with this error, or an allocation failed.
    Task(E),
}
