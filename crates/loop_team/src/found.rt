//! The results of a hand's looks under the lock of its team.

/// The result of the last look of a hand under the lock.
#[derive(Clone, Copy, Debug, PartialEq, Eq, Drop)]
pub enum Found {
    /// The hand hasn't looked.
    Unlooked,
    /// The team was handed out.
    HandedOut,
    /// No context was ready. The look didn't check the wishes.
    NoneReady,
    /// The current phase isn't the one whose members were claimed.
    OtherPhase,
    /// Work to begin or to go on with.
    Work,
    /// No work, and a child's wish.
    Wish,
    /// No work and no wish.
    Idle,
}
