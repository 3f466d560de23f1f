//! The result of a steal.

/// The result of a steal.
#[derive(Clone, Copy, Debug, PartialEq, Drop)]
pub enum Stolen {
    /// The deque's first index.
    Code(u32),
    /// At a moment of the call the deque held at most one index.
    Empty,
}
