//! The turns of a loop.
use array_tree::Name;

/// A loop's variable, and the numbers that it takes: from `low` to before `high`.
#[derive(Clone, Copy, Drop)]
pub struct Turns<'s> {
    /// The variable.
    pub var: &'s Name,
    /// The first number.
    pub low: i64,
    /// The number after the last one.
    pub high: i64,
}
