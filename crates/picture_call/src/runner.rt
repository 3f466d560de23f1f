//! The commands of `lithe` whose outputs are drawn.

/// A command that runs a program and writes its arrays and the journal of its transfers.
#[derive(Clone, Copy, Debug, PartialEq, Eq)]
pub enum Runner {
    /// `run`: no two pieces of the program overlap.
    Run,
    /// `tally`: pieces may also add into one cell of an array whose name ends in `_sum`.
    Tally,
    /// `pipe`: members of a `team` overtake, and no two of its pieces cross.
    Pipe,
}
