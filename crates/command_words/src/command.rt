//! The commands of the program.

/// A command, as the words of the command line give it.
#[derive(Clone, Copy, Debug, PartialEq, Eq)]
pub enum Command {
    /// Runs the program of the input on so many harts, 1 to 16, and writes its arrays and the journal of its transfers.
    Run(u8),
    /// As `Run`, for a program whose branches and members may add into one cell of an array whose name ends in `_sum`.
    Tally(u8),
    /// As `Run`, where the members of `team` constructs may overtake one another.
    Pipe(u8),
    /// Writes the arrays of the program by the one-thread evaluator.
    Solo,
    /// Audits an output of the program's run on so many harts, 1 to 16.
    Audit(u8),
    /// Generates a program from a seed and a size, 1 to 40, runs it on so many harts, 1 to 16, and writes its summary.
    Make { seed: u64, size: u8, harts: u8 },
}
