//! The verdict of an audit.
use transfer_table::Fault;

/// The verdict of an audit on an output.
#[derive(Clone, Copy, Debug, PartialEq, Eq)]
pub enum Verdict {
    /// The arrays are the program's, and the transfers, of this number, are a complete legal run of its table.
    Legal(u32),
    /// The line, counted from 1, is the first of the array lines that isn't the program's.
    Differs(u32),
    /// The array lines are the program's, and the transfers have a fault: this is the first.
    Illegal(Fault),
}
