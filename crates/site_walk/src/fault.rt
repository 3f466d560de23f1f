//! The faults that the walk finds.

/// Why the walk doesn't accept a program, or an allocation failure.
#[derive(Clone, Copy, PartialEq, Eq, Debug, Drop)]
pub enum WalkFault {
    /// A static index outside its array: the line of the assignment or `if` whose own expressions have the index, the index,
    /// and the array's length, 1 to 4,096.
    OutOfRange { line: u32, index: i64, length: u16 },
    /// Two pieces of a site overlap: the construct's line, and the least cell on which they do. Cells are numbered from 0 in
    /// order of declaration.
    Overlap { line: u32, cell: u16 },
    /// An allocation failed.
    Memory,
}
