//! Why members can't go on without waiting for one another.

/// Why a program can't be run by pipelines, or an allocation failure.
#[derive(Clone, Copy, PartialEq, Eq, Debug, Drop)]
pub enum PipeFault {
    /// Two pieces of a `team` cross: the construct's line, and the least cell on which they do. Cells are numbered from 0 in
    /// order of declaration.
    Crossing { line: u32, cell: u16 },
    /// An allocation failed.
    Memory,
}
