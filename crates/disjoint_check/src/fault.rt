//! Why a program isn't accepted.
ghost use Rattle.std.specs.Prelude.{◌≡◌};

use site_walk::WalkFault;
use std::alloc::AllocError;

/// A limit of a declaration, a loop or a construct.
#[derive(Clone, Copy, Debug, PartialEq, Eq)]
pub enum Limit {
    /// An array has 1 to 4,096 cells; `found` is its length.
    Length,
    /// There are at most 64 arrays; `found` is 65.
    Names,
    /// All arrays together have at most 4,096 cells; `found` is their sum so far.
    Cells,
    /// A loop's low bound is no higher than its high one, which `found` is.
    Bounds,
    /// A `team` has 1 to 64 members.
    Members,
    /// A `par` has 1 to 64 branches.
    Branches,
    /// A `team` has 1 to 8 phases.
    Phases,
}

/// The first condition, in this order, that a program fails. A line is that of the first occurrence in the text.
#[derive(Clone, Copy, Debug, PartialEq, Eq)]
pub enum CheckFault {
    /// A declaration or loop has a name that is already the name of an array, or of a loop around it.
    DuplicateName { line: u32 },
    /// A statement indexes a name that is no array's, or uses a name without index that is no variable's of a loop around it.
    UnknownName { line: u32 },
    /// A declaration, `for`, `par` or `team` is outside a limit.
    BadRange { line: u32, what: Limit, found: i64 },
    /// Constructs nest more than 3 deep.
    TooDeep { level: u32 },
    /// There are more than 1,048,576 units of work.
    TooMuchWork { units: u64 },
    /// There are more than 4,095 sites, or so many that their longest journal on the plan's harts has more than 65,535 entries.
    TooManySites { sites: u64 },
    /// There are more than 16,384 pieces.
    TooManyPieces { pieces: u64 },
    /// A static index is outside its array of this length; the line is that of the assignment or `if`.
    OutOfRange { line: u32, index: i64, length: u16 },
    /// Two branches, or two members in one phase, overlap on a cell; the line is the construct's.
    Overlap { line: u32, cell: u16 },
    /// An allocation failed.
    Memory,
}

impl From<AllocError> for CheckFault {
    ghost use Rattle.disjoint_check.specs.declared.fault.CheckFault.TheVariants.{Memory};

    ghost from_gives = { λ _ f. f ≡ Memory };

    fn from(_: AllocError) -> CheckFault {
        CheckFault::Memory
    }
}

impl From<WalkFault> for CheckFault {
    ghost use Rattle.disjoint_check.specs.FaultOf.{of_walk};

    ghost from_gives = { λ cause fault. fault ≡ of_walk cause };

    fn from(cause: WalkFault) -> CheckFault {
        match cause {
            WalkFault::OutOfRange {
                line,
                index,
                length,
            } => CheckFault::OutOfRange {
                line,
                index,
                length,
            },
            WalkFault::Overlap { line, cell } => CheckFault::Overlap { line, cell },
            WalkFault::Memory => CheckFault::Memory,
        }
    }
}
