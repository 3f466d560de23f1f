//! Why a program can't be spread.
ghost use Rattle.std.specs.Prelude.{◌≡◌};

use std::alloc::AllocError;

/// The first cause, in this order, for which a program can't be spread. A line is that of the first occurrence in the text.
#[derive(Clone, Copy, Debug, PartialEq, Eq)]
pub enum TallyFault {
    /// Inside a construct, a statement mentions an accumulating array and isn't an add, or an add is inside two constructs.
    Unshaped { line: u32 },
    /// A declaration or a loop takes a name that the rows of an array need.
    NameTaken { line: u32 },
    /// An allocation failed.
    Memory,
}

impl From<AllocError> for TallyFault {
    ghost use Rattle.tally_cells.specs.declared.fault.TallyFault.TheVariants.{Memory};

    ghost from_gives = { λ _ fault. fault ≡ Memory };

    fn from(_: AllocError) -> TallyFault {
        TallyFault::Memory
    }
}
