//! Why a text is no journal.
use std::alloc::{AllocError, AllocFailed};

/// Why a text is the journal of no list: the cause in the earliest line. Lines are counted from 1.
#[derive(Clone, Copy, Debug, PartialEq, Eq)]
pub enum TextFault {
    /// The line doesn't have the form that is due there, or no newline ends it.
    BadLine { line: u32 },
    /// The line has its form, but a number in it isn't decimal, has leading zeros, is too large, isn't the entry's index, or
    /// isn't the plan's parent.
    BadNumber { line: u32 },
    /// Every line is right, but the number of entries differs from that in the first line.
    WrongCount { said: u32, found: u32 },
    /// An allocation failed.
    Memory,
}

impl From<AllocError> for TextFault {
    ghost use Rattle.std.specs.Prelude.{◌≡◌};
    ghost use Rattle.journal_text.specs.declared.fault.TextFault.TheVariants.{Memory};

    ghost from_gives = { λ _ fault. fault ≡ Memory };

    fn from(_: AllocError) -> TextFault {
        TextFault::Memory
    }
}

impl<T: Drop> From<AllocFailed<T>> for TextFault {
    ghost use Rattle.std.specs.Prelude.{◌≡◌};
    ghost use Rattle.journal_text.specs.declared.fault.TextFault.TheVariants.{Memory};

    ghost from_gives = { λ _ fault. fault ≡ Memory };

    fn from(_: AllocFailed<T>) -> TextFault {
        TextFault::Memory
    }
}
