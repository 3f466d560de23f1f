//! Why there are no arrays.
use std::alloc::AllocError;

/// Why a program has no arrays.
#[derive(Clone, Copy, Debug, Drop, PartialEq)]
pub enum ProgramError {
    /// The number of harts is not 1 to 64. Nothing was started.
    HartCount(u8),
    /// An allocation failed.
    OutOfMemory,
}

/// Why a text has no lines of arrays.
#[derive(Debug, Drop, PartialEq)]
pub enum TextError {
    /// The text has more than 65,536 bytes.
    TooLong,
    /// The text spells no program. The line reports its first error.
    Syntax(Vec<u8>),
    /// The program isn't accepted. The line reports the first condition that it fails.
    Refused(Vec<u8>),
    /// The number of harts is not 1 to 64. Nothing was started.
    HartCount(u8),
    /// An allocation failed.
    OutOfMemory,
}

impl From<AllocError> for ProgramError {
    ghost use Rattle.std.specs.Prelude.{◌≡◌};
    ghost use Rattle.array_tasks.specs.declared.error.ProgramError.TheVariants.{OutOfMemory};

    ghost from_gives = { λ _ error. error ≡ OutOfMemory };

    fn from(_: AllocError) -> ProgramError {
        ProgramError::OutOfMemory
    }
}

impl From<AllocError> for TextError {
    ghost use Rattle.std.specs.Prelude.{◌≡◌};
    ghost use Rattle.array_tasks.specs.declared.error.TextError.TheVariants.{OutOfMemory};

    ghost from_gives = { λ _ error. error ≡ OutOfMemory };

    fn from(_: AllocError) -> TextError {
        TextError::OutOfMemory
    }
}

impl From<ProgramError> for TextError {
    ghost use Rattle.array_tasks.specs.Errors.{is_as_run};

    ghost from_gives = { is_as_run };

    fn from(error: ProgramError) -> TextError {
        match error {
            ProgramError::HartCount(harts) => TextError::HartCount(harts),
            ProgramError::OutOfMemory => TextError::OutOfMemory,
        }
    }
}
