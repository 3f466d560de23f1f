//! Why there is no output.
ghost use Rattle.std.specs.Prelude.{◌≡◌};
ghost use Rattle.lithe_call.specs.FaultOf.{status_of, line_of};

use crate::reading::ReadError;
use crate::status::{Status, constant_text};
use std::alloc::AllocError;

/// Why a command has no output.
#[derive(Debug, Drop)]
pub enum Fault {
    /// The words are no form of a command.
    Usage,
    /// The input, or the program part of an audit's, is longer than its limit.
    TooLong,
    /// The source failed.
    ReadFault,
    /// The input spells no program, or is no input of an audit. The line reports its first error.
    Syntax(Vec<u8>),
    /// The program isn't accepted. The line reports the first condition that it fails.
    Refused(Vec<u8>),
    /// An allocation failed.
    Memory,
}

impl From<AllocError> for Fault {
    ghost use Rattle.std.specs.Prelude.{◌≡◌};
    ghost use Rattle.lithe_call.specs.declared.fault.Fault.TheVariants.{Memory};

    ghost from_gives = { λ _ fault. fault ≡ Memory };

    fn from(_: AllocError) -> Fault {
        Fault::Memory
    }
}

impl From<ReadError> for Fault {
    ghost use Rattle.std.specs.Prelude.{◌≡◌};
    ghost use Rattle.lithe_call.specs.FaultOf.{read_fault_of};

    ghost from_gives = { λ error fault. fault ≡ read_fault_of error };

    fn from(error: ReadError) -> Fault {
        match error {
            ReadError::Memory => Fault::Memory,
            ReadError::TooLong => Fault::TooLong,
            ReadError::Failed => Fault::ReadFault,
        }
    }
}

impl Fault {
    /// The status of a command that has the fault.
    pub fn status(&self) -> Status
        ensures { result ≡ status_of self.now }
    {
        match self {
            Fault::Usage => Status::Usage,
            Fault::TooLong => Status::TooLong,
            Fault::ReadFault => Status::ReadFault,
            Fault::Syntax(_) => Status::Syntax,
            Fault::Refused(_) => Status::Refused,
            Fault::Memory => Status::NoMemory,
        }
    }

    /// The text that reports the fault.
    pub fn line(&self) -> &[u8]
        ensures { result.now ≡ line_of self.now }
    {
        match self {
            Fault::Syntax(line) => line,
            Fault::Refused(line) => line,
            Fault::Usage => constant_text(Status::Usage),
            Fault::TooLong => constant_text(Status::TooLong),
            Fault::ReadFault => constant_text(Status::ReadFault),
            Fault::Memory => constant_text(Status::NoMemory),
        }
    }
}
