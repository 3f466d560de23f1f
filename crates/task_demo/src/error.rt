//! Why nothing was run, or why a run has no result.
use array_tasks::{MOST_BYTES, TextError};
use clap::Error;
use clap::error::ErrorKind;
use outside_io::NoWords;
use std::alloc::AllocError;
use std::{fmt, io};
use task_crew::RunError;
use task_trace::TraceError;

/// Why nothing was run, or why a run has no result.
#[derive(Debug, Drop)]
pub enum DemoError {
    /// The words are not a command with its options, or they request help. The error has the text.
    Words(Error),
    /// The words name no command.
    NoCommand,
    /// A word is not UTF-8.
    NotText,
    /// The option's value is not a number from the least to the most.
    NotInRange(&'static str, u64, u64),
    /// Standard input can't be read.
    NoInput,
    /// Standard input has more bytes than a program's text may have.
    TooLong,
    /// Standard input spells no program that is accepted. The line reports why.
    Refused(Vec<u8>),
    /// An allocation failed.
    OutOfMemory,
    /// The clock can't be read.
    NoClock,
    /// The harts couldn't begin or end their run.
    NotEnded,
    /// An event of the run is missing.
    NoTrace,
    /// The file of the trace can't be written.
    NoFile,
}

impl DemoError {
    /// The exit status: 2 if nothing was run because of the words or the text of a program, else 1.
    pub fn status(&self) -> u8 {
        match self {
            DemoError::Words(_) => 2,
            DemoError::NoCommand => 2,
            DemoError::NotText => 2,
            DemoError::NotInRange(_, _, _) => 2,
            DemoError::TooLong => 2,
            DemoError::Refused(_) => 2,
            DemoError::NoInput => 1,
            DemoError::OutOfMemory => 1,
            DemoError::NoClock => 1,
            DemoError::NotEnded => 1,
            DemoError::NoTrace => 1,
            DemoError::NoFile => 1,
        }
    }
}

impl fmt::Display for DemoError {
    fn fmt<W: fmt::Write>(&self, f: &mut fmt::Formatter<W>) -> fmt::Result {
        match self {
            DemoError::Words(error) => write!(f, "{error}"),
            DemoError::NoCommand => write!(f, "the command is missing"),
            DemoError::NotText => write!(f, "a word of the command line is not UTF-8"),
            DemoError::NotInRange(name, least, most) => {
                write!(f, "--{name} takes a number from {least} to {most}")
            }
            DemoError::NoInput => write!(f, "standard input can't be read"),
            DemoError::TooLong => write!(f, "the text has more than {MOST_BYTES} bytes"),
            // Its line is printed alone.
            DemoError::Refused(_) => Ok(()),
            DemoError::OutOfMemory => write!(f, "out of memory"),
            DemoError::NoClock => write!(f, "the clock can't be read"),
            DemoError::NotEnded => write!(f, "the harts did not begin or end their run"),
            DemoError::NoTrace => write!(f, "an event of the run is missing"),
            DemoError::NoFile => write!(f, "the file of --trace can't be written"),
        }
    }
}

impl From<AllocError> for DemoError {
    fn from(_error: AllocError) -> DemoError {
        DemoError::OutOfMemory
    }
}

impl From<Error> for DemoError {
    fn from(error: Error) -> DemoError {
        if error.kind() == ErrorKind::OutOfMemory {
            DemoError::OutOfMemory
        } else {
            DemoError::Words(error)
        }
    }
}

impl From<NoWords> for DemoError {
    fn from(why: NoWords) -> DemoError {
        match why {
            NoWords::NotText => DemoError::NotText,
            NoWords::NoMemory => DemoError::OutOfMemory,
        }
    }
}

impl From<RunError<AllocError>> for DemoError {
    fn from(error: RunError<AllocError>) -> DemoError {
        match error {
            RunError::HartCount(_) => DemoError::NotInRange("harts", 1, 64),
            RunError::LevelCount(_) => DemoError::NotEnded,
            RunError::Task(_) => DemoError::OutOfMemory,
        }
    }
}

impl From<TextError> for DemoError {
    fn from(error: TextError) -> DemoError {
        match error {
            TextError::TooLong => DemoError::TooLong,
            TextError::Syntax(line) => DemoError::Refused(line),
            TextError::Refused(line) => DemoError::Refused(line),
            TextError::HartCount(_) => DemoError::NotInRange("harts", 1, 64),
            TextError::OutOfMemory => DemoError::OutOfMemory,
        }
    }
}

// Only the clock is read by calls that return this error.
impl From<io::Error> for DemoError {
    fn from(_error: io::Error) -> DemoError {
        DemoError::NoClock
    }
}

impl From<TraceError> for DemoError {
    fn from(error: TraceError) -> DemoError {
        match error {
            TraceError::OutOfMemory => DemoError::OutOfMemory,
            TraceError::NoClock => DemoError::NoClock,
            TraceError::UnknownHart => DemoError::NoTrace,
            TraceError::Unpaired => DemoError::NoTrace,
            TraceError::NotEnded => DemoError::NotEnded,
        }
    }
}
