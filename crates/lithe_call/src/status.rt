//! The status of a run.
ghost use Rattle.std.specs.Prelude.{◌≡◌};
ghost use Rattle.lithe_call.specs.Status.{constant_text, number_of};

/// The status of a run. Its number is the process's exit status.
#[derive(Clone, Copy, Debug, PartialEq, Eq)]
pub enum Status {
    /// The input, if the command reads one, was read to its end, and the whole output was written.
    Done = 0,
    /// An output that was audited isn't the program's, and the line that reports that was written.
    Illegal = 1,
    /// The words are no form of a command.
    Usage = 2,
    /// The input spells no program; for an audit, also an input without a line `%%`, or whose second part is no output's text.
    Syntax = 3,
    /// The program isn't accepted.
    Refused = 4,
    /// The input, or the program part of an audit's, is longer than its limit.
    TooLong = 5,
    /// The source failed.
    ReadFault = 6,
    /// The sink failed, and took a prefix of the output.
    WriteFault = 7,
    /// An allocation failed.
    NoMemory = 8,
}

impl Status {
    /// The exit status, from 0 to 8.
    pub fn number(self) -> u8
        ensures { result ≡ number_of self }
    {
        self as u8
    }
}

const USAGE: &[u8] =
    b"usage: lithe_run run --harts N\n       lithe_run solo\n       lithe_run audit --harts N\n       lithe_run make --seed X --size K --harts N\n       lithe_run tally --harts N\n       lithe_run pipe --harts N\n";

/// The text that the status writes to the stream of errors, if it is always the same.
pub fn constant_text(status: Status) -> &'static [u8]
    ensures { result.now ≡ constant_text status }
{
    match status {
        Status::Usage => USAGE,
        Status::TooLong => b"too long\n",
        Status::ReadFault => b"read fault\n",
        Status::WriteFault => b"write fault\n",
        Status::NoMemory => b"no memory\n",
        Status::Done | Status::Illegal | Status::Syntax | Status::Refused => b"",
    }
}
