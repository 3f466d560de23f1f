//! Reads an input to its end.
ghost use Rattle.std.specs.Prelude.{◌≡◌, ◌<◌, ◌≤◌, ◌^◌, IfOk, IsErrOf};
ghost use Rattle.outside_io.specs.Outside.{Rose};
ghost use Rattle.lithe_call.specs.Printing.{GivesWithin, GivesMore};

use outside_io::{Fill, Source};
use std::alloc::{AllocError, Global};

/// Why an input wasn't read to its end.
#[derive(Clone, Copy, Debug, PartialEq, Eq)]
pub enum ReadError {
    /// An allocation failed.
    Memory,
    /// The source gave more than the limit's bytes before its end.
    TooLong,
    /// The source failed.
    Failed,
}

impl From<AllocError> for ReadError {
    ghost use Rattle.std.specs.Prelude.{◌≡◌};
    ghost use Rattle.lithe_call.specs.declared.reading.ReadError.TheVariants.{Memory};

    ghost from_gives = { λ _ e. e ≡ Memory };

    fn from(_: AllocError) -> Self {
        ReadError::Memory
    }
}

const BUFFER: usize = 4096;

/// All bytes that the source has left, if they are at most `limit`.
///
/// # Errors
///
/// `ReadError::TooLong` if the source has more bytes, `ReadError::Failed` if it fails, and `ReadError::Memory` if an allocation
/// fails.
///
/// # Memory
///
/// It allocates the bytes.
pub fn read_all<A: Source>(
    alloc: Global,
    source: &mut A,
    limit: usize,
) -> Result<Vec<u8>, ReadError>
    requires { limit < 2 ^ 32 }
    ensures count { A.faults source.old ≤ A.faults source.new }
    ensures whole { IfOk result
        (λ bytes. GivesWithin limit (A.left source.old) bytes.items (A.left source.new)) }
    ensures too_long { IsErrOf result ReadError.TooLong
        → GivesMore (A.left source.old) limit (A.left source.new) }
    ensures failed { IsErrOf result ReadError.Failed
        → Rose (A.faults source.old) (A.faults source.new) }
{
    let mut bytes = Vec::new(alloc);
    let mut buffer = [0; BUFFER];
    loop {
        match source.read(&mut buffer) {
            Fill::Failed => return Err(ReadError::Failed),
            Fill::End => return Ok(bytes),
            Fill::Got(count) => {
                bytes.extend_from_slice(&buffer[..count])?;
                if bytes.len() > limit {
                    return Err(ReadError::TooLong);
                }
            }
        }
    }
}
