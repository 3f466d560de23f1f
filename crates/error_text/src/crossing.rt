//! The line that reports why the members of a program can't overtake.
ghost use Rattle.std.specs.Prelude.{◌≢◌, ◌≡◌, IfOk};
ghost use Rattle.array_tree.specs.Trees.{program_of};
ghost use Rattle.error_text.specs.CrossingText.{crossing_text};

use crate::refusal::add_on_cell;
use array_tree::Program;
use pipe_walk::PipeFault;
use std::alloc::{AllocError, Global};

/// The line of a crossing: the cell on which two pieces of a program cross, and their construct. The fault must not be
/// `Memory`.
///
/// # Errors
///
/// `AllocError` if an allocation fails.
///
/// # Memory
///
/// It allocates the line.
pub fn crossing_line(
    alloc: Global,
    program: &Program,
    fault: PipeFault,
) -> Result<Vec<u8>, AllocError>
    requires { fault ≢ PipeFault.Memory }
    ensures { IfOk result (λ line. line.items ≡ crossing_text (program_of program.now) fault) }
{
    let mut text = Vec::new(alloc);
    text.extend_from_slice(b"refused: ".as_slice())?;
    match fault {
        PipeFault::Crossing { line, cell } => {
            add_on_cell(
                alloc,
                &mut text,
                "crossing on ",
                &program.arrays,
                line,
                cell,
            )?
        }
        PipeFault::Memory => unreachable!(),
    }
    Ok(text)
}
