//! The line that reports why a program can't be spread.
ghost use Rattle.std.specs.Prelude.{◌≢◌, ◌≡◌, IfOk};
ghost use Rattle.error_text.specs.TallyText.{tally_text};

use crate::refusal::add_at_line;
use std::alloc::{AllocError, Global};
use tally_cells::TallyFault;

/// The line that gives the reason why the branches and members of a program can't have rows of their own. The fault must not be
/// `Memory`.
///
/// # Errors
///
/// `AllocError` if an allocation fails.
///
/// # Memory
///
/// It allocates the line.
pub fn tally_line(alloc: Global, fault: TallyFault) -> Result<Vec<u8>, AllocError>
    requires { fault ≢ TallyFault.Memory }
    ensures { IfOk result (λ line. line.items ≡ tally_text fault) }
{
    let mut text = Vec::new(alloc);
    match fault {
        TallyFault::Unshaped { line } => {
            add_at_line(alloc, &mut text, "refused: accumulation", line)?
        }
        TallyFault::NameTaken { line } => {
            add_at_line(alloc, &mut text, "refused: name taken", line)?
        }
        TallyFault::Memory => unreachable!(),
    }
    Ok(text)
}
