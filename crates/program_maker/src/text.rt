//! The program as text.
ghost use Rattle.std.specs.Prelude.{◌≡◌, ◌≤◌, IfOk, length};
ghost use Rattle.array_meaning.specs.Bounds.{most_bytes};
ghost use Rattle.array_print.specs.Texts.{printed};
ghost use Rattle.program_maker.specs.Made.{made_program};

use crate::stencil::generate;
use array_print::print;
use std::alloc::{AllocError, Global};

/// The printed text of the program of a seed and a size, from 1 to 40. It spells the program up to its line numbers, and has at
/// most 65,536 bytes.
///
/// Why: the text fits the limit by a proof with twenty digits a number, without a test at run time.
///
/// # Errors
///
/// `AllocError` if an allocation fails.
///
/// # Memory
///
/// It allocates the tree and the text.
pub fn made_text(alloc: Global, seed: u64, size: u8) -> Result<Vec<u8>, AllocError>
    requires some { 1 ≤ size }
    requires few { size ≤ 40 }
    ensures printed { IfOk result (λ text. text.items ≡ printed (made_program seed size)) }
    ensures short { IfOk result (λ text. length text.items ≤ most_bytes) }
{
    let program = generate(alloc, seed, size)?;
    print(alloc, &program)
}
