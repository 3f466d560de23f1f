//! Programs of texts.
ghost use Rattle.std.specs.Prelude.{IsTrue};
ghost use Rattle.array_tree.specs.Trees.{declarations_of};
ghost use Rattle.array_meaning.specs.Stores.{arrays_of, AreSized};

use array_lang::parse;
use array_tree::{Arrays, Program};
use std::alloc::Global;
use std::test::Fail;

/// The program of a text.
///
/// # Errors
///
/// A failure of the test if the text spells no program, or an allocation fails.
pub fn parsed(alloc: Global, text: &str) -> Result<Program, Fail> {
    let text = text.as_bytes();
    if text.len() > 65_536 {
        return Err(Fail::new("a longer text than any program's"));
    }
    Ok(parse(alloc, text)?)
}

/// Whether each array has a cell, and all arrays together at most 4,096.
pub fn are_sized(arrays: &Arrays) -> bool
    ensures { IsTrue result → AreSized (arrays_of (declarations_of arrays.now)) }
{
    let mut cells = 0;
    for array in &arrays.declarations {
        let length = array.length.unsigned_abs();
        if length == 0 || length > 4096 - cells {
            return false;
        }
        cells += length;
    }
    true
}
