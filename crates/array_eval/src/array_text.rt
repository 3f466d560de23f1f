//! The array lines.
ghost use Rattle.std.specs.Prelude.{◌≡◌, ◌++◌, IfOk, OnOk, length};
ghost use Rattle.array_tree.specs.Trees.{declarations_of, program_of};
ghost use Rattle.array_meaning.specs.Stores.{arrays_of, AreSized, cells_of};
ghost use Rattle.array_eval.specs.ArrayText.{array_text, array_line};

use crate::store::Store;
use array_tree::{Name, Program};
use std::alloc::{AllocError, Global};

/// The array lines of a program's store: for each array its name, ` =`, and after a space each the decimal values of its cells.
///
/// Each array must have a cell, and all arrays together at most 4,096. The store must have one value for each cell.
///
/// # Errors
///
/// `AllocError` if an allocation fails.
///
/// # Memory
///
/// It allocates the text.
pub fn write_arrays(alloc: Global, program: &Program, store: &Store) -> Result<Vec<u8>, AllocError>
    requires sized { AreSized (arrays_of (declarations_of program.now.arrays)) }
    requires whole { length store.now ≡ cells_of (arrays_of (declarations_of program.now.arrays)) }
    ensures { IfOk result (λ text. text.items ≡ array_text (program_of program.now) store.now) }
{
    let mut text = Vec::new(alloc);
    let cells = store.to_cells(alloc)?;
    let mut rest = cells.as_slice();
    for array in &program.arrays.declarations {
        let (own, others) = rest.split_at(array.length.unsigned_abs() as usize);
        write_line(alloc, &array.name, own, &mut text)?;
        rest = others;
    }
    Ok(text)
}

// Appends the line of one array with these cells.
fn write_line(
    alloc: Global,
    name: &Name,
    cells: &[i64],
    text: &mut Vec<u8>,
) -> Result<(), AllocError>
    ensures { OnOk result (text.new.items ≡ text.old.items ++ array_line name.now cells.now) }
{
    text.extend_from_slice(name.as_bytes())?;
    text.extend_from_slice(b" =".as_slice())?;
    for value in cells {
        let number = value.to_string(alloc)?;
        text.push(b' ')?;
        text.extend_from_slice(number.as_bytes())?;
    }
    text.push(b'\n')?;
    Ok(())
}
