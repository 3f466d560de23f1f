//! The array that a cell belongs to.
ghost use Rattle.std.specs.Prelude.{◌≡◌};
ghost use Rattle.array_tree.specs.Trees.{declarations_of};
ghost use Rattle.array_meaning.specs.Stores.{arrays_of};
ghost use Rattle.site_walk.specs.Inside.Numbers.{array_at};

use array_eval::Layout;
use array_tree::Arrays;

/// The index of the array that a cell belongs to; the number of arrays after the last cell.
pub(crate) fn number_at(layout: &Layout, cell: usize) -> usize
    ensures { result ≡ array_at layout.now cell }
{
    number_among(layout.arrays(), cell)
}

// The same, declaration by declaration.
fn number_among(arrays: &Arrays, cell: usize) -> usize
    ensures { result ≡ array_at (arrays_of (declarations_of arrays.now)) cell }
{
    let mut rest = cell;
    for (number, array) in arrays.declarations.iter().enumerate() {
        let length = array.length.unsigned_abs() as usize;
        if rest < length {
            return number;
        }
        rest -= length;
    }
    arrays.declarations.len()
}
