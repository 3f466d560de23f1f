//! The positions to which arrays and indexes lead.
ghost use Rattle.std.specs.Prelude.{◌≡◌, ◌≤◌, ◌<◌, ◌^◌, List, [], ℤ};
ghost use Rattle.array_tree.specs.Trees.{declarations_of, expression_of};
ghost use Rattle.array_meaning.specs.Bounds.{most_cells};
ghost use Rattle.array_meaning.specs.Stores.{arrays_of, AreSized, cell_of, cells_of, at_cell, is_dynamic, place_of};

use crate::layout::Layout;
use crate::value::is_dynamic;
use array_tree::{Arrays, Expr, Name};

/// The cell to which an index of an array leads, if its value is `value`.
#[inline]
pub(crate) fn cell(layout: &Layout, name: &Name, index: &Expr, value: i64) -> usize
    ensures { result ≡ cell_of layout.now name.now (is_dynamic (expression_of index.now)) value }
{
    let place = layout.place_of(name);
    place.base + place_in(place.length, index, value)
}

// The position in an array of this length.
//
// Why: a walk through the index finds whether it is dynamic, which matters only for a value outside the array.
#[inline]
fn place_in(length: usize, index: &Expr, value: i64) -> usize
    requires some { 0 < length }
    requires small { length ≤ most_cells }
    ensures place { result ≡ place_of length (is_dynamic (expression_of index.now)) value }
    ensures small { result ≤ 2 ^ 63 }
{
    if 0 <= value && value < length as i64 {
        value as usize
    } else {
        place_outside(length, is_dynamic(index), value)
    }
}

/// The position to which a value outside an array of this length leads.
#[inline(never)]
pub(crate) fn place_outside(length: usize, is_dynamic: bool, value: i64) -> usize
    requires some { 0 < length }
    requires small { length < 2 ^ 63 }
    ensures place { result ≡ place_of length is_dynamic value }
    ensures small { result ≤ 2 ^ 63 }
{
    if is_dynamic {
        value.rem_euclid(length as i64) as usize
    } else {
        value.unsigned_abs() as usize
    }
}

/// The number of cells of the arrays.
pub fn count_cells(arrays: &Arrays) -> usize
    requires { AreSized (arrays_of (declarations_of arrays.now)) }
    ensures { result ≡ cells_of (arrays_of (declarations_of arrays.now)) }
{
    let mut count = 0;
    for array in &arrays.declarations {
        count += array.length.unsigned_abs() as usize;
    }
    count
}

/// Cells that an expression can read.
pub trait Cells {
    /// Their values.
    ghost values: { Self → List ℤ };

    /// The value of a cell; 0 after the last cell.
    fn read(&self, cell: usize) -> i64
        ensures { result ≡ at_cell (values self.now) cell };
}

/// No cells, for expressions that read none: each would be 0.
#[derive(Clone, Copy, Debug, Drop)]
pub struct NoCells;

impl Cells for NoCells {
    ghost values = { λ none. [] };

    #[inline]
    fn read(&self, _cell: usize) -> i64 {
        0
    }
}
