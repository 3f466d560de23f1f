//! Bounds of the cells that statements touch: for each array a stretch of cells that are read and one of cells that are
//! written.
//!
//! If the bounds of an index leave its array, or a name is no array's, the bounds are unknown, and the caller walks the round.
//! So bounds need no premise.
ghost use Rattle.std.specs.Prelude.{◌≡◌, ◌<◌, length};
ghost use Rattle.std.specs.Bool.{OnTrue};
ghost use Rattle.array_tree.specs.Trees.{expression_of};
ghost use Rattle.touch_bounds.specs.Ranges.{bounds_of};
ghost use Rattle.touch_bounds.specs.Touches.{side, touch_at, hull, Widens, IsIndexNoted, AreReadsNoted, IsAssignNoted};

use crate::ranges::Ranges;
use crate::reach::reach;
use crate::touch::{Stretch, Touch};
use array_eval::Layout;
use array_tree::{Expr, Name};

// Adds cells to the recorded stretches of an array. Returns whether the array is one of the program.
fn add_cells(number: usize, writes: bool, cells: Stretch, touches: &mut [Touch]) -> bool
    ensures wider { Widens touches.old touches.new }
    ensures known { OnTrue result (number < length touches.old) }
    ensures added { OnTrue result
        (side (touch_at touches.new number) writes
        ≡ hull (side (touch_at touches.old number) writes) cells) }
{
    if number >= touches.len() {
        return false;
    }
    touches[number] = touches[number].with(writes, cells);
    true
}

// Records an index of an array. Here and below, the result is whether all is known. If not, the record means nothing.
fn note_index(
    layout: &Layout,
    writes: bool,
    array: &Name,
    index: &Expr,
    ranges: &Ranges,
    touches: &mut [Touch],
) -> bool
    requires places { length touches.old ≡ length layout.now }
    ensures wider { Widens touches.old touches.new }
    ensures noted { OnTrue result
        (IsIndexNoted layout.now touches.new (bounds_of ranges.now) writes array.now
        (expression_of index.now)) }
{
    match reach(layout, array, index, ranges) {
        Some(cells) => add_cells(layout.place_of(array).number, writes, cells, touches),
        None => false,
    }
}

/// Records the reads of an expression.
pub(crate) fn note_reads(
    layout: &Layout,
    expr: &Expr,
    ranges: &Ranges,
    touches: &mut [Touch],
) -> bool
    requires places { length touches.old ≡ length layout.now }
    ensures wider { Widens touches.old touches.new }
    ensures noted { OnTrue result
        (AreReadsNoted layout.now touches.new (bounds_of ranges.now) (expression_of expr.now)) }
{
    match expr {
        Expr::Number(_) | Expr::Var(_) => true,
        Expr::Read(array, index) => {
            if !note_reads(layout, index, ranges, touches) {
                return false;
            }
            note_index(layout, false, array, index, ranges, touches)
        }
        Expr::Neg(operand) => note_reads(layout, operand, ranges, touches),
        Expr::Binary(_, left, right) => {
            if !note_reads(layout, left, ranges, touches) {
                return false;
            }
            note_reads(layout, right, ranges, touches)
        }
    }
}

/// Records an assignment.
pub(crate) fn note_assign(
    layout: &Layout,
    array: &Name,
    index: &Expr,
    value: &Expr,
    ranges: &Ranges,
    touches: &mut [Touch],
) -> bool
    requires places { length touches.old ≡ length layout.now }
    ensures wider { Widens touches.old touches.new }
    ensures noted { OnTrue result
        (IsAssignNoted layout.now touches.new (bounds_of ranges.now) array.now
        (expression_of index.now) (expression_of value.now)) }
{
    if !note_reads(layout, index, ranges, touches) {
        return false;
    }
    if !note_reads(layout, value, ranges, touches) {
        return false;
    }
    note_index(layout, true, array, index, ranges, touches)
}
