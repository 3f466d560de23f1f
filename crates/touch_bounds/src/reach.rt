//! The cells to which an index leads.
ghost use Rattle.std.specs.Prelude.{◌≤◌, IfSome};
ghost use Rattle.array_tree.specs.Trees.{expression_of};
ghost use Rattle.array_meaning.specs.Bounds.{most_cells};
ghost use Rattle.touch_bounds.specs.Ranges.{bounds_of};
ghost use Rattle.touch_bounds.specs.Touches.{AreCellsWithin, IsReachOf};

use crate::expression::interval_of;
use crate::interval::Interval;
use crate::ranges::Ranges;
use crate::touch::Stretch;
use array_eval::{Layout, Place, is_dynamic};
use array_tree::{Expr, Name};

// The cells of an array at the numbers of an interval, if all are inside the array.
fn cells_within(place: Place, within: Interval) -> Option<Stretch>
    requires base { place.base ≤ most_cells }
    requires length { place.length ≤ most_cells }
    ensures { IfSome result (λ cells. AreCellsWithin place.base place.length within cells) }
{
    let inside = 0 <= within.least
        && within.least <= within.greatest
        && within.greatest < place.length as i64;
    if !inside {
        return None;
    }
    Some(Stretch {
        from: place.base + within.least as usize,
        to: place.base + within.greatest as usize + 1,
    })
}

/// The cells to which an index of an array leads, for any values of the variables between their bounds. `None` if the index may
/// be outside the array. A dynamic index leads to every cell.
pub(crate) fn reach(layout: &Layout, array: &Name, index: &Expr, ranges: &Ranges) -> Option<Stretch>
    ensures { IfSome result (λ cells.
        IsReachOf layout.now array.now (expression_of index.now) (bounds_of ranges.now) cells) }
{
    let place = layout.place_of(array);
    if is_dynamic(index) {
        return Some(Stretch {
            from: place.base,
            to: place.base + place.length,
        });
    }
    let within = interval_of(index, ranges)?;
    cells_within(place, within)
}
