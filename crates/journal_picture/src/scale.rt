//! Where things stand in the picture, in its units.
ghost use Rattle.std.specs.Prelude.{◌≡◌, ◌≤◌, ◌*◌};
ghost use Rattle.journal_picture.specs.Views.{view_of};
ghost use Rattle.journal_picture.specs.Scale.{bar_y, entry_x, every, is_shown, lane_y, level_of, per_row, place_x, row_height, row_of, row_y, rows_bottom, rows_of, slot_of, step_of, strip_y, width_of};

use crate::drawing::Drawing;
use crate::tree::depth_of;

impl<'x> Drawing<'x> {
    /// The width of a place.
    pub(crate) fn step(&self) -> usize
        ensures same { result ≡ step_of (view_of self.now) }
        ensures some { 8 ≤ result }
        ensures few { result ≤ 72 }
    {
        8usize.max(72usize.min(8328 / (self.list.len() + 1)))
    }

    /// How many places a row has.
    pub(crate) fn per_row(&self) -> usize
        ensures same { result ≡ per_row (view_of self.now) }
        ensures some { 1 ≤ result }
        ensures few { result ≤ 173 }
    {
        1388 / self.step()
    }

    /// The row of a place.
    pub(crate) fn row_of(&self, place: usize) -> usize
        ensures same { result ≡ row_of (view_of self.now) place }
        ensures few { result ≤ place }
    {
        place / self.per_row()
    }

    /// How many rows the list has.
    pub(crate) fn rows(&self) -> usize
        ensures same { result ≡ rows_of (view_of self.now) }
        ensures few { result ≤ 65536 }
    {
        self.row_of(self.list.len()) + 1
    }

    /// Whether a row is shown.
    pub(crate) fn is_shown(&self, row: usize) -> bool
        requires { row ≤ 5000000000 }
        ensures { result ≡ is_shown (view_of self.now) row }
    {
        row < 16 || self.rows() <= row + 16
    }

    /// The position of a row that is shown.
    pub(crate) fn slot_of(&self, row: usize) -> usize
        ensures same { result ≡ slot_of (view_of self.now) row }
        ensures few { result ≤ 31 }
    {
        if row < 16 {
            return row;
        }
        31usize.min(row.saturating_sub(self.rows().saturating_sub(32)))
    }

    /// The left end of a place.
    pub(crate) fn place_x(&self, place: usize) -> usize
        ensures same { result ≡ place_x (view_of self.now) place }
        ensures bound { result ≤ 4000000000000 }
    {
        56 + times(self.step(), place % self.per_row())
    }

    /// The right end of a place.
    pub(crate) fn entry_x(&self, place: usize) -> usize
        ensures { result ≡ entry_x (view_of self.now) place }
    {
        self.place_x(place) + self.step()
    }

    /// The height of a row.
    pub(crate) fn row_height(&self) -> usize
        ensures same { result ≡ row_height (view_of self.now) }
        ensures bound { result ≤ 800 }
    {
        96 + 44 * self.plan().harts() as usize
    }

    /// The upper end of a row.
    pub(crate) fn row_y(&self, row: usize) -> usize
        ensures same { result ≡ row_y (view_of self.now) row }
        ensures bound { result ≤ 4000000000000 }
    {
        76 + times(self.row_height(), self.slot_of(row))
    }

    /// The upper end of a row's strip.
    pub(crate) fn strip_y(&self, row: usize) -> usize
        ensures same { result ≡ strip_y (view_of self.now) row }
        ensures bound { result ≤ 5000000000000 }
    {
        self.row_y(row) + 44 + 44 * self.plan().harts() as usize
    }

    /// How high a site stands; deeper ones stand higher, down to depth 3.
    pub(crate) fn level_of(&self, site: u16) -> usize
        ensures same { result ≡ level_of (view_of self.now) site }
        ensures few { result ≤ 3 }
    {
        3usize.min(depth_of(self.plan(), site) as usize)
    }

    /// The lower end of all rows.
    pub(crate) fn rows_bottom(&self) -> usize
        ensures same { result ≡ rows_bottom (view_of self.now) }
        ensures bound { result ≤ 4000000000000 }
    {
        76 + times(self.row_height(), 32usize.min(self.rows()))
    }

    /// The width of the picture.
    pub(crate) fn width(&self) -> usize
        ensures { result ≡ width_of (view_of self.now) }
    {
        700usize.max(112 + times(self.step(), self.per_row().min(self.list.len() + 1)))
    }

    /// Every how many entries there is a number.
    pub(crate) fn every(&self) -> usize
        ensures same { result ≡ every (view_of self.now) }
        ensures some { 1 ≤ result }
    {
        1 + 36 / self.step()
    }
}

/// A width, so many times.
pub(crate) fn times(width: usize, count: usize) -> usize
    requires narrow { width ≤ 800 }
    requires few { count ≤ 4294967296 }
    ensures same { result ≡ width * count }
    ensures bound { result ≤ 3435973836800 }
{
    width * count
}

/// The upper end of a hart's lane.
pub(crate) fn lane_y(top: usize, hart: u8) -> usize
    requires { top ≤ 4000000000000 }
    ensures same { result ≡ lane_y top hart }
    ensures bound { result ≤ 5000000000000 }
{
    top + 40 + 44 * hart as usize
}

/// The upper end of a bar.
pub(crate) fn bar_y(top: usize, hart: u8, level: usize) -> usize
    requires high { top ≤ 4000000000000 }
    requires few { level ≤ 3 }
    ensures same { result ≡ bar_y top hart level }
    ensures bound { result ≤ 6000000000000 }
{
    lane_y(top, hart) + 26 - 6 * level
}
