//! The pages that a writer of a store has copied for itself.
ghost use Rattle.std.specs.Prelude.{◌≡◌, ◌<◌, ◌++◌, ◌∷◌, [], IfOk, IfSome, None, Some, IsSome, option_map, length, replicate, slice_index_or, slice_set, vec_capacity};
ghost use Rattle.array_meaning.specs.Stores.{at_cell};
ghost use Rattle.array_eval.specs.Copies.{mark_at, changed_copy, IsWhole};
ghost use Rattle.array_eval.specs.Pages.{cells_on_page};
ghost use Rattle.array_eval.specs.Traces.{fresh, noted};

use crate::page::CELLS;
use std::alloc::{AllocError, Global};
use std::marker::Model;

/// The values of a page's cells, and a mark for each that was written since the page was copied.
///
/// Contracts see it as the list of values and the list of marks.
#[derive(Debug, Drop)]
pub(crate) struct PageCopy {
    cells: [i64; CELLS],
    marks: [bool; CELLS],
}

impl Model for PageCopy {
    ghost use Rattle.array_eval.specs.Copies.{IsWhole};
    ghost use Rattle.array_eval.specs.Traces.{Trace};

    ghost Value = { Trace };

    ghost view = { λ page. record { cells = page.cells; marks = page.marks } };

    ghost invariant = { λ page. IsWhole (record { cells = page.cells; marks = page.marks }) };
}

impl PageCopy {
    /// A copy of a page, of which no cell is written yet.
    fn new(cells: &[i64]) -> PageCopy
        requires { length cells.now ≡ cells_on_page }
        ensures { result ≡ fresh cells.now }
    {
        let mut own = [0; CELLS];
        own.copy_from_slice(cells);
        PageCopy {
            cells: own,
            marks: [false; CELLS],
        }
    }

    /// The values.
    pub(crate) fn cells(&self) -> &[i64]
        ensures same { result.now ≡ self.now.cells }
        ensures whole { length result.now ≡ cells_on_page }
    {
        self.cells.as_slice()
    }

    /// The value of a cell.
    #[inline]
    pub(crate) fn get(&self, place: usize) -> i64
        requires { place < cells_on_page }
        ensures { result ≡ at_cell self.now.cells place }
    {
        self.cells[place]
    }

    /// Whether a cell was written.
    #[inline]
    pub(crate) fn is_marked(&self, place: usize) -> bool
        requires { place < cells_on_page }
        ensures { result ≡ mark_at self.now.marks place }
    {
        self.marks[place]
    }

    /// Writes a cell, and returns whether it was written before.
    #[inline]
    fn write(&mut self, place: usize, value: i64) -> bool
        requires { place < cells_on_page }
        ensures noted { self.new ≡ noted place value self.old }
        ensures before { result ≡ mark_at self.old.marks place }
        ensures whole { IsWhole self.old }
    {
        self.cells[place] = value;
        // Why a mark that is set isn't written again: another thread may use the same cache line.
        let before = self.marks[place];
        if !before {
            self.marks[place] = true;
        }
        before
    }
}

/// Copies of pages, with a slot for each page and room for a copy of each: so copying a page does not allocate.
///
/// Contracts see for each page its copy, if it has one.
#[derive(Debug, Drop)]
pub(crate) struct Copies {
    // For each page 0, or one more than the index of its copy.
    slots: Vec<usize>,
    pages: Vec<PageCopy>,
}

impl Model for Copies {
    ghost use Rattle.std.specs.Prelude.{◌≤◌, List, Option, length, map, vec_capacity};
    ghost use Rattle.array_eval.specs.Copies.{copy_at, AreSlots};
    ghost use Rattle.array_eval.specs.Traces.{Trace};

    ghost Value = { List (Option Trace) };

    ghost view = { λ copies. map (copy_at copies.pages.items) copies.slots.items };

    ghost invariant = { λ copies. AreSlots copies.slots.items (length copies.pages.items)
        × (length copies.slots.items ≤ vec_capacity copies.pages) };
}

impl Copies {
    /// No copies, of so many pages.
    pub(crate) fn none(alloc: Global, count: usize) -> Result<Copies, AllocError>
        ensures { IfOk result (λ copies. copies ≡ replicate count None) }
    {
        Ok(Copies {
            slots: vec![in alloc; 0; count]?,
            pages: Vec::with_capacity(alloc, count)?,
        })
    }

    /// The copy of a page, if it has one.
    #[inline]
    pub(crate) fn get(&self, number: usize) -> Option<&PageCopy>
        requires { number < length self.now }
        ensures { option_map (λ page. page.now) result ≡ slice_index_or self.now number None }
    {
        let slot = self.slots[number];
        if slot == 0 {
            None
        } else {
            Some(&self.pages[slot - 1])
        }
    }

    /// Copies a page that has no copy yet.
    #[inline(never)]
    pub(crate) fn add(&mut self, number: usize, cells: &[i64])
        requires inside { number < length self.old }
        requires none { slice_index_or self.old number None ≡ None }
        requires whole { length cells.now ≡ cells_on_page }
        ensures { self.new ≡ slice_set self.old number (Some (fresh cells.now)) }
    {
        let place = self.pages.len();
        push_page(&mut self.pages, PageCopy::new(cells));
        self.slots[number] = place + 1;
    }

    /// Writes a cell in the copy of a page, and returns whether it was written before.
    #[inline]
    pub(crate) fn write(&mut self, number: usize, place: usize, value: i64) -> bool
        requires copied { IsSome (slice_index_or self.old number None) }
        requires place { place < cells_on_page }
        ensures noted { self.new ≡ changed_copy (noted place value) number self.old }
        ensures before { option_map (λ page. mark_at page.marks place)
            (slice_index_or self.old number None) ≡ Some result }
        ensures whole { IfSome (slice_index_or self.old number None) IsWhole }
    {
        let slot = self.slots[number];
        self.pages[slot - 1].write(place, value)
    }
}

// Appends a page. There must be room for it.
fn push_page(pages: &mut Vec<PageCopy>, page: PageCopy)
    requires { length pages.old.items < vec_capacity pages.old }
    ensures pages { pages.new.items ≡ pages.old.items ++ page ∷ [] }
    ensures room { vec_capacity pages.new ≡ vec_capacity pages.old }
{
    // Why: a push isn't known to keep the room.
    let end = pages.len();
    let _ = pages.insert(end, page);
}
