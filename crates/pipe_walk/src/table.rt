//! The touches of pieces, cell by cell and array by array.
ghost use Rattle.std.specs.Prelude.{◌≡◌, ℕ, false, IfOk};
ghost use Rattle.pipe_walk.specs.Inside.Tables.{added, cleared, past_in, IsFor, IsSettled};

use crate::cells::{Cells, add};
use crate::owners::owners_of;
use crate::touch::{Touch, UNTOUCHED};
use array_eval::Layout;
use std::alloc::{AllocError, Global};
use std::marker::Model;

/// The touches of a phase's pieces, and of the earlier phases. A static index marks a cell, and a dynamic one all cells of an
/// array by one mark.
#[derive(Debug, Drop)]
pub(crate) struct Table {
    // For each cell, the touches by static indexes in the current phase, and its past in the earlier phases.
    cells: Cells,
    // For each array, the touches by dynamic indexes in the current phase.
    everywhere: Vec<Touch>,
    // For each cell, the index of its array.
    owners: Vec<usize>,
    // Whether cells that aren't listed may have a touch or a past: since the construct began, an array was touched everywhere, or a
    // cell couldn't be listed.
    has_unlisted: bool,
}

impl Model for Table {
    ghost use Rattle.pipe_walk.specs.Inside.Tables.{TableParts};
    ghost use Rattle.pipe_walk.specs.Inside.Cells.{IsListedUnless};

    ghost Value = { TableParts };

    ghost view = { λ table. record { cells = table.cells.touches; everywhere = table.everywhere.items; past = table.cells.past; owners = table.owners.items } };

    ghost invariant = { λ table. IsListedUnless table.has_unlisted table.everywhere.items table.cells };
}

impl Table {
    /// A table for the arrays of a layout.
    pub(crate) fn new(alloc: Global, layout: &Layout) -> Result<Table, AllocError>
        ensures { IfOk result (IsFor layout.now) }
    {
        Ok(Table {
            cells: Cells::new(alloc, layout.cells())?,
            everywhere: vec![in alloc; UNTOUCHED; layout.count()]?,
            owners: owners_of(alloc, layout)?,
            has_unlisted: false,
        })
    }

    /// Begins a construct, without an earlier phase.
    pub(crate) fn clear(&mut self)
        ensures { self.new ≡ cleared self.old }
    {
        if self.has_unlisted {
            self.cells.clear_all();
        } else {
            self.cells.clear_listed();
        }
        self.everywhere.fill(UNTOUCHED);
        self.has_unlisted = false;
    }

    /// Adds the touch of a cell by a static index.
    pub(crate) fn touch_cell(&mut self, cell: usize, more: Touch)
        ensures { self.new ≡ record self.old { cells = added cell more self.old.cells } }
    {
        if let Err(_) = self.cells.touch(cell, more) {
            self.has_unlisted = true;
        }
    }

    /// Adds the touch of all cells of an array by a dynamic index.
    pub(crate) fn touch_array(&mut self, number: usize, more: Touch)
        ensures { self.new ≡ record self.old { everywhere = added number more self.old.everywhere } }
    {
        add(&mut self.everywhere, number, more);
        self.has_unlisted = true;
    }

    /// Ends the current phase.
    pub(crate) fn settle(&mut self)
        ensures { IsSettled self.old self.new }
    {
        if self.has_unlisted {
            self.cells.settle_all(&self.everywhere, &self.owners);
        } else {
            self.cells.settle_listed();
        }
        self.everywhere.fill(UNTOUCHED);
    }

    /// Whether two pieces of different phases crossed on a cell.
    pub(crate) fn is_crossed(&self, cell: usize) -> bool
        ensures { result ≡ (past_in self.now.past cell).crossed }
    {
        self.cells.is_crossed(cell)
    }

    /// Whether pieces may have crossed on some cell.
    pub(crate) fn may_cross(&self) -> bool
        ensures { result ≡ false → (cell : ℕ) → (past_in self.now.past cell).crossed ≡ false }
    {
        self.cells.may_cross()
    }
}
