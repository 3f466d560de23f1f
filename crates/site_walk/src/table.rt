//! The touches of the pieces of a round, cell by cell and array by array.
ghost use Rattle.std.specs.Prelude.{◌≡◌, IfOk, length};
ghost use Rattle.array_meaning.specs.Stores.{cells_of};
ghost use Rattle.site_walk.specs.Inside.Marks.{with_static, with_dynamic, nothing_done, cleared};

use crate::layer::Layer;
use crate::touched::Touched;
use array_eval::Layout;
use std::alloc::{AllocError, Global};

/// The touches of the pieces of a round. A static index marks a cell, and a dynamic one all cells of an array by one mark.
#[derive(Debug, Drop)]
pub(crate) struct Table {
    /// For each cell, the touches by static indexes.
    pub(crate) cells: Layer,
    /// For each array, the touches by dynamic indexes.
    pub(crate) everywhere: Layer,
    /// For each array, the touches by static indexes of cells that none of them writes.
    pub(crate) read: Layer,
    /// For each array, the touches by static indexes of cells that one of them writes.
    pub(crate) written: Layer,
    /// Whether two pieces may overlap. If false, none do.
    pub(crate) suspect: bool,
}

impl Table {
    /// A table for the arrays of a layout, without a touch.
    pub(crate) fn new(alloc: Global, layout: &Layout) -> Result<Table, AllocError>
        ensures { IfOk result (λ table. table
            ≡ nothing_done (cells_of layout.now) (length layout.now)) }
    {
        let count = layout.count();
        Ok(Table {
            cells: Layer::new(alloc, layout.cells())?,
            everywhere: Layer::new(alloc, count)?,
            read: Layer::new(alloc, count)?,
            written: Layer::new(alloc, count)?,
            suspect: false,
        })
    }

    /// Begins a round, without a touch.
    pub(crate) fn clear(&mut self)
        ensures { self.new ≡ cleared self.old }
    {
        self.cells.clear();
        self.everywhere.clear();
        self.read.clear();
        self.written.clear();
        self.suspect = false;
    }

    /// Adds the touch of a cell by a static index of an array, which may be outside the array.
    #[tactic(auto, unfolding(crate::specs::Inside::Marks::with_static))]
    pub(crate) fn touch_cell(&mut self, number: usize, cell: usize, inside: bool, touch: Touched)
        ensures { self.new ≡ with_static number cell inside touch self.old }
    {
        let all = self.cells.add(cell, touch);
        let clash = all.with(self.everywhere.get(number)).clashes();
        self.suspect = self.suspect || !inside || clash;
        if all.written {
            self.written.add(number, all);
        } else {
            self.read.add(number, all);
        }
    }

    /// Adds the touch of all cells of an array by a dynamic index.
    #[tactic(auto, unfolding(crate::specs::Inside::Marks::with_dynamic))]
    pub(crate) fn touch_array(&mut self, number: usize, touch: Touched)
        ensures { self.new ≡ with_dynamic number touch self.old }
    {
        let all = self.everywhere.add(number, touch);
        let with_read = all.with(self.read.get(number)).clashes();
        let with_written = all.with(self.written.get(number)).clashes();
        self.suspect = self.suspect || with_read || with_written;
    }
}
