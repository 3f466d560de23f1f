//! Pages of cells, which several stores can share.
ghost use Rattle.std.specs.Prelude.{◌≡◌, ◌<◌, ◌≤◌, IfOk, OnOk, OnErr, length, pos};
ghost use Rattle.array_meaning.specs.Stores.{at_cell, written};
ghost use Rattle.array_eval.specs.Equal.{store_eq};
ghost use Rattle.array_eval.specs.Pages.{cells_on_page, padded};

use std::alloc::{AllocError, Global};
use std::marker::Model;
use std::sync::Arc;

/// The number of cells of a page.
pub(crate) const CELLS: usize = 64;

/// The values of the cells of a page. A copy shares them until one of the two is written.
///
/// Contracts see a page as the list of its values.
#[derive(Debug, Drop)]
pub(crate) struct Page {
    cells: Arc<[i64; CELLS]>,
}

impl Model for Page {
    ghost use Rattle.std.specs.Prelude.{◌≡◌, List, ℤ, length};
    ghost use Rattle.std.specs.Arc.{arc_value};
    ghost use Rattle.array_eval.specs.Pages.{cells_on_page};

    ghost Value = { List ℤ };

    ghost view = { λ page. arc_value page.cells };

    ghost invariant = { λ page. length (arc_value page.cells) ≡ cells_on_page };
}

impl Page {
    /// A page of these cells, followed by zeros. There must be at most as many cells as a page has.
    #[tactic(auto, using(crate::proofs::PageLemmas::zeros_behind))]
    pub(crate) fn new(alloc: Global, cells: &[i64]) -> Result<Page, AllocError>
        requires { length cells.now ≤ cells_on_page }
        ensures { IfOk result (λ page. page ≡ padded cells.now) }
    {
        let mut own = [0; CELLS];
        own[..cells.len()].copy_from_slice(cells);
        Ok(Page {
            cells: Arc::new(alloc, own)?,
        })
    }

    /// The page itself, shared.
    pub(crate) fn copy(&self) -> Result<Page, AllocError>
        ensures { IfOk result (λ page. page ≡ self.now) }
    {
        Ok(Page {
            cells: Arc::try_clone(&self.cells)?,
        })
    }

    /// The value of a cell.
    pub(crate) fn get(&self, cell: usize) -> i64
        requires { cell < cells_on_page }
        ensures { result ≡ at_cell self.now cell }
    {
        self.cells[cell]
    }

    /// The values.
    pub(crate) fn cells(&self) -> &[i64]
        ensures same { result.now ≡ self.now }
        ensures whole { length result.now ≡ cells_on_page }
    {
        self.cells.as_slice()
    }

    /// Writes a cell, in place if no copy shares the page, and otherwise in a copy of its own.
    pub(crate) fn put(&mut self, alloc: Global, cell: usize, value: i64) -> Result<(), AllocError>
        requires { cell < cells_on_page }
        ensures written { OnOk result (self.new ≡ written self.old cell value) }
        ensures unchanged { OnErr result (self.new ≡ self.old) }
    {
        match Arc::get_mut(&mut self.cells) {
            Some(own) => own[cell] = value,
            None => {
                let mut own = *self.cells;
                own[cell] = value;
                self.cells = Arc::new(alloc, own)?;
            }
        }
        Ok(())
    }
}

impl PartialEq for Page {
    ghost use Rattle.std.proofs.Common.{refl};
    ghost use Rattle.array_tree.specs.EqualLaws.{equal_laws};
    ghost use Rattle.array_eval.specs.Equal.{store_eq};
    ghost use Rattle.array_eval.specs.EqualLaws.{store_decides};

    ghost eq = { store_eq };

    ghost laws = { equal_laws (λ page. page) store_eq (λ a b. (store_decides a b).0) (λ a. (store_decides a a).1 refl) };

    fn eq(&self, other: &Page) -> bool {
        are_same(self.cells(), other.cells())
    }
}

// Whether two pages have the same cells. Why it compares all cells, and doesn't end at the first that differ: so a compiler can
// compare several at once.
fn are_same(a: &[i64], b: &[i64]) -> bool
    requires a { length a.now ≡ cells_on_page }
    requires b { length b.now ≡ cells_on_page }
    ensures { result ≡ store_eq a.now b.now }
{
    let mut same = true;
    for cell in 0..CELLS {
        same &= a[cell] == b[cell];
    }
    same
}
