//! Cells on pages.
ghost use Rattle.std.specs.Prelude.{◌≡◌, ◌↔◌, ◌*◌, ◌<◌, ◌≤◌, IsTrue, false, IfOk, OnOk, OnErr, length, replicate, take, pos};
ghost use Rattle.array_meaning.specs.Stores.{at_cell, written};
ghost use Rattle.array_eval.specs.Equal.{store_eq};
ghost use Rattle.array_eval.specs.Copies.{over_store};
ghost use Rattle.array_eval.specs.Pages.{cells_on_page, cells_on, page_at, padded, pages_for, ArePages, AreChanged, IsPageOf};

use crate::copies::Copies;
use crate::page::{CELLS, Page};
use std::alloc::{AllocError, Global};
use std::marker::Model;

/// The value of each cell, on pages, which a copy shares until a cell of a page is written.
///
/// Contracts see the list of the values.
#[derive(Debug, Drop)]
pub(crate) struct Paged {
    count: usize,
    pages: Vec<Page>,
}

impl Model for Paged {
    ghost use Rattle.std.specs.Prelude.{List, ℤ, take};
    ghost use Rattle.array_eval.specs.Pages.{cells_on, ArePages};

    ghost Value = { List ℤ };

    ghost view = { λ paged. take paged.count (cells_on paged.pages.items) };

    ghost invariant = { λ paged. ArePages paged.count paged.pages.items };
}

impl Paged {
    /// `cells` cells, each 0.
    pub(crate) fn zero(alloc: Global, cells: u16) -> Result<Paged, AllocError>
        ensures { IfOk result (λ paged. paged ≡ replicate cells (pos 0)) }
    {
        let count = usize::from(cells);
        let page = Page::new(alloc, &[])?;
        Ok(Paged {
            count,
            pages: repeat(alloc, &page, count.div_ceil(CELLS))?,
        })
    }

    /// The value of a cell.
    #[inline]
    pub(crate) fn get(&self, cell: usize) -> i64
        requires { cell < length self.now }
        ensures { result ≡ at_cell self.now cell }
    {
        self.pages[cell / CELLS].get(cell % CELLS)
    }

    /// The number of cells.
    pub(crate) fn count(&self) -> usize
        ensures { result ≡ length self.now }
    {
        self.count
    }

    /// The cells of a page, including those after the last cell of the store.
    pub(crate) fn page(&self, number: usize) -> &[i64]
        requires { number < pages_for (length self.now) }
        ensures whole { length result.now ≡ cells_on_page }
        ensures same { IsPageOf self.now number result.now }
    {
        self.pages[number].cells()
    }

    /// Writes a cell. If an allocation fails, nothing changes.
    pub(crate) fn put(&mut self, alloc: Global, cell: u16, value: i64) -> Result<(), AllocError>
        requires { cell < length self.old }
        ensures written { OnOk result (self.new ≡ written self.old cell value) }
        ensures unchanged { OnErr result (self.new ≡ self.old) }
    {
        let cell = usize::from(cell);
        self.pages[cell / CELLS].put(alloc, cell % CELLS, value)
    }

    /// The same cells, on the same pages.
    pub(crate) fn copy(&self, alloc: Global) -> Result<Paged, AllocError>
        ensures { IfOk result (λ paged. paged ≡ self.now) }
    {
        Ok(Paged {
            count: self.count,
            pages: share(alloc, &self.pages)?,
        })
    }

    /// The values of the copies over these cells. Pages that aren't marked as changed are shared.
    pub(crate) fn changed_to(
        &self,
        alloc: Global,
        copies: &Copies,
        changed: &[bool],
    ) -> Result<Paged, AllocError>
        requires copies { length copies.now ≡ pages_for (length self.now) }
        requires changed { AreChanged changed.now self.now (over_store self.now copies.now).cells }
        ensures { IfOk result (λ paged. paged ≡ (over_store self.now copies.now).cells) }
    {
        Ok(Paged {
            count: self.count,
            pages: self.lay_out(alloc, copies, changed)?,
        })
    }

    // The pages of these values. Those that aren't marked as changed are the same.
    fn lay_out(
        &self,
        alloc: Global,
        copies: &Copies,
        changed: &[bool],
    ) -> Result<Vec<Page>, AllocError>
        requires copies { length copies.now ≡ pages_for (length self.now) }
        requires changed { AreChanged changed.now self.now (over_store self.now copies.now).cells }
        ensures pages { IfOk result (λ pages. ArePages (length self.now) pages.items) }
        ensures same { IfOk result (λ pages. take (length self.now) (cells_on pages.items)
            ≡ (over_store self.now copies.now).cells) }
    {
        let mut pages = Vec::with_capacity(alloc, self.pages.len())?;
        for number in 0..self.pages.len() {
            pages.push(self.page_over(alloc, copies, changed, number)?)?;
        }
        Ok(pages)
    }

    // One page of these values.
    fn page_over(
        &self,
        alloc: Global,
        copies: &Copies,
        changed: &[bool],
        number: usize,
    ) -> Result<Page, AllocError>
        requires copies { length copies.now ≡ pages_for (length self.now) }
        requires changed { AreChanged changed.now self.now (over_store self.now copies.now).cells }
        requires number { number < pages_for (length self.now) }
        ensures { IfOk result
            (λ page. page ≡ padded (page_at number (over_store self.now copies.now).cells)) }
    {
        match copies.get(number) {
            Some(own) if changed[number] => {
                let few = (self.count - CELLS * number).min(CELLS);
                Page::new(alloc, &own.cells()[..few])
            }
            _ => self.pages[number].copy(),
        }
    }

    /// The cells, one after another.
    pub(crate) fn to_cells(&self, alloc: Global) -> Result<Vec<i64>, AllocError>
        ensures { IfOk result (λ cells. cells.items ≡ self.now) }
    {
        let mut cells = Vec::with_capacity(alloc, self.pages.len().saturating_mul(CELLS))?;
        for page in &self.pages {
            cells.extend_from_slice(page.cells())?;
        }
        cells.truncate(self.count);
        Ok(cells)
    }
}

impl PartialEq for Paged {
    ghost use Rattle.std.proofs.Common.{refl};
    ghost use Rattle.array_tree.specs.EqualLaws.{equal_laws};
    ghost use Rattle.array_eval.specs.Equal.{store_eq};
    ghost use Rattle.array_eval.specs.EqualLaws.{store_decides};

    ghost eq = { store_eq };

    ghost laws = { equal_laws (λ paged. paged) store_eq (λ a b. (store_decides a b).0) (λ a. (store_decides a a).1 refl) };

    fn eq(&self, other: &Paged) -> bool
        ensures tested { result ≡ store_eq self.now other.now }
        ensures same { IsTrue result ↔ (self.now ≡ other.now) }
    {
        has_same_cells(self, other)
    }
}

// Equality itself, apart from the impl.
fn has_same_cells(a: &Paged, b: &Paged) -> bool
    ensures { IsTrue result ↔ (a.now ≡ b.now) }
{
    a.count == b.count && a.pages == b.pages
}

// The same page `count` times.
fn repeat(alloc: Global, page: &Page, count: usize) -> Result<Vec<Page>, AllocError>
    ensures { IfOk result (λ pages. pages.items ≡ replicate count page.now) }
{
    let mut pages = Vec::with_capacity(alloc, count)?;
    for _ in 0..count {
        pages.push(page.copy()?)?;
    }
    Ok(pages)
}

// The same pages, shared.
fn share(alloc: Global, pages: &[Page]) -> Result<Vec<Page>, AllocError>
    ensures { IfOk result (λ shared. shared.items ≡ pages.now) }
{
    let mut shared = Vec::with_capacity(alloc, pages.len())?;
    for page in pages {
        shared.push(page.copy()?)?;
    }
    Ok(shared)
}
