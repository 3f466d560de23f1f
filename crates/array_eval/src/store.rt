//! Stores: the value of each cell.
ghost use Rattle.std.specs.Prelude.{◌≡◌, ◌↔◌, ◌<◌, IsTrue, All, IfOk, OnOk, OnErr, length, replicate, pos};
ghost use Rattle.array_meaning.specs.Stores.{after, at_cell, written};
ghost use Rattle.array_eval.specs.Equal.{store_eq};
ghost use Rattle.array_eval.specs.Copies.{over_store};
ghost use Rattle.array_eval.specs.Pages.{cells_on_page, pages_for, AreChanged, IsPageOf};

use crate::copies::Copies;
use crate::overlay::Overlay;
use crate::paged::Paged;
use std::alloc::{AllocError, Global};
use std::marker::Model;
use std::sync::Arc;

/// The value of each cell. The cells of the arrays are numbered from 0 in order of declaration.
///
/// Contracts see a store as the list of its values. A copy shares them all until one of the two is written, and then each page
/// without a write.
#[derive(Debug, Drop)]
pub struct Store {
    alloc: Global,
    // Why the list of pages is behind an `Arc`, as each page is: copying costs the same for a store of any size.
    paged: Arc<Paged>,
}

impl Model for Store {
    ghost use Rattle.std.specs.Prelude.{List, ℤ};
    ghost use Rattle.std.specs.Arc.{arc_value};

    ghost Value = { List ℤ };

    ghost view = { λ store. arc_value store.paged };
}

impl Store {
    /// A store of `cells` cells, each 0.
    ///
    /// # Errors
    ///
    /// `AllocError` if an allocation fails.
    ///
    /// # Memory
    ///
    /// It allocates one page and a list of pages.
    pub fn zero(alloc: Global, cells: u16) -> Result<Store, AllocError>
        ensures { IfOk result (λ store. store ≡ replicate cells (pos 0)) }
    {
        Ok(Store {
            alloc,
            paged: Arc::new(alloc, Paged::zero(alloc, cells)?)?,
        })
    }

    /// The value of a cell. The cell must exist.
    pub fn get(&self, cell: u16) -> i64
        requires { cell < length self.now }
        ensures { result ≡ at_cell self.now cell }
    {
        self.read(usize::from(cell))
    }

    /// The same.
    #[inline]
    pub(crate) fn read(&self, cell: usize) -> i64
        requires { cell < length self.now }
        ensures { result ≡ at_cell self.now cell }
    {
        self.paged.get(cell)
    }

    /// The number of cells.
    pub(crate) fn count(&self) -> usize
        ensures { result ≡ length self.now }
    {
        self.paged.count()
    }

    /// The cells of a page, including those after the last cell of the store.
    pub(crate) fn page(&self, number: usize) -> &[i64]
        requires { number < pages_for (length self.now) }
        ensures whole { length result.now ≡ cells_on_page }
        ensures same { IsPageOf self.now number result.now }
    {
        self.paged.page(number)
    }

    /// Writes a cell, in place if no copy shares the list of pages or the page. The cell must exist.
    ///
    /// # Errors
    ///
    /// `AllocError` if an allocation fails. The store is then unchanged.
    ///
    /// # Memory
    ///
    /// It allocates a list of pages and a page, each only if a copy shares it or it doesn't exist yet.
    pub fn put(&mut self, cell: u16, value: i64) -> Result<(), AllocError>
        requires { cell < length self.old }
        ensures written { OnOk result (self.new ≡ written self.old cell value) }
        ensures unchanged { OnErr result (self.new ≡ self.old) }
    {
        match Arc::get_mut(&mut self.paged) {
            Some(own) => own.put(self.alloc, cell, value),
            None => {
                let mut own = self.paged.copy(self.alloc)?;
                own.put(self.alloc, cell, value)?;
                self.paged = Arc::new(self.alloc, own)?;
                Ok(())
            }
        }
    }

    /// An equal store, which shares the pages with this one.
    ///
    /// # Errors
    ///
    /// `AllocError`, as the contract allows. This implementation does not allocate.
    pub fn copy(&self) -> Result<Store, AllocError>
        ensures { IfOk result (λ store. store ≡ self.now) }
    {
        Ok(Store {
            alloc: self.alloc,
            paged: Arc::try_clone(&self.paged)?,
        })
    }

    /// The store after an overlay's cells are written. Each of them must exist.
    ///
    /// # Errors
    ///
    /// `AllocError` if an allocation fails.
    ///
    /// # Memory
    ///
    /// It allocates a list of pages, and each page that it writes.
    #[tactic(auto, using(array_meaning::proofs::StepLemmas::length_after))]
    pub fn with(&self, written: &Overlay) -> Result<Store, AllocError>
        requires { All (λ pair. pair.0 < length self.now) written.now.pairs }
        ensures merged { IfOk result (λ store. store ≡ after written.now.pairs self.now) }
        ensures cells { IfOk result (λ store. length store ≡ length self.now) }
    {
        let mut store = self.copy()?;
        put_pairs(&mut store, written.pairs())?;
        Ok(store)
    }

    /// Writes an overlay's cells. Each of them must exist.
    ///
    /// # Errors
    ///
    /// `AllocError` if an allocation fails. The store is then unchanged, because the new store is made first.
    ///
    /// # Memory
    ///
    /// It allocates a list of pages, and each page that it writes.
    pub fn merge(&mut self, written: &Overlay) -> Result<(), AllocError>
        requires { All (λ pair. pair.0 < length self.old) written.now.pairs }
        ensures merged { OnOk result (self.new ≡ after written.now.pairs self.old) }
        ensures unchanged { OnErr result (self.new ≡ self.old) }
        ensures cells { length self.new ≡ length self.old }
    {
        *self = self.with(written)?;
        Ok(())
    }

    /// A store of the values of copies over this one. It shares each page of this one that isn't marked as changed.
    pub(crate) fn changed_to(
        &self,
        alloc: Global,
        copies: &Copies,
        changed: &[bool],
    ) -> Result<Store, AllocError>
        requires copies { length copies.now ≡ pages_for (length self.now) }
        requires changed { AreChanged changed.now self.now (over_store self.now copies.now).cells }
        ensures { IfOk result (λ store. store ≡ (over_store self.now copies.now).cells) }
    {
        Ok(Store {
            alloc,
            paged: Arc::new(alloc, self.paged.changed_to(alloc, copies, changed)?)?,
        })
    }

    /// The cells, one after another.
    pub(crate) fn to_cells(&self, alloc: Global) -> Result<Vec<i64>, AllocError>
        ensures { IfOk result (λ cells. cells.items ≡ self.now) }
    {
        self.paged.to_cells(alloc)
    }
}

impl PartialEq for Store {
    ghost use Rattle.std.proofs.Common.{refl};
    ghost use Rattle.array_tree.specs.EqualLaws.{equal_laws};
    ghost use Rattle.array_eval.specs.Equal.{store_eq};
    ghost use Rattle.array_eval.specs.EqualLaws.{store_decides};

    ghost eq = { store_eq };

    ghost laws = { equal_laws (λ store. store) store_eq (λ a b. (store_decides a b).0) (λ a. (store_decides a a).1 refl) };

    fn eq(&self, other: &Store) -> bool
        ensures tested { result ≡ store_eq self.now other.now }
        ensures same { IsTrue result ↔ (self.now ≡ other.now) }
    {
        *self.paged == *other.paged
    }
}

// Writes pairs of a cell and a value, one after another.
fn put_pairs(store: &mut Store, pairs: &[(u16, i64)]) -> Result<(), AllocError>
    requires { All (λ pair. pair.0 < length store.old) pairs.now }
    ensures { OnOk result (store.new ≡ after pairs.now store.old) }
{
    for (cell, value) in pairs {
        store.put(*cell, *value)?;
    }
    Ok(())
}
