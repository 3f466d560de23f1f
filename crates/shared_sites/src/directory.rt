//! The cells of the directory, and one hart's view of them.
ghost use Rattle.std.specs.Prelude.{◌≡◌, ◌+◌, MatchOption, MatchResult, IfOk, IfErr, IsSome, Some, None, vec_len, length, map};
ghost use Rattle.once_cell.specs.Once.{cell_name, Agrees};

use crossbeam_utils::Backoff;
use once_cell::race::{Note, OnceBox};
use std::alloc::{AllocError, Global};
use std::sync::Wait;

/// One hart's view of the cell of one site.
#[derive(Drop)]
pub struct SiteCell<'a, S> {
    cell: &'a OnceBox<S>,
    note: Note<S>,
    ghost same: { note.cell ≡ cell_name cell.now },
}

impl<'a, S: Drop> SiteCell<'a, S> {
    /// A view of a cell, with no scheduler found.
    pub fn new(cell: &'a OnceBox<S>) -> SiteCell<'a, S>
        ensures cell { result.note.cell ≡ cell_name cell.now }
        ensures first { result.note.known ≡ None }
    {
        SiteCell {
            cell,
            note: cell.note(),
        }
    }

    /// The scheduler in the cell, or `None` if the cell is empty. If this view found a scheduler before, the result is the same
    /// one, and never `None`.
    pub fn find(&mut self) -> Option<&'a S>
        ensures cell { self.new.note.cell ≡ self.old.note.cell }
        ensures found { MatchOption result ((self.old.note.known ≡ None)
            × (self.new.note.known ≡ None))
            (λ shared. (self.new.note.known ≡ Some shared.now)
            × Agrees self.old.note.known shared.now) }
    {
        self.cell.get_as(&mut self.note)
    }

    /// The scheduler in the cell. Spins with growing pauses until the cell has one. If this view found a scheduler before, the
    /// result is the same one.
    pub fn until_found<R: Wait>(&mut self, rt: &R) -> &'a S
        ensures cell { self.new.note.cell ≡ self.old.note.cell }
        ensures known { self.new.note.known ≡ Some result.now }
        ensures same { Agrees self.old.note.known result.now }
    {
        let backoff = Backoff::new();
        'looks: for _ in rt.forever() {
            if let Some(shared) = self.find() {
                return shared;
            }
            backoff.snooze();
        }
        unreachable!()
    }

    /// Puts the scheduler into the cell.
    ///
    /// # Errors
    ///
    /// The scheduler itself if the cell has one. This view then knows the scheduler in the cell.
    pub fn publish(&mut self, shared: Box<S>) -> Result<&'a S, Box<S>>
        ensures cell { self.new.note.cell ≡ self.old.note.cell }
        ensures gives { MatchResult result (λ published. published.now ≡ shared.value)
            (λ back. back.value ≡ shared.value) }
        ensures first { IfOk result (λ published. self.old.note.known ≡ None) }
        ensures known { IfOk result (λ published. self.new.note.known ≡ Some shared.value) }
        ensures full { IfErr result (λ back. IsSome self.new.note.known) }
    {
        self.cell.set_as(shared, &mut self.note)?;
        match self.cell.get_as(&mut self.note) {
            Some(published) => Ok(published),
            None => unreachable!(),
        }
    }
}

/// An empty cell for each site of a plan with `sites` sites, at index s for site s. The base has a cell too, which stays empty.
///
/// # Errors
///
/// `AllocError` if an allocation fails.
///
/// # Memory
///
/// It allocates the cells.
pub fn cells<S: Drop>(alloc: Global, sites: u16) -> Result<Vec<OnceBox<S>>, AllocError>
    ensures { IfOk result (λ cells. vec_len cells ≡ sites + 1) }
{
    let mut cells = Vec::with_capacity(alloc, usize::from(sites) + 1)?;
    for _ in 0..usize::from(sites) + 1 {
        cells.push(OnceBox::new(alloc))?;
    }
    Ok(cells)
}

/// A hart's first view of each cell, in their order.
///
/// # Errors
///
/// `AllocError` if an allocation fails.
///
/// # Memory
///
/// It allocates the list.
pub fn site_cells<'a, S: Drop>(
    alloc: Global,
    cells: &'a [OnceBox<S>],
) -> Result<Vec<SiteCell<'a, S>>, AllocError>
    ensures count { IfOk result (λ views. vec_len views ≡ length cells.now) }
    ensures order { IfOk result
        (λ views. map (λ view. view.note.cell) views.items ≡ map cell_name cells.now) }
{
    let mut views = Vec::with_capacity(alloc, cells.len())?;
    for cell in cells {
        views.push(SiteCell::new(cell))?;
    }
    Ok(views)
}
