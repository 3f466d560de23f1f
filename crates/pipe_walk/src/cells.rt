//! The touches of cells, with a list of the touched ones.
ghost use Rattle.std.specs.Prelude.{◌≡◌, ℕ, false, [], ◌||◌, IfOk, OnOk, replicate, slice_set, slice_index_or};
ghost use Rattle.pipe_walk.specs.Inside.Members.{joined, touch_in, untouched};
ghost use Rattle.pipe_walk.specs.Inside.Tables.{added, no_past, passed, past_in};
ghost use Rattle.pipe_walk.specs.Inside.Cells.{AreListed, AreSettled, blank_cells};

use crate::past::{NO_PAST, Past};
use crate::touch::{Touch, UNTOUCHED};
use std::alloc::{AllocError, Global};
use std::marker::Model;

/// For each cell, the touches by static indexes in the current phase, and its past in the earlier phases.
#[derive(Debug, Drop)]
pub(crate) struct Cells {
    touches: Vec<Touch>,
    past: Vec<Past>,
    // The cells that were touched since the construct began, if `touch` never failed. Why: a construct costs the cells that it
    // touches, and not all of them.
    listed: Vec<usize>,
    // Whether pieces may have crossed on a cell.
    crossed: bool,
}

impl Model for Cells {
    ghost use Rattle.pipe_walk.specs.Inside.Cells.{AreCells, CellParts};

    ghost Value = { CellParts };

    ghost view = { λ c. record { touches = c.touches.items; past = c.past.items; listed = c.listed.items; crossed = c.crossed } };

    ghost invariant = { λ c. AreCells record { touches = c.touches.items; past = c.past.items; listed = c.listed.items; crossed = c.crossed } };
}

/// The touch at an index of a list; none after its end.
pub(crate) fn touch_in(list: &[Touch], place: usize) -> Touch
    ensures { result ≡ touch_in list.now place }
{
    match list.get(place) {
        Some(touch) => *touch,
        None => UNTOUCHED,
    }
}

/// Adds a touch at an index, if it exists.
pub(crate) fn add(list: &mut [Touch], place: usize, more: Touch)
    ensures { list.new ≡ added place more list.old }
{
    if place < list.len() {
        list[place] = more.with(list[place]);
    }
}

// The array of a cell; the first one after the end.
fn owner_of(owners: &[usize], cell: usize) -> usize
    ensures { result ≡ slice_index_or owners.now cell 0 }
{
    match owners.get(cell) {
        Some(owner) => *owner,
        None => 0,
    }
}

impl Cells {
    /// So many cells without a touch.
    #[tactic(auto, using(crate::proofs::CellLemmas::cells_new))]
    pub(crate) fn new(alloc: Global, cells: usize) -> Result<Cells, AllocError>
        ensures { IfOk result (λ c. c ≡ record {
          touches = replicate cells untouched;
          past = replicate cells no_past;
          listed = [];
          crossed = false;
        }) }
    {
        Ok(Cells {
            touches: vec![in alloc; UNTOUCHED; cells]?,
            past: vec![in alloc; NO_PAST; cells]?,
            listed: Vec::new(alloc),
            crossed: false,
        })
    }

    /// Adds a touch of a cell, and lists the cell.
    ///
    /// # Errors
    ///
    /// `AllocError` if an allocation fails. The touch is then added, and the cell isn't listed.
    #[tactic(auto, using(crate::proofs::CellLemmas::cells_touched, crate::proofs::CellLemmas::touch_again, crate::proofs::CellLemmas::touch_first))]
    pub(crate) fn touch(&mut self, cell: usize, more: Touch) -> Result<(), AllocError>
        ensures touches { self.new.touches ≡ added cell more self.old.touches }
        ensures past { self.new.past ≡ self.old.past }
        ensures listed { OnOk result (AreListed self.old → AreListed self.new) }
    {
        let is_listed = self.touch_of(cell) != UNTOUCHED;
        add(&mut self.touches, cell, more);
        if !is_listed {
            self.listed.push(cell)?;
        }
        Ok(())
    }

    /// The touches of a cell by static indexes.
    pub(crate) fn touch_of(&self, cell: usize) -> Touch
        ensures { result ≡ touch_in self.now.touches cell }
    {
        touch_in(&self.touches, cell)
    }

    // The past of a cell.
    fn past_of(&self, cell: usize) -> Past
        ensures { result ≡ past_in self.now.past cell }
    {
        match self.past.get(cell) {
            Some(past) => *past,
            None => NO_PAST,
        }
    }

    // Adds a touch of a cell to its past.
    #[tactic(auto, using(crate::proofs::CellLemmas::cells_passed))]
    fn pass(&mut self, cell: usize, touch: Touch)
        ensures { self.new ≡ record self.old {
          past = slice_set self.old.past cell (passed (past_in self.old.past cell) touch);
          crossed = self.old.crossed || (passed (past_in self.old.past cell) touch).crossed;
        } }
    {
        let past = self.past_of(cell).then(touch);
        if cell < self.past.len() {
            self.past[cell] = past;
        }
        self.crossed = self.crossed || past.crossed;
    }

    // Adds the touches of a listed cell to its past.
    #[tactic(auto, using(crate::proofs::CellLemmas::cells_touched))]
    fn settle_one(&mut self, cell: usize)
        ensures { self.new ≡ record self.old {
          touches = slice_set self.old.touches cell untouched;
          past = slice_set self.old.past cell (passed (past_in self.old.past cell) (touch_in self.old.touches cell));
          crossed = self.old.crossed || (passed (past_in self.old.past cell) (touch_in self.old.touches cell)).crossed;
        } }
    {
        let touch = self.touch_of(cell);
        self.pass(cell, touch);
        if cell < self.touches.len() {
            self.touches[cell] = UNTOUCHED;
        }
    }

    /// Ends the current phase, in which only listed cells were touched.
    pub(crate) fn settle_listed(&mut self)
        requires { AreListed self.old }
        ensures settled { AreSettled self.old self.new (λ cell. touch_in self.old.touches cell) }
        ensures listed { AreListed self.new }
    {
        for i in 0..self.listed.len() {
            let cell = self.listed[i];
            self.settle_one(cell);
        }
    }

    /// Ends the current phase, in which all cells of an array were touched if the array was touched everywhere.
    #[tactic(auto, using(crate::proofs::CellLemmas::cells_untouched))]
    pub(crate) fn settle_all(&mut self, everywhere: &[Touch], owners: &[usize])
        ensures { AreSettled self.old self.new (λ cell. joined (touch_in self.old.touches cell)
            (touch_in everywhere.now (slice_index_or owners.now cell 0))) }
    {
        for cell in 0..self.past.len() {
            let owner = owner_of(owners, cell);
            let touch = self.touch_of(cell).with(touch_in(everywhere, owner));
            self.pass(cell, touch);
        }
        self.touches.fill(UNTOUCHED);
    }

    // Removes the touches and the past of a cell.
    #[tactic(auto, using(crate::proofs::CellLemmas::cells_fresh))]
    fn clear_one(&mut self, cell: usize)
        ensures { self.new ≡ record self.old {
          touches = slice_set self.old.touches cell untouched;
          past = slice_set self.old.past cell no_past;
        } }
    {
        if cell < self.touches.len() {
            self.touches[cell] = UNTOUCHED;
        }
        if cell < self.past.len() {
            self.past[cell] = NO_PAST;
        }
    }

    /// Begins a construct, after one that touched only listed cells.
    pub(crate) fn clear_listed(&mut self)
        requires { AreListed self.old }
        ensures { self.new ≡ blank_cells self.old }
    {
        for i in 0..self.listed.len() {
            let cell = self.listed[i];
            self.clear_one(cell);
        }
        self.listed.clear();
        self.crossed = false;
    }

    /// Begins a construct.
    #[tactic(auto, using(crate::proofs::CellLemmas::cells_cleared))]
    pub(crate) fn clear_all(&mut self)
        ensures { self.new ≡ blank_cells self.old }
    {
        self.touches.fill(UNTOUCHED);
        self.past.fill(NO_PAST);
        self.listed.clear();
        self.crossed = false;
    }

    /// Whether two pieces of different phases crossed on a cell.
    pub(crate) fn is_crossed(&self, cell: usize) -> bool
        ensures { result ≡ (past_in self.now.past cell).crossed }
    {
        self.past_of(cell).crossed
    }

    /// Whether pieces may have crossed on some cell.
    pub(crate) fn may_cross(&self) -> bool
        ensures { result ≡ false → (cell : ℕ) → (past_in self.now.past cell).crossed ≡ false }
    {
        self.crossed
    }
}
