//! Overlays: the cells that were written, with their last values.
ghost use Rattle.std.specs.Prelude.{◌≡◌, ◌≤◌, ◌<◌, OnOk, OnErr, IfOk, IfErr, IsTrue, ◌↔◌, All, [], ◌∷◌, ◌++◌, length, slice_index_or, pos, vec_capacity};
ghost use Rattle.array_meaning.specs.Pieces.{lay, value_at, IsRising};
ghost use Rattle.array_eval.specs.Overlays.{place_in, HasRoom, StandsAt, WouldStandAt};

use std::alloc::{AllocError, Global};
use std::marker::Model;

/// Pairs of a cell and a value, with rising cells.
///
/// Contracts see an overlay as its `pairs` and its `room`: so many pairs fit without an allocation.
#[derive(Debug, Drop)]
pub struct Overlay {
    pairs: Vec<(u16, i64)>,
}

impl Model for Overlay {
    ghost use Rattle.std.specs.Prelude.{vec_capacity};
    ghost use Rattle.array_meaning.specs.Pieces.{IsRising};
    ghost use Rattle.array_eval.specs.Overlays.{Laid};

    ghost Value = { Laid };

    ghost view = { λ overlay. record { pairs = overlay.pairs.items; room = vec_capacity overlay.pairs } };

    ghost invariant = { λ overlay. IsRising overlay.pairs.items };
}

impl Overlay {
    /// An overlay of no cell, with no room. Does not allocate.
    pub fn empty(alloc: Global) -> Overlay
        ensures pairs { result.pairs ≡ [] }
        ensures room { result.room ≡ 0 }
    {
        Overlay {
            pairs: Vec::new(alloc),
        }
    }

    /// An overlay of no cell, with room for `room` pairs.
    ///
    /// # Errors
    ///
    /// `AllocError` if an allocation fails.
    ///
    /// # Memory
    ///
    /// It allocates the room.
    pub fn roomy(alloc: Global, room: u16) -> Result<Overlay, AllocError>
        ensures pairs { IfOk result (λ overlay. overlay.pairs ≡ []) }
        ensures room { IfOk result (λ overlay. overlay.room ≡ room) }
    {
        Ok(Overlay {
            pairs: Vec::with_capacity(alloc, usize::from(room))?,
        })
    }

    /// Adds one more pair; an earlier pair of the same cell is replaced.
    ///
    /// # Errors
    ///
    /// `AllocError` if an allocation fails. The pairs are then unchanged, and they had no room for the cell.
    ///
    /// # Memory
    ///
    /// It allocates if the room is used up.
    #[tactic(auto, using(array_meaning::proofs::LastLemmas::rising_lay))]
    pub fn put(&mut self, cell: u16, value: i64) -> Result<(), AllocError>
        ensures ok { OnOk result (self.new.pairs ≡ lay cell value self.old.pairs) }
        ensures err { OnErr result (self.new.pairs ≡ self.old.pairs) }
        ensures room { self.old.room ≤ self.new.room }
        ensures full { OnErr result (¬ HasRoom cell self.old.pairs self.old.room) }
    {
        put_pair(&mut self.pairs, cell, value)
    }

    /// Adds one more pair as `put` does, into room that it has. Does not allocate.
    ///
    /// The list must have the cell, or be shorter than the room.
    #[tactic(auto, using(array_meaning::proofs::LastLemmas::rising_lay))]
    pub fn lay(&mut self, cell: u16, value: i64)
        requires { HasRoom cell self.old.pairs self.old.room }
        ensures pairs { self.new.pairs ≡ lay cell value self.old.pairs }
        ensures room { self.new.room ≡ self.old.room }
    {
        let _ = put_pair(&mut self.pairs, cell, value);
    }

    /// Appends a pair. Neither allocates nor searches.
    #[tactic(auto, using(crate::proofs::OverlayLemmas::lay_last, crate::proofs::OverlayLemmas::rising_last))]
    pub(crate) fn append(&mut self, cell: u16, value: i64)
        requires last { All (λ pair. pair.0 < cell) self.old.pairs }
        requires room { length self.old.pairs < self.old.room }
        ensures pairs { self.new.pairs ≡ lay cell value self.old.pairs }
        ensures room { self.new.room ≡ self.old.room }
    {
        push_pair(&mut self.pairs, cell, value);
    }

    /// Frees the room that no pair uses. The pairs are unchanged.
    pub fn shrink_to_fit(&mut self)
        ensures pairs { self.new.pairs ≡ self.old.pairs }
        ensures room { self.new.room ≤ self.old.room }
    {
        self.pairs.shrink_to_fit();
    }

    /// The value of a cell, if it was written.
    pub fn get(&self, cell: u16) -> Option<i64>
        ensures { result ≡ value_at self.now.pairs cell }
    {
        match find(&self.pairs, cell) {
            Ok(place) => Some(self.pairs[place].1),
            Err(_) => None,
        }
    }

    /// The pairs, with rising cells.
    pub fn pairs(&self) -> &[(u16, i64)]
        ensures { result.now ≡ self.now.pairs }
    {
        &self.pairs
    }
}

// The number of pairs with a smaller cell.
#[tactic(auto, using(crate::proofs::OverlayLemmas::place_after, crate::proofs::OverlayLemmas::place_before, crate::proofs::OverlayLemmas::place_within))]
fn place(pairs: &[(u16, i64)], cell: u16) -> usize
    requires { IsRising pairs.now }
    ensures place { result ≡ place_in cell pairs.now }
    ensures within { result ≤ length pairs.now }
{
    let mut low = 0;
    let mut high = pairs.len();
    while low < high {
        let middle = low + (high - low) / 2;
        if pairs[middle].0 < cell {
            low = middle + 1;
        } else {
            high = middle;
        }
    }
    low
}

// Whether the pair at an index belongs to a cell.
fn is_there(pairs: &[(u16, i64)], place: usize, cell: u16) -> bool
    ensures { IsTrue result ↔ (place < length pairs.now)
        × ((slice_index_or pairs.now place (0, pos 0)).0 ≡ cell) }
{
    place < pairs.len() && pairs[place].0 == cell
}

// The index of a cell's pair, or else the index at which the pair would be.
fn find(pairs: &[(u16, i64)], cell: u16) -> Result<usize, usize>
    requires { IsRising pairs.now }
    ensures there { IfOk result (StandsAt cell pairs.now) }
    ensures missing { IfErr result (WouldStandAt cell pairs.now) }
{
    let place = place(pairs, cell);
    if is_there(pairs, place, cell) {
        Ok(place)
    } else {
        Err(place)
    }
}

// Adds one more pair. Allocates only if there is no room and the cell isn't in the list.
fn put_pair(pairs: &mut Vec<(u16, i64)>, cell: u16, value: i64) -> Result<(), AllocError>
    requires { IsRising pairs.old.items }
    ensures ok { OnOk result (pairs.new.items ≡ lay cell value pairs.old.items) }
    ensures err { OnErr result (pairs.new.items ≡ pairs.old.items) }
    ensures room { vec_capacity pairs.old ≤ vec_capacity pairs.new }
    ensures kept { HasRoom cell pairs.old.items (vec_capacity pairs.old)
        → vec_capacity pairs.new ≡ vec_capacity pairs.old }
    ensures full { OnErr result (¬ HasRoom cell pairs.old.items (vec_capacity pairs.old)) }
{
    match find(pairs, cell) {
        Ok(place) => {
            pairs[place] = (cell, value);
            Ok(())
        }
        Err(place) => {
            pairs.insert(place, (cell, value))?;
            Ok(())
        }
    }
}

// Appends a pair. There must be room for it.
#[tactic(auto, using(std::proofs::lemmas::List::Edits::insert_end))]
fn push_pair(pairs: &mut Vec<(u16, i64)>, cell: u16, value: i64)
    requires { length pairs.old.items < vec_capacity pairs.old }
    ensures pairs { pairs.new.items ≡ pairs.old.items ++ (cell, value) ∷ [] }
    ensures room { vec_capacity pairs.new ≡ vec_capacity pairs.old }
{
    // Why: a push isn't known to keep the room.
    let end = pairs.len();
    let _ = pairs.insert(end, (cell, value));
}
