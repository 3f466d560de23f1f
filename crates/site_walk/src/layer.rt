//! Lists of touches, which are cleared at once.
ghost use Rattle.std.specs.Prelude.{◌≡◌, IfOk, length, replicate, slice_set};
ghost use Rattle.site_walk.specs.Inside.Touched.{joined, touched_at, untouched};

use crate::touched::{Touched, UNTOUCHED};
use std::alloc::{AllocError, Global};
use std::marker::Model;

// The touches of one round. A mark means nothing in any other round.
#[derive(Clone, Copy, Debug, Drop)]
struct Mark {
    round: u64,
    touched: Touched,
}

/// The touches of a round, with an entry for each index.
///
/// Why each mark has its round: a new round then clears all entries at once, since marks of earlier rounds don't count.
///
/// Contracts see it as a list.
#[derive(Debug, Drop)]
pub(crate) struct Layer {
    round: u64,
    marks: Vec<Mark>,
}

impl Model for Layer {
    ghost use Rattle.std.specs.Prelude.{List, map};
    ghost use Rattle.std.specs.List.{All};
    ghost use Rattle.site_walk.specs.declared.touched.Touched.{Touched};

    ghost Value = { List Touched };

    ghost use Rattle.site_walk.specs.Inside.Rounds.{done_in, IsUpTo};

    ghost view = { λ layer. map (done_in layer.round) layer.marks.items };

    ghost invariant = { λ layer. All (IsUpTo layer.round) layer.marks.items };
}

impl Layer {
    /// A layer of `places` entries, without a touch.
    #[tactic(auto, using(crate::proofs::RoundLemmas::none_in_round))]
    pub(crate) fn new(alloc: Global, places: usize) -> Result<Layer, AllocError>
        ensures { IfOk result (λ layer. layer ≡ replicate places untouched) }
    {
        let blank = Mark {
            round: 0,
            touched: UNTOUCHED,
        };
        Ok(Layer {
            round: 0,
            marks: vec![in alloc; blank; places]?,
        })
    }

    /// The touch at an index; none after the last.
    pub(crate) fn get(&self, place: usize) -> Touched
        ensures { result ≡ touched_at self.now place }
    {
        if place >= self.marks.len() {
            return UNTOUCHED;
        }
        let mark = self.marks[place];
        if mark.round == self.round {
            mark.touched
        } else {
            UNTOUCHED
        }
    }

    // Sets the touch at an index, if it exists.
    #[tactic(auto, using(crate::proofs::RoundLemmas::put_in_round))]
    fn put(&mut self, place: usize, touched: Touched)
        ensures { self.new ≡ slice_set self.old place touched }
    {
        if place < self.marks.len() {
            self.marks[place] = Mark {
                round: self.round,
                touched,
            };
        }
    }

    /// Adds a touch at an index. Returns all touches there.
    pub(crate) fn add(&mut self, place: usize, touched: Touched) -> Touched
        ensures all { result ≡ joined touched (touched_at self.old place) }
        ensures added { self.new
            ≡ slice_set self.old place (joined touched (touched_at self.old place)) }
    {
        let all = touched.with(self.get(place));
        self.put(place, all);
        all
    }

    /// Begins a round, without a touch.
    #[tactic(auto, using(crate::proofs::RoundLemmas::next_round, crate::proofs::RoundLemmas::none_in_round))]
    pub(crate) fn clear(&mut self)
        ensures { self.new ≡ replicate (length self.old) untouched }
    {
        if self.round == u64::MAX {
            self.marks.fill(Mark {
                round: 0,
                touched: UNTOUCHED,
            });
            self.round = 0;
        } else {
            self.round += 1;
        }
    }
}
