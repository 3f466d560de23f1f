//! Slots for pieces.
ghost use Rattle.std.specs.Prelude.{◌≡◌, ◌↔◌, IsTrue};
ghost use Rattle.join_book.specs.Books.{Open, Failed, mark_of};

use array_eval::Overlay;

// One slot of a book.
#[derive(Debug, Drop)]
pub(crate) enum Place {
    // The slot's piece hasn't come.
    Open,
    // The writes of the slot's job.
    Filled(Overlay),
    // An allocation failed for its piece.
    Failed,
}

impl Place {
    pub(crate) fn is_open(&self) -> bool
        ensures { IsTrue result ↔ (mark_of self.now ≡ Open) }
    {
        matches!(self, Place::Open)
    }

    pub(crate) fn is_failed(&self) -> bool
        ensures { IsTrue result ↔ (mark_of self.now ≡ Failed) }
    {
        matches!(self, Place::Failed)
    }
}
