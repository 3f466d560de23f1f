//! Touches of cells by pieces.
ghost use Rattle.std.specs.Prelude.{◌≡◌};
ghost use Rattle.site_walk.specs.Inside.Touched.{joined_pieces, joined, clashes};

/// The pieces of a round that touched a cell.
#[derive(Clone, Copy, PartialEq, Eq, Debug, Drop)]
pub(crate) enum Pieces {
    NoPiece,
    One(usize),
    Several,
}

impl Pieces {
    /// The pieces of both sets.
    fn with(self, other: Pieces) -> Pieces
        ensures { result ≡ joined_pieces self other }
    {
        match (self, other) {
            (Pieces::NoPiece, _) => other,
            (_, Pieces::NoPiece) => self,
            (Pieces::One(one), Pieces::One(two)) => {
                if one == two { self } else { Pieces::Several }
            }
            _ => Pieces::Several,
        }
    }
}

/// The touches of a cell in a round: the pieces that touched it, and whether one of them wrote.
#[derive(Clone, Copy, PartialEq, Eq, Debug, Drop)]
pub(crate) struct Touched {
    pub(crate) by: Pieces,
    pub(crate) written: bool,
}

/// No piece touched it.
pub(crate) const UNTOUCHED: Touched = Touched {
    by: Pieces::NoPiece,
    written: false,
};

impl Touched {
    /// The touches of both.
    pub(crate) fn with(self, other: Touched) -> Touched
        ensures { result ≡ joined self other }
    {
        Touched {
            by: self.by.with(other.by),
            written: self.written || other.written,
        }
    }

    /// Whether two pieces touched it, one of which wrote.
    pub(crate) fn clashes(self) -> bool
        ensures { result ≡ clashes self }
    {
        self.written && matches!(self.by, Pieces::Several)
    }
}
