//! Stretches of touched cells.
ghost use Rattle.std.specs.Prelude.{◌≡◌, ℕ, ◌↔◌, IsTrue, not};
ghost use Rattle.touch_bounds.specs.Touches.{DoClash, Includes, hull, side};

/// The cells from one to before another, numbered over all arrays in order of declaration. None if the first isn't before the
/// second.
#[derive(Clone, Copy, PartialEq, Eq, Debug, Drop)]
pub struct Stretch {
    pub from: usize,
    pub to: usize,
}

impl Stretch {
    /// The least stretch that contains the cells of both.
    pub(crate) fn with(self, other: Stretch) -> Stretch
        ensures { result ≡ hull self other }
    {
        Stretch {
            from: self.from.min(other.from),
            to: self.to.max(other.to),
        }
    }

    /// Whether the two have a common cell.
    pub(crate) fn meets(self, other: Stretch) -> bool
        ensures { IsTrue result ↔ ((cell : ℕ) × Includes self cell × Includes other cell) }
    {
        self.from.max(other.from) < self.to.min(other.to)
    }
}

/// The recorded stretches of an array: all its cells that may be read, and all that may be written.
#[derive(Clone, Copy, PartialEq, Eq, Debug, Drop)]
pub struct Touch {
    pub read: Stretch,
    pub written: Stretch,
}

const NO_CELLS: Stretch = Stretch {
    from: usize::MAX,
    to: 0,
};

/// No cell is touched.
pub const UNTOUCHED: Touch = Touch {
    read: NO_CELLS,
    written: NO_CELLS,
};

impl Touch {
    /// This touch with more cells that are written, or read.
    pub(crate) fn with(self, writes: bool, cells: Stretch) -> Touch
        ensures side { side result writes ≡ hull (side self writes) cells }
        ensures other { side result (not writes) ≡ side self (not writes) }
    {
        if writes {
            Touch {
                read: self.read,
                written: self.written.with(cells),
            }
        } else {
            Touch {
                read: self.read.with(cells),
                written: self.written,
            }
        }
    }

    /// Whether one writes a cell that the other touches.
    pub(crate) fn clashes(self, other: Touch) -> bool
        ensures { IsTrue result ↔ DoClash self other }
    {
        self.written.meets(other.read)
            || self.written.meets(other.written)
            || self.read.meets(other.written)
    }
}
