//! The touches of a cell in earlier phases.
ghost use Rattle.std.specs.Prelude.{◌≡◌};
ghost use Rattle.pipe_walk.specs.Inside.Tables.{passed};

use crate::touch::Touch;

/// The past of a cell in the earlier phases: the highest member that touched it and the highest that changed it, 0 if there is
/// none; and whether two pieces crossed on it.
#[derive(Clone, Copy, PartialEq, Eq, Debug, Drop)]
pub(crate) struct Past {
    pub(crate) toucher: usize,
    pub(crate) changer: usize,
    pub(crate) crossed: bool,
}

/// The past of a cell without an earlier phase.
pub(crate) const NO_PAST: Past = Past {
    toucher: 0,
    changer: 0,
    crossed: false,
};

impl Past {
    /// This past with one more phase, in which the cell has this touch.
    pub(crate) fn then(self, touch: Touch) -> Past
        ensures { result ≡ passed self touch }
    {
        let crossed = touch.changed.starts_below(self.toucher)
            || touch.read.starts_below(self.changer);
        let toucher = touch.read.last().max(touch.changed.last());
        Past {
            toucher: self.toucher.max(toucher),
            changer: self.changer.max(touch.changed.last()),
            crossed: self.crossed || crossed,
        }
    }
}
