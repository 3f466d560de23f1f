//! The sites that a step passes, as a hart gets them.
ghost use Rattle.std.specs.Prelude.{◌≡◌, ℕ, ◌+◌, ◌≤◌};
ghost use Rattle.step_eval.specs.Passes.{some_span};
ghost use Rattle.step_eval.specs.Inside.Frames.{span_reported};

/// The sites that a step passes without entering them, which the hart has to skip.
#[derive(Clone, Copy, Debug, Drop)]
pub(crate) enum Reported {
    Nothing,
    /// The hart has to skip these sites.
    Skips { first: u16, end: u16 },
}

impl Reported {
    /// Skips `count` sites from number `first` on; `Nothing` if `count` is 0.
    pub(crate) fn to_skip(first: u16, count: u16) -> Reported
        requires { first + count ≤ 4096 }
        ensures { some_span first count ≡ span_reported result }
    {
        if count == 0 {
            Reported::Nothing
        } else {
            Reported::Skips {
                first,
                end: first + count,
            }
        }
    }
}
