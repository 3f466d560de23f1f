//! Loop variables with bounds.
ghost use Rattle.std.specs.Prelude.{◌≡◌};
ghost use Rattle.touch_bounds.specs.Ranges.{bounds_of, interval_of};

use crate::interval::Interval;
use array_eval::Scope;
use array_tree::Name;

/// The loop variables around a position in a program, the innermost first: each has a value, or bounds.
#[derive(Drop)]
pub enum Ranges<'s> {
    /// Variables with their values.
    Fixed(&'s Scope<'s>),
    /// A loop, and the bounds of its variable over all its turns.
    Loop {
        name: &'s Name,
        within: Interval,
        outer: &'s Ranges<'s>,
    },
}

impl Ranges<'_> {
    /// The bounds of a variable. A name without a variable has the value 0.
    #[tactic(auto, using(crate::proofs::RangeLemmas::fixed_interval))]
    pub fn get(&self, name: &Name) -> Interval
        ensures { result ≡ interval_of (bounds_of self.now) name.now }
    {
        match self {
            Ranges::Fixed(scope) => Interval::exactly(scope.get(name)),
            Ranges::Loop {
                name: own,
                within,
                outer,
            } => {
                if *own == name {
                    *within
                } else {
                    outer.get(name)
                }
            }
        }
    }
}
