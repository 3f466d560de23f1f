//! Loop variables.
ghost use Rattle.std.specs.Prelude.{◌≡◌};
ghost use Rattle.array_meaning.specs.Stores.{var_of};
ghost use Rattle.array_eval.specs.Overlays.{bound_to};
ghost use Rattle.array_eval.specs.Views.{stacked, vars_of};

use crate::vars::Vars;
use array_tree::Name;

/// A loop variable and its value.
#[derive(Clone, Copy, Debug, Drop)]
pub struct LoopVar<'s> {
    pub name: &'s Name,
    pub value: i64,
}

/// The loop variables around a position in a program, the innermost first. A loop's turn makes one on the stack, and copies
/// neither a name nor the variables around it, so it does not allocate.
#[derive(Drop)]
pub enum Scope<'s> {
    /// No loop is around.
    Outermost,
    /// Kept variables are around, and no other loop.
    Kept(&'s Vars),
    /// A loop, and the value of its variable in this turn.
    Turn {
        name: &'s Name,
        value: i64,
        outer: &'s Scope<'s>,
    },
    /// Loops whose variables are in a list, the innermost last.
    Stack {
        vars: &'s [LoopVar<'s>],
        outer: &'s Scope<'s>,
    },
}

impl Scope<'_> {
    /// The value of a variable, 0 if no variable has the name.
    #[tactic(auto, using(crate::proofs::ScopeLemmas::bound_or_zero, crate::proofs::ScopeLemmas::bound_inside, crate::proofs::ScopeLemmas::bound_outside))]
    pub fn get(&self, name: &Name) -> i64
        ensures { result ≡ var_of (vars_of self.now) name.now }
    {
        match self {
            Scope::Outermost => 0,
            Scope::Kept(vars) => vars.get(name).unwrap_or(0),
            Scope::Turn {
                name: own,
                value,
                outer,
            } => {
                if *own == name {
                    *value
                } else {
                    outer.get(name)
                }
            }
            Scope::Stack { vars, outer } => match last_named(vars, name) {
                Some(value) => value,
                None => outer.get(name),
            },
        }
    }
}

// The value of the last variable with the name.
fn last_named(vars: &[LoopVar], name: &Name) -> Option<i64>
    ensures { result ≡ bound_to (stacked vars.now) name.now }
{
    let mut left = vars.len();
    while left > 0 {
        left -= 1;
        if *vars[left].name == *name {
            return Some(vars[left].value);
        }
    }
    None
}
