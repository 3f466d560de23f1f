//! The loops around a position in a program, and the arrays.
ghost use Rattle.std.specs.Prelude.{◌≡◌, ◌++◌, map};
ghost use Rattle.array_tree.specs.Trees.{declaration_of, declarations_of};
ghost use Rattle.array_meaning.specs.Names.{is_among, names_of};
ghost use Rattle.disjoint_check.specs.Inside.Around.{vars_around};

use array_tree::{ArrayDecl, Arrays, Name};

/// The loops around a position in a program, the innermost first. Each is on the stack, and copies no name.
#[derive(Drop)]
pub(crate) enum Loops<'s> {
    Outermost,
    Within { var: &'s Name, outer: &'s Loops<'s> },
}

impl Loops<'_> {
    /// Whether the name is the variable of one of the loops.
    pub(crate) fn has(&self, name: &Name) -> bool
        ensures { result ≡ is_among name.now (vars_around self.now) }
    {
        match self {
            Loops::Outermost => false,
            Loops::Within { var, outer } => *var == name || outer.has(name),
        }
    }
}

/// Whether one of the declarations has the name.
pub(crate) fn is_declared(declarations: &[ArrayDecl], name: &Name) -> bool
    ensures { result ≡ is_among name.now (names_of (map declaration_of declarations.now)) }
{
    for array in declarations {
        if array.name == *name {
            return true;
        }
    }
    false
}

/// Whether the name is the name of an array or of a loop around.
#[tactic(auto, using(crate::proofs::Among::among_append))]
pub(crate) fn is_taken(arrays: &Arrays, loops: &Loops<'_>, name: &Name) -> bool
    ensures { result ≡ is_among name.now
        (vars_around loops.now ++ names_of (declarations_of arrays.now)) }
{
    loops.has(name) || is_declared(&arrays.declarations, name)
}
