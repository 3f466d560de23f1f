//! The shapes of constructs that are handed out.
ghost use Rattle.std.specs.Prelude.{◌≡◌, ◌<◌, ◌≤◌, IsTrue, Some};
ghost use Rattle.array_tree.specs.Trees.{statement_of};
ghost use Rattle.array_meaning.specs.Bounds.{most_members, most_phases};
ghost use Rattle.array_meaning.specs.Limits.{statement_has_right_ranges};
ghost use Rattle.step_eval.specs.Nests.{is_construct, phases_of};
ghost use Rattle.step_eval.specs.Shapes.{kind_of, members_of};

use crate::nested::Nested;
use array_tree::Stmt;

/// The kind of a construct.
#[derive(Clone, Copy, Debug, PartialEq, Eq, Drop)]
pub enum Kind {
    /// A `par`.
    Par,
    /// A `team`.
    Team,
}

impl<'p> Nested<'p> {
    /// Whether it is a `par` or a `team`.
    pub fn kind(&self) -> Kind
        ensures { kind_of (statement_of self.now.construct) ≡ Some result }
    {
        kind_of(self.construct)
    }

    /// The number of its phases: 1 for a `par`, and 1 to 8 for a `team`.
    pub fn phases(&self) -> u8
        ensures same { result ≡ phases_of (statement_of self.now.construct) }
        ensures some { 0 < result }
        ensures few { result ≤ most_phases }
    {
        phases_of(self.construct)
    }

    /// The number of pieces of each phase, 1 to 64: the branches of a `par`, or the members of a `team`.
    pub fn members(&self) -> u8
        ensures same { result ≡ members_of (statement_of self.now.construct) }
        ensures some { 0 < result }
        ensures few { result ≤ most_members }
    {
        members_of(self.construct)
    }
}

// The kind of a construct.
fn kind_of(construct: &Stmt) -> Kind
    requires { IsTrue (is_construct (statement_of construct.now)) }
    ensures { kind_of (statement_of construct.now) ≡ Some result }
{
    match construct {
        Stmt::Team { .. } => Kind::Team,
        _ => Kind::Par,
    }
}

// The number of phases of a construct in its limits.
fn phases_of(construct: &Stmt) -> u8
    requires { IsTrue (statement_has_right_ranges (statement_of construct.now)) }
    ensures { result ≡ phases_of (statement_of construct.now) }
{
    match construct {
        Stmt::Par { .. } => 1,
        Stmt::Team { phases, .. } => phases.blocks.len() as u8,
        _ => 0,
    }
}

// The number of pieces of each phase of a construct in its limits.
fn members_of(construct: &Stmt) -> u8
    requires { IsTrue (statement_has_right_ranges (statement_of construct.now)) }
    ensures { result ≡ members_of (statement_of construct.now) }
{
    match construct {
        Stmt::Par { branches, .. } => branches.blocks.len() as u8,
        Stmt::Team { members, .. } => members.unsigned_abs() as u8,
        _ => 0,
    }
}
