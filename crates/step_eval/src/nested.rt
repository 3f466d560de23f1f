//! Constructs that are handed out.
ghost use Rattle.std.specs.Prelude.{◌≡◌, ◌↔◌, IsTrue, IfOk};
ghost use Rattle.step_eval.specs.Nests.{nested_of};
ghost use Rattle.step_eval.specs.NestEqual.{nested_eq};

use array_eval::{Store, Vars};
use array_tree::{Arrays, Stmt};
use std::alloc::AllocError;
use std::marker::Model;

/// A `par` or a `team` that a job has come to, with all that its pieces start from.
///
/// Contracts see it as its parts. The type's invariant: the pieces of each phase are jobs that are fit to run, and apart.
#[derive(Debug, Drop)]
pub struct Nested<'p> {
    /// The arrays of the program.
    pub arrays: &'p Arrays,
    /// The number of the construct's site.
    pub site: u16,
    /// The `par` or `team`.
    pub construct: &'p Stmt,
    /// The loop variables around it.
    pub vars: Vars,
    /// The store before the construct, with one value for each cell of the arrays.
    pub store: Store,
}

impl<'p> Model for Nested<'p> {
    ghost use Rattle.std.specs.Coded.{codes};
    ghost use Rattle.array_tree.specs.contracts.tree.Arrays as arrays_type;
    ghost use Rattle.array_tree.specs.contracts.tree.Stmt as stmt_type;
    ghost use Rattle.step_eval.specs.Nests.{NestedParts, IsFitNest, nested_of};

    ghost Value = { NestedParts };

    ghost coded = { Prim.hlevel (codes, arrays_type.the_row.coded, stmt_type.the_row.coded) };

    ghost view = { λ nested. record { arrays = nested.arrays.now; site = nested.site; construct = nested.construct.now; vars = nested.vars; store = nested.store } };

    ghost invariant = { λ nested.
        IsFitNest (nested_of record {
          arrays = nested.arrays.now;
          site = nested.site;
          construct = nested.construct.now;
          vars = nested.vars;
          store = nested.store;
        }) };
}

impl<'p> Nested<'p> {
    /// An equal construct, which shares variables and store.
    ///
    /// # Errors
    ///
    /// `AllocError`, as the contract allows.
    ///
    /// # Memory
    ///
    /// This implementation does not allocate.
    pub fn copy(&self) -> Result<Nested<'p>, AllocError>
        ensures { IfOk result (λ nested. nested ≡ self.now) }
    {
        Ok(Nested {
            arrays: self.arrays,
            site: self.site,
            construct: self.construct,
            vars: self.vars.copy()?,
            store: self.store.copy()?,
        })
    }
}

impl PartialEq for Nested<'_> {
    ghost use Rattle.array_tree.specs.EqualLaws.{equal_laws};
    ghost use Rattle.step_eval.specs.Nests.{nested_of};
    ghost use Rattle.step_eval.specs.NestEqual.{nested_eq, nested_same, nested_refl};

    ghost eq = { λ a b. nested_eq (nested_of a) (nested_of b) };

    ghost laws = { equal_laws nested_of nested_eq nested_same nested_refl };

    fn eq(&self, other: &Nested<'_>) -> bool
        ensures tested { result ≡ nested_eq (nested_of self.now) (nested_of other.now) }
        ensures same { IsTrue result ↔ (nested_of self.now ≡ nested_of other.now) }
    {
        same_nested(self, other)
    }
}

// Equality itself, apart from the impl.
fn same_nested(a: &Nested, b: &Nested) -> bool
    ensures { result ≡ nested_eq (nested_of a.now) (nested_of b.now) }
{
    a.site == b.site
        && a.vars == b.vars
        && a.store == b.store
        && *a.construct == *b.construct
        && *a.arrays == *b.arrays
}
