//! Constructs that are handed out.
ghost use Rattle.std.specs.Prelude.{◌≡◌, ◌↔◌, IsTrue, IfOk};
ghost use Rattle.array_tree.specs.Trees.{declarations_of, statement_of};
ghost use Rattle.array_meaning.specs.Stores.{AreSized, arrays_of, cells_of};
ghost use Rattle.step_eval.specs.Nests.{rounds_of};
ghost use Rattle.phase_order.specs.Crossings.{HasNoCrossing};
ghost use Rattle.phase_order.specs.Tests.{crossing};

use crate::crossing::crossing_of;
use array_eval::{Layout, Scope, Vars};
use array_tree::{Arrays, Stmt};
use site_walk::Turns;
use std::alloc::{AllocError, Global};
use step_eval::Nested;

// The least cell on which two pieces of a construct cross, with these variables around it.
fn construct_crossing(
    alloc: Global,
    arrays: &Arrays,
    construct: &Stmt,
    vars: &Vars,
) -> Result<Option<u16>, AllocError>
    requires { AreSized (arrays_of (declarations_of arrays.now)) }
    ensures { IfOk result (λ found. found ≡ crossing (arrays_of (declarations_of arrays.now))
        (cells_of (arrays_of (declarations_of arrays.now)))
        (rounds_of (statement_of construct.now) vars.now)) }
{
    match construct {
        Stmt::Team {
            var,
            low,
            high,
            members,
            phases,
            ..
        } => {
            let layout = Layout::new(alloc, arrays)?;
            let turns = Turns {
                var,
                low: *low,
                high: *high,
            };
            crossing_of(
                alloc,
                &layout,
                phases,
                turns,
                members.unsigned_abs(),
                &Scope::Kept(vars),
            )
        }
        Stmt::Par { .. } => Ok(None),
        Stmt::Assign { .. } => Ok(None),
        Stmt::For { .. } => Ok(None),
        Stmt::If { .. } => Ok(None),
    }
}

/// Whether no two pieces of a construct cross, with the variables around it. The pieces of a `par` never cross.
///
/// # Errors
///
/// `AllocError` if an allocation fails.
///
/// # Memory
///
/// It allocates the walk's tables.
pub fn uncrossed(alloc: Global, nested: &Nested) -> Result<bool, AllocError>
    ensures { IfOk result (λ clear. IsTrue clear ↔ HasNoCrossing (arrays_of (declarations_of nested.now.arrays))
        (rounds_of (statement_of nested.now.construct) nested.now.vars)) }
{
    // Why: the construct has a piece, whose job's invariant puts the arrays in their limits. Reading its phases makes that
    // known.
    let _phases = nested.phases();
    let _members = nested.members();
    let crossing = construct_crossing(alloc, nested.arrays, nested.construct, &nested.vars)?;
    Ok(crossing.is_none())
}
