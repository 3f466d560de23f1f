//! Loops whose body is assignments, with the names resolved before the first turn.
ghost use Rattle.std.specs.Prelude.{◌≡◌, ◌∷◌, ℕ, ℤ, List, IfOk, IfSome};
ghost use Rattle.array_tree.specs.Trees.{Sequence, expression_of, statement_of, sequence_of};
ghost use Rattle.array_meaning.specs.Stores.{Arrays, Vars, cell_of, is_dynamic, value_of};
ghost use Rattle.array_meaning.specs.Work.{statement_work, sequence_work, loop};
ghost use Rattle.array_eval.specs.Resolved.{after_act, after_acts, AreActsOf};
ghost use Rattle.array_eval.specs.Traces.{Trace, noted, traced};
ghost use Rattle.array_eval.specs.Views.{vars_of};

use crate::layout::Layout;
use crate::marked_store::MarkedStore;
use crate::resolved::{Extent, Resolved, resolve};
use crate::scope::Scope;
use array_tree::{Block, Expr, Name, Stmt};
use std::alloc::{AllocError, Global};

/// The least number of turns of a loop whose body is resolved.
///
/// Why: resolving a body costs as much as it saves in four to eight turns.
const LEAST_TURNS: i64 = 12;

/// An assignment inside a loop, with its names resolved.
#[derive(Debug, Drop)]
pub(crate) struct Act {
    extent: Extent,
    index: Resolved,
    value: Resolved,
}

impl Act {
    // An assignment resolved, for the body of a loop with this variable.
    fn of(
        alloc: Global,
        layout: &Layout,
        array: &Name,
        index: &Expr,
        value: &Expr,
        var: &Name,
        scope: &Scope,
    ) -> Result<Act, AllocError>
        ensures { IfOk result (λ act. (turn : ℤ) (t : Trace) →
            after_act act turn t ≡ noted (cell_of layout.now array.now
            (is_dynamic (expression_of index.now)) (value_of layout.now
            ((var.now, turn) ∷ vars_of scope.now) (expression_of index.now) t.cells))
            (value_of layout.now ((var.now, turn) ∷ vars_of scope.now)
            (expression_of value.now) t.cells) t) }
    {
        let place = resolve(alloc, layout, index, var, scope)?;
        let value = resolve(alloc, layout, value, var, scope)?;
        Ok(Act {
            extent: Extent::of(layout, array, index),
            index: place,
            value,
        })
    }

    // Runs the assignment in the turn of a number.
    #[inline(always)]
    fn run(&self, turn: i64, store: &mut MarkedStore)
        ensures { store.new ≡ after_act self.now turn store.old }
    {
        let place = self.index.value(turn, store);
        let number = self.value.value(turn, store);
        store.write(self.extent.cell(place), number);
    }
}

/// The assignments of a loop's body resolved, if the loop has enough turns, its body is assignments alone, and no allocation
/// fails.
///
/// # Memory
///
/// It allocates the list, and the nodes of the expressions.
pub(crate) fn acts_of(
    layout: &Layout,
    body: &Block,
    var: &Name,
    turns: i64,
    scope: &Scope,
) -> Option<Vec<Act>>
    ensures { IfSome result (λ acts. AreActsOf layout.now var.now (vars_of scope.now) acts.items
        (sequence_of body.now)) }
{
    if turns < LEAST_TURNS || !are_assignments(body) {
        return None;
    }
    let mut acts = Vec::with_capacity(layout.alloc(), body.statements.len()).ok()?;
    for statement in &body.statements {
        let act = act_of(layout, statement, var, scope)?;
        acts.push(act).ok()?;
    }
    Some(acts)
}

// A statement resolved, if it is an assignment and no allocation fails.
fn act_of(layout: &Layout, statement: &Stmt, var: &Name, scope: &Scope) -> Option<Act>
    ensures { IfSome result (λ act. (turn : ℤ) (t : Trace) → after_act act turn t
        ≡ traced layout.now (statement_work (statement_of statement.now)
        ((var.now, turn) ∷ vars_of scope.now)) t) }
{
    match statement {
        Stmt::Assign {
            array,
            index,
            value,
            ..
        } => Act::of(layout.alloc(), layout, array, index, value, var, scope).ok(),
        _ => None,
    }
}

// Whether a block is assignments alone. Why: another body isn't resolved in part first.
fn are_assignments(body: &Block) -> bool {
    for statement in &body.statements {
        let Stmt::Assign { .. } = statement else {
            return false;
        };
    }
    true
}

/// Runs the assignments for each number from `low` to before `high`.
pub(crate) fn run_acts(acts: &[Act], low: i64, high: i64, store: &mut MarkedStore)
    ensures { (arrays : Arrays) (var : List ℕ) (vars : Vars) (body : Sequence)
        → AreActsOf arrays var vars acts.now body
        → store.new ≡ traced arrays (loop var low high (sequence_work body) vars) store.old }
{
    for turn in low..high {
        run_turn(acts, turn, store);
    }
}

// Runs the assignments in the turn of a number.
#[inline(always)]
fn run_turn(acts: &[Act], turn: i64, store: &mut MarkedStore)
    ensures { store.new ≡ after_acts acts.now turn store.old }
{
    for act in acts {
        act.run(turn, store);
    }
}
