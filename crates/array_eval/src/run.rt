//! Running a program on one thread.
ghost use Rattle.std.specs.Prelude.{◌≡◌, IfOk, length};
ghost use Rattle.array_tree.specs.Trees.{expression_of, statement_of, sequence_of, sequences_of, declarations_of, program_of};
ghost use Rattle.array_meaning.specs.Stores.{arrays_of, AreSized, cells_of, cell_of, is_dynamic, value_of};
ghost use Rattle.array_meaning.specs.Work.{statement_work, sequence_work, branches_work, phases_work, loop, final_store};
ghost use Rattle.array_eval.specs.Traces.{noted, traced};
ghost use Rattle.array_eval.specs.Views.{vars_of};

use crate::acts::{acts_of, run_acts};
use crate::cells::cell;
use crate::fixed::FixedTurn;
use crate::layout::Layout;
use crate::marked_store::MarkedStore;
use crate::scope::Scope;
use crate::store::Store;
use crate::value::evaluate;
use array_tree::{Block, Blocks, Expr, Name, Program, Stmt};
use std::alloc::{AllocError, Global};

/// The least number of turns for which an assignment to one cell is resolved, if its value reads cells.
///
/// Why: resolving such an assignment costs as much as it saves in about a dozen turns.
const MANY_TURNS: i64 = 16;

/// The store with which a program ends on one thread, branches from left to right and phases one after another.
///
/// Each array must have a cell, and all arrays together at most 4,096. The names needn't be known, nor the indexes inside their
/// arrays: a read after the last cell returns 0, and a write there does nothing.
///
/// # Errors
///
/// `AllocError` if an allocation fails.
///
/// # Memory
///
/// It allocates the layout, a store with a copy of each written page, and what `run_loop` allocates.
#[tactic(auto, using(array_meaning::proofs::StepLemmas::length_after, crate::proofs::TraceLemmas::cells_after))]
pub fn run_one(alloc: Global, program: &Program) -> Result<Store, AllocError>
    requires { AreSized (arrays_of (declarations_of program.now.arrays)) }
    ensures meaning { IfOk result (λ store. store ≡ final_store (program_of program.now)) }
    ensures whole { IfOk result
        (λ store. length store ≡ cells_of (arrays_of (declarations_of program.now.arrays))) }
{
    let layout = Layout::new(alloc, &program.arrays)?;
    let zero = Store::zero(alloc, layout.cells() as u16)?;
    let mut store = MarkedStore::new(alloc, &zero)?;
    run_block(&layout, &program.body, &Scope::Outermost, &mut store);
    store.to_store(alloc)
}

/// Runs a block.
#[cycle(run)]
pub fn run_block<'s>(
    layout: &Layout,
    block: &'s Block,
    scope: &'s Scope<'s>,
    store: &mut MarkedStore,
)
    ensures { store.new ≡ traced layout.now
        (sequence_work (sequence_of block.now) (vars_of scope.now)) store.old }
{
    for statement in &block.statements {
        run_statement(layout, statement, scope, store);
    }
}

/// Runs an assignment: computes index and value, and then writes the cell.
pub fn run_assign(
    layout: &Layout,
    array: &Name,
    index: &Expr,
    right: &Expr,
    scope: &Scope,
    store: &mut MarkedStore,
)
    ensures { store.new ≡ noted (cell_of layout.now array.now (is_dynamic (expression_of index.now))
        (value_of layout.now (vars_of scope.now) (expression_of index.now) store.old.cells))
        (value_of layout.now (vars_of scope.now)
        (expression_of right.now) store.old.cells) store.old }
{
    let place = evaluate(layout, index, scope, store);
    let number = evaluate(layout, right, scope, store);
    store.write(cell(layout, array, index, place), number);
}

// Runs a statement.
#[cycle(run)]
fn run_statement<'s>(
    layout: &Layout,
    statement: &'s Stmt,
    scope: &'s Scope<'s>,
    store: &mut MarkedStore,
)
    ensures { store.new ≡ traced layout.now (statement_work (statement_of statement.now)
        (vars_of scope.now)) store.old }
{
    match statement {
        Stmt::Assign {
            array,
            index,
            value: right,
            ..
        } => run_assign(layout, array, index, right, scope, store),
        Stmt::For {
            var,
            low,
            high,
            body,
            ..
        } => run_loop(layout, body, var, *low, *high, scope, store),
        Stmt::If {
            cond,
            then_block,
            else_block,
            ..
        } => {
            if evaluate(layout, cond, scope, store) != 0 {
                run_block(layout, then_block, scope, store);
            } else {
                run_block(layout, else_block, scope, store);
            }
        }
        Stmt::Par { branches, .. } => run_branches(layout, branches, scope, store),
        Stmt::Team {
            var,
            low,
            high,
            phases,
            ..
        } => run_phases(layout, phases, var, *low, *high, scope, store),
    }
}

/// Runs a block once for each number from `low` to before `high`, with that number as the variable.
///
/// # Memory
///
/// For a block of assignments and at least 12 numbers it may allocate the block with its names resolved, and frees it before
/// it returns. If an allocation fails, it runs the block as it is.
#[cycle(run)]
pub fn run_loop<'s>(
    layout: &Layout,
    body: &'s Block,
    var: &'s Name,
    low: i64,
    high: i64,
    scope: &'s Scope<'s>,
    store: &mut MarkedStore,
)
    ensures { store.new ≡ traced layout.now
        (loop var.now low high (sequence_work (sequence_of body.now))
        (vars_of scope.now)) store.old }
{
    let turns = high.saturating_sub(low);
    match FixedTurn::of(layout, body, var, turns, scope) {
        Some(fixed) if turns < MANY_TURNS || !fixed.reads_cells() => {
            fixed.run_all(layout, var, low, high, scope, store)
        }
        _ => run_resolved(layout, body, var, low, high, scope, store),
    }
}

// Runs the turns of a loop, with the names of its body resolved if they can be.
#[cycle(run)]
fn run_resolved<'s>(
    layout: &Layout,
    body: &'s Block,
    var: &'s Name,
    low: i64,
    high: i64,
    scope: &'s Scope<'s>,
    store: &mut MarkedStore,
)
    ensures { store.new ≡ traced layout.now
        (loop var.now low high (sequence_work (sequence_of body.now))
        (vars_of scope.now)) store.old }
{
    match acts_of(layout, body, var, high.saturating_sub(low), scope) {
        Some(acts) => run_acts(&acts, low, high, store),
        None => run_turns(layout, body, var, low, high, scope, store),
    }
}

// Runs the turns of a loop, each as its body.
#[cycle(run)]
fn run_turns<'s>(
    layout: &Layout,
    body: &'s Block,
    var: &'s Name,
    low: i64,
    high: i64,
    scope: &'s Scope<'s>,
    store: &mut MarkedStore,
)
    ensures { store.new ≡ traced layout.now
        (loop var.now low high (sequence_work (sequence_of body.now))
        (vars_of scope.now)) store.old }
{
    for number in low..high {
        let turn = Scope::Turn {
            name: var,
            value: number,
            outer: scope,
        };
        run_block(layout, body, &turn, store);
    }
}

// Runs the branches of a `par`, one after another.
#[cycle(run)]
fn run_branches<'s>(
    layout: &Layout,
    branches: &'s Blocks,
    scope: &'s Scope<'s>,
    store: &mut MarkedStore,
)
    ensures { store.new ≡ traced layout.now (branches_work (sequences_of branches.now)
        (vars_of scope.now)) store.old }
{
    for branch in &branches.blocks {
        run_block(layout, branch, scope, store);
    }
}

// Runs the phases of a `team`, one after another.
#[cycle(run)]
fn run_phases<'s>(
    layout: &Layout,
    phases: &'s Blocks,
    var: &'s Name,
    low: i64,
    high: i64,
    scope: &'s Scope<'s>,
    store: &mut MarkedStore,
)
    ensures { store.new ≡ traced layout.now (phases_work (sequences_of phases.now) var.now low high
        (vars_of scope.now)) store.old }
{
    for phase in &phases.blocks {
        run_loop(layout, phase, var, low, high, scope, store);
    }
}
