//! The walk through a program.
ghost use Rattle.std.specs.Prelude.{◌≡◌, IfOk};
ghost use Rattle.array_tree.specs.Trees.{statement_of, sequence_of, sequences_of, declarations_of, program_of};
ghost use Rattle.array_meaning.specs.Stores.{arrays_of, AreSized};
ghost use Rattle.array_meaning.specs.Plans.{sites_in};
ghost use Rattle.array_meaning.specs.Entered.{branches_part, entered_of, loop_part, phases_part, sequence_part, statement_part};
ghost use Rattle.array_eval.specs.Views.{vars_of};
ghost use Rattle.entered_sites.specs.Recorded.{recorded};

use crate::choice::has_no_choice;
use crate::walker::Walker;
use array_eval::{Layout, Scope, Store};
use array_tree::{Block, Blocks, Name, Program, Stmt};
use site_counts::sites_in_block;
use std::alloc::{AllocError, Global};

/// For each site of a program's plan, in the plan's order: whether the one-thread meaning enters it from zero cells.
///
/// `sites` must be the number of the plan's sites. Each array must have a cell, and all arrays together at most 4,096. A
/// program without a construct under an `if` enters all its sites, and isn't evaluated.
///
/// # Errors
///
/// `AllocError` if an allocation fails.
///
/// # Memory
///
/// It allocates a flag for each site, and a store if a construct is under an `if`.
pub fn entered(alloc: Global, program: &Program, sites: u16) -> Result<Vec<bool>, AllocError>
    requires sized { AreSized (arrays_of (declarations_of program.now.arrays)) }
    requires sites { sites ≡ sites_in (program_of program.now).body }
    ensures { IfOk result (λ list. list.items ≡ entered_of (program_of program.now)) }
{
    if has_no_choice(&program.body, false) {
        return vec![in alloc; true; usize::from(sites)];
    }
    walked(alloc, program, sites)
}

// The same, by a walk through a run of the program.
fn walked(alloc: Global, program: &Program, sites: u16) -> Result<Vec<bool>, AllocError>
    requires sized { AreSized (arrays_of (declarations_of program.now.arrays)) }
    ensures { IfOk result (λ list. list.items ≡ entered_of (program_of program.now)) }
{
    let layout = Layout::new(alloc, &program.arrays)?;
    let zero = Store::zero(alloc, layout.cells() as u16)?;
    let mut walker = Walker::new(alloc, &zero, sites)?;
    walk_block(&layout, &program.body, &Scope::Outermost, &mut walker)?;
    Ok(walker.into_sites())
}

// Runs a block and records its sites. A block without sites runs without a record.
#[cycle(walk)]
fn walk_block<'s>(
    layout: &Layout,
    block: &'s Block,
    scope: &'s Scope<'s>,
    walker: &mut Walker,
) -> Result<(), AllocError>
    ensures { IfOk result (λ _. walker.new ≡ recorded layout.now (sequence_part layout.now (sequence_of block.now) (vars_of scope.now)) walker.old) }
{
    if sites_in_block(block) == 0 {
        walker.run_block(layout, block, scope);
        return Ok(());
    }
    walk_statements(layout, block, scope, walker)
}

// The same for a block that may have sites.
#[cycle(walk)]
fn walk_statements<'s>(
    layout: &Layout,
    block: &'s Block,
    scope: &'s Scope<'s>,
    walker: &mut Walker,
) -> Result<(), AllocError>
    ensures { IfOk result (λ _. walker.new ≡ recorded layout.now (sequence_part layout.now (sequence_of block.now) (vars_of scope.now)) walker.old) }
{
    for statement in &block.statements {
        walk_statement(layout, statement, scope, walker)?;
    }
    Ok(())
}

// The same for a statement. A construct comes before the sites inside it. The sites of the side of an `if` that isn't taken are
// passed over, those of the then side first.
#[cycle(walk)]
fn walk_statement<'s>(
    layout: &Layout,
    statement: &'s Stmt,
    scope: &'s Scope<'s>,
    walker: &mut Walker,
) -> Result<(), AllocError>
    ensures { IfOk result (λ _. walker.new ≡ recorded layout.now (statement_part layout.now (statement_of statement.now) (vars_of scope.now)) walker.old) }
{
    match statement {
        Stmt::Assign {
            array,
            index,
            value: right,
            ..
        } => {
            walker.assign(layout, array, index, right, scope);
            Ok(())
        }
        Stmt::For {
            var,
            low,
            high,
            body,
            ..
        } => walk_loop(layout, body, var, *low, *high, scope, walker),
        Stmt::If {
            cond,
            then_block,
            else_block,
            ..
        } => {
            if walker.value(layout, cond, scope) != 0 {
                walk_block(layout, then_block, scope, walker)?;
                walker.pass(else_block)
            } else {
                walker.pass(then_block)?;
                walk_block(layout, else_block, scope, walker)
            }
        }
        Stmt::Par { branches, .. } => {
            walker.enter()?;
            walk_branches(layout, branches, scope, walker)
        }
        Stmt::Team {
            var,
            low,
            high,
            phases,
            ..
        } => {
            walker.enter()?;
            walk_phases(layout, phases, var, *low, *high, scope, walker)
        }
    }
}

// The same for a block for each number from `low` to before `high`, with that number as the variable.
#[cycle(walk)]
fn walk_loop<'s>(
    layout: &Layout,
    body: &'s Block,
    var: &'s Name,
    low: i64,
    high: i64,
    scope: &'s Scope<'s>,
    walker: &mut Walker,
) -> Result<(), AllocError>
    ensures { IfOk result (λ _. walker.new ≡ recorded layout.now (loop_part layout.now var.now low high (sequence_part layout.now (sequence_of body.now)) (vars_of scope.now)) walker.old) }
{
    // Why `low < high` comes first: the sites of a body that doesn't run needn't be counted.
    if low < high && sites_in_block(body) == 0 {
        walker.run_loop(layout, body, var, low, high, scope);
        return Ok(());
    }
    for number in low..high {
        let turn = Scope::Turn {
            name: var,
            value: number,
            outer: scope,
        };
        walk_statements(layout, body, &turn, walker)?;
    }
    Ok(())
}

// The same for the branches of a `par`, one after another.
#[cycle(walk)]
fn walk_branches<'s>(
    layout: &Layout,
    branches: &'s Blocks,
    scope: &'s Scope<'s>,
    walker: &mut Walker,
) -> Result<(), AllocError>
    ensures { IfOk result (λ _. walker.new ≡ recorded layout.now (branches_part layout.now (sequences_of branches.now) (vars_of scope.now)) walker.old) }
{
    for branch in &branches.blocks {
        walk_block(layout, branch, scope, walker)?;
    }
    Ok(())
}

// The same for the phases of a `team`, one after another.
#[cycle(walk)]
fn walk_phases<'s>(
    layout: &Layout,
    phases: &'s Blocks,
    var: &'s Name,
    low: i64,
    high: i64,
    scope: &'s Scope<'s>,
    walker: &mut Walker,
) -> Result<(), AllocError>
    ensures { IfOk result (λ _. walker.new ≡ recorded layout.now (phases_part layout.now (sequences_of phases.now) var.now low high (vars_of scope.now)) walker.old) }
{
    for phase in &phases.blocks {
        walk_loop(layout, phase, var, low, high, scope, walker)?;
    }
    Ok(())
}
