//! The kinds of a program's sites, and the lines of their constructs.
ghost use Rattle.std.specs.Prelude.{◌≡◌, ◌++◌, ◌∷◌, IfOk, OnOk};
ghost use Rattle.array_tree.specs.Trees.{statement_of, sequence_of, sequences_of, program_of};
ghost use Rattle.picture_call.specs.Shapes.{branches_shapes, par_shape, phases_shapes, sequence_shapes, shapes_of, statement_shapes, team_shape, turns_of};

use array_eval::span;
use array_tree::{Block, Blocks, Program, Stmt};
use journal_picture::{Kind, Shape};
use std::alloc::{AllocError, Global};

/// The shapes of the sites of a program, in the order of its plan. The schedulers of its teams are of this kind.
pub(crate) fn shapes_of(
    alloc: Global,
    teams: Kind,
    program: &Program,
) -> Result<Vec<Shape>, AllocError>
    ensures { IfOk result (λ shapes. shapes.items ≡ shapes_of teams (program_of program.now)) }
{
    let mut shapes = Vec::new(alloc);
    add_block(alloc, teams, &program.body, &mut shapes)?;
    Ok(shapes)
}

// Adds those of a block.
#[cycle(shapes)]
fn add_block(
    alloc: Global,
    teams: Kind,
    block: &Block,
    shapes: &mut Vec<Shape>,
) -> Result<(), AllocError>
    ensures { OnOk result (shapes.new.items ≡ shapes.old.items
        ++ sequence_shapes teams (sequence_of block.now)) }
{
    for statement in &block.statements {
        add_statement(alloc, teams, statement, shapes)?;
    }
    Ok(())
}

// The same of a statement: a construct comes before those inside it.
#[cycle(shapes)]
fn add_statement(
    alloc: Global,
    teams: Kind,
    statement: &Stmt,
    shapes: &mut Vec<Shape>,
) -> Result<(), AllocError>
    ensures { OnOk result (shapes.new.items ≡ shapes.old.items
        ++ statement_shapes teams (statement_of statement.now)) }
{
    match statement {
        Stmt::Assign { .. } => Ok(()),
        Stmt::For {
            low,
            high,
            body,
            ..
        } => add_turns(alloc, teams, body, span(*low, *high), shapes),
        Stmt::If {
            then_block,
            else_block,
            ..
        } => {
            add_block(alloc, teams, then_block, shapes)?;
            add_block(alloc, teams, else_block, shapes)
        }
        Stmt::Par { line, branches } => add_par(alloc, teams, *line, branches, shapes),
        Stmt::Team {
            line,
            low,
            high,
            phases,
            ..
        } => add_team(alloc, teams, *line, phases, span(*low, *high), shapes),
    }
}

// Adds the shape of a `par`, and those in its branches.
#[cycle(shapes)]
fn add_par(
    alloc: Global,
    teams: Kind,
    line: u32,
    branches: &Blocks,
    shapes: &mut Vec<Shape>,
) -> Result<(), AllocError>
    ensures { OnOk result (shapes.new.items ≡ shapes.old.items
        ++ (par_shape line ∷ branches_shapes teams (sequences_of branches.now))) }
{
    shapes.push(Shape {
        kind: Kind::POOL,
        phased: false,
        line,
    })?;
    add_branches(alloc, teams, branches, shapes)
}

// Adds the shape of a `team`, and those in its phases, each over all its iterations.
#[cycle(shapes)]
fn add_team(
    alloc: Global,
    teams: Kind,
    line: u32,
    phases: &Blocks,
    iterations: u64,
    shapes: &mut Vec<Shape>,
) -> Result<(), AllocError>
    ensures { OnOk result (shapes.new.items ≡ shapes.old.items
        ++ (team_shape teams line ∷ phases_shapes teams (sequences_of phases.now) iterations)) }
{
    shapes.push(Shape {
        kind: teams,
        phased: true,
        line,
    })?;
    add_phases(alloc, teams, phases, iterations, shapes)
}

// Adds those of the branches of a `par`.
#[cycle(shapes)]
fn add_branches(
    alloc: Global,
    teams: Kind,
    branches: &Blocks,
    shapes: &mut Vec<Shape>,
) -> Result<(), AllocError>
    ensures { OnOk result (shapes.new.items ≡ shapes.old.items
        ++ branches_shapes teams (sequences_of branches.now)) }
{
    for branch in &branches.blocks {
        add_block(alloc, teams, branch, shapes)?;
    }
    Ok(())
}

// The same of the phases of a `team`, each over all its iterations.
#[cycle(shapes)]
fn add_phases(
    alloc: Global,
    teams: Kind,
    phases: &Blocks,
    iterations: u64,
    shapes: &mut Vec<Shape>,
) -> Result<(), AllocError>
    ensures { OnOk result (shapes.new.items ≡ shapes.old.items
        ++ phases_shapes teams (sequences_of phases.now) iterations) }
{
    for phase in &phases.blocks {
        add_turns(alloc, teams, phase, iterations, shapes)?;
    }
    Ok(())
}

// The same of the turns of a loop.
#[cycle(shapes)]
fn add_turns(
    alloc: Global,
    teams: Kind,
    body: &Block,
    turns: u64,
    shapes: &mut Vec<Shape>,
) -> Result<(), AllocError>
    ensures { OnOk result (shapes.new.items ≡ shapes.old.items
        ++ turns_of turns (sequence_shapes teams (sequence_of body.now))) }
{
    let mut once = Vec::new(alloc);
    add_block(alloc, teams, body, &mut once)?;
    add_times(&once, turns, shapes)
}

// Adds the shapes `once`, `turns` times. Why the first test: a loop over no shapes would take as long as the turns are many.
fn add_times(once: &[Shape], turns: u64, shapes: &mut Vec<Shape>) -> Result<(), AllocError>
    ensures { OnOk result (shapes.new.items ≡ shapes.old.items ++ turns_of turns once.now) }
{
    if once.is_empty() {
        return Ok(());
    }
    for _i in 0..turns {
        shapes.extend_from_slice(once)?;
    }
    Ok(())
}
