//! The statements inside an outermost construct: an add goes to a row.
ghost use Rattle.std.specs.Prelude.{◌≡◌, pos, Some, IfOk};
ghost use Rattle.array_tree.specs.Trees.{Number, Var, Binary, expression_of, statement_of, sequence_of, sequences_of};
ghost use Rattle.array_tree.specs.declared.tree.Op.TheVariants.{Add, Sub};
ghost use Rattle.spread_laws.specs.Spread.{number, member_row, row_cell, spread_assign, spread_inside, statement_spread_inside, spread_branches, spread_phases};
ghost use Rattle.spread_laws.specs.Adds.{added};
ghost use Rattle.spread_laws.specs.Served.{IsNarrowExpression, IsNarrowSequence, IsNarrowStatement, AreNarrow};

use crate::adds::added;
use crate::build::{binary, cell, difference, number, variable};
use crate::copies::{copy_expression, copy_statement};
use crate::names::rows_name;
use array_eval::Layout;
use array_tree::{Block, Blocks, Expr, Name, Op, Stmt};
use std::alloc::{AllocError, Global};

/// The branches of a `par`, each with its number as its row.
pub(crate) fn spread_branches(
    alloc: Global,
    layout: &Layout<'_>,
    branches: &Blocks,
) -> Result<Blocks, AllocError>
    ensures spread { IfOk result (λ t. sequences_of t
        ≡ spread_branches layout.now 0 (sequences_of branches.now)) }
    ensures narrow { IfOk result (λ t. AreNarrow (sequences_of branches.now)) }
{
    let mut blocks = Vec::new(alloc);
    for branch in &branches.blocks {
        let row = Expr::Number(blocks.len() as i64);
        blocks.push(spread_block(alloc, layout, branch, &row)?)?;
    }
    Ok(Blocks { blocks })
}

/// The phases of a team, with one row expression for all.
pub(crate) fn spread_phases(
    alloc: Global,
    layout: &Layout<'_>,
    row: &Expr,
    phases: &Blocks,
) -> Result<Blocks, AllocError>
    ensures spread { IfOk result (λ t. sequences_of t
        ≡ spread_phases layout.now (expression_of row.now) (sequences_of phases.now)) }
    ensures narrow { IfOk result (λ t. AreNarrow (sequences_of phases.now)) }
{
    let mut blocks = Vec::new(alloc);
    for phase in &phases.blocks {
        blocks.push(spread_block(alloc, layout, phase, row)?)?;
    }
    Ok(Blocks { blocks })
}

/// The member that has the iteration of a team's variable: ((var - low + 1) * members - 1) / iterations.
pub(crate) fn member_row(
    alloc: Global,
    var: &Name,
    low: i64,
    high: i64,
    members: i64,
) -> Result<Expr, AllocError>
    ensures { IfOk result (λ e. expression_of e ≡ member_row var.now low high members) }
{
    let place = iteration_number(alloc, var, low)?;
    let dealt = binary(alloc, Op::Mul, place, Expr::Number(members))?;
    let behind = binary(alloc, Op::Sub, dealt, Expr::Number(1))?;
    binary(
        alloc,
        Op::Div,
        behind,
        number(alloc, difference(high, low))?,
    )
}

// The number of an iteration, from 1: var - low + 1.
fn iteration_number(alloc: Global, var: &Name, low: i64) -> Result<Expr, AllocError>
    ensures { IfOk result (λ e. expression_of e
        ≡ Binary Add (Binary Sub (Var var.now) (number low)) (Number (pos 1))) }
{
    let from_low = binary(alloc, Op::Sub, variable(var)?, number(alloc, low)?)?;
    binary(alloc, Op::Add, from_low, Expr::Number(1))
}

// A block of a branch or an iteration that has this row.
#[cycle(inside)]
fn spread_block(
    alloc: Global,
    layout: &Layout<'_>,
    block: &Block,
    row: &Expr,
) -> Result<Block, AllocError>
    ensures spread { IfOk result (λ t. sequence_of t
        ≡ spread_inside layout.now (expression_of row.now) (sequence_of block.now)) }
    ensures narrow { IfOk result (λ t. IsNarrowSequence (sequence_of block.now)) }
{
    let mut statements = Vec::new(alloc);
    for statement in &block.statements {
        statements.push(spread_statement(alloc, layout, statement, row)?)?;
    }
    Ok(Block { statements })
}

// The same for a statement. A construct inside the outermost one is unchanged.
#[cycle(inside)]
fn spread_statement(
    alloc: Global,
    layout: &Layout<'_>,
    statement: &Stmt,
    row: &Expr,
) -> Result<Stmt, AllocError>
    ensures spread { IfOk result (λ t. statement_of t
        ≡ statement_spread_inside layout.now (expression_of row.now) (statement_of statement.now)) }
    ensures narrow { IfOk result (λ t. IsNarrowStatement (statement_of statement.now)) }
{
    match statement {
        Stmt::Assign {
            line,
            array,
            index,
            value,
        } => spread_assign(alloc, layout, row, *line, array, index, value),
        Stmt::For {
            line,
            var,
            low,
            high,
            body,
        } => Ok(Stmt::For {
            line: *line,
            var: var.copy()?,
            low: *low,
            high: *high,
            body: spread_block(alloc, layout, body, row)?,
        }),
        Stmt::If {
            line,
            cond,
            then_block,
            else_block,
        } => Ok(Stmt::If {
            line: *line,
            cond: copy_expression(alloc, cond)?,
            then_block: spread_block(alloc, layout, then_block, row)?,
            else_block: spread_block(alloc, layout, else_block, row)?,
        }),
        Stmt::Par { .. } | Stmt::Team { .. } => copy_statement(alloc, statement),
    }
}

// An assignment: an add goes to the row, any other is unchanged.
fn spread_assign(
    alloc: Global,
    layout: &Layout<'_>,
    row: &Expr,
    line: u32,
    array: &Name,
    index: &Expr,
    value: &Expr,
) -> Result<Stmt, AllocError>
    ensures spread { IfOk result (λ t. statement_of t
        ≡ spread_assign layout.now (expression_of row.now) line array.now
        (expression_of index.now) (expression_of value.now)
        (added array.now (expression_of index.now) (expression_of value.now))) }
    ensures index { IfOk result (λ t. IsNarrowExpression (expression_of index.now)) }
    ensures value { IfOk result (λ t. IsNarrowExpression (expression_of value.now)) }
{
    match added(array, index, value) {
        None => Ok(Stmt::Assign {
            line,
            array: array.copy()?,
            index: copy_expression(alloc, index)?,
            value: copy_expression(alloc, value)?,
        }),
        Some(added) => add_to_row(alloc, layout, row, line, array, index, added),
    }
}

// The add of a value to the row's cell for this one of the array.
fn add_to_row(
    alloc: Global,
    layout: &Layout<'_>,
    row: &Expr,
    line: u32,
    array: &Name,
    index: &Expr,
    added: &Expr,
) -> Result<Stmt, AllocError>
    ensures spread { IfOk result (λ t. statement_of t
        ≡ spread_assign layout.now (expression_of row.now) line array.now
        (expression_of index.now) (expression_of added.now) (Some (expression_of added.now))) }
    ensures index { IfOk result (λ t. IsNarrowExpression (expression_of index.now)) }
    ensures added { IfOk result (λ t. IsNarrowExpression (expression_of added.now)) }
{
    let rows = rows_name(alloc, array)?;
    let place = row_cell(alloc, layout, row, array, index)?;
    let old = cell(alloc, &rows, copy_expression(alloc, &place)?)?;
    Ok(Stmt::Assign {
        line,
        array: rows,
        index: place,
        value: binary(alloc, Op::Add, old, copy_expression(alloc, added)?)?,
    })
}

// The index of an array's cell in the rows: row * length + e.
fn row_cell(
    alloc: Global,
    layout: &Layout<'_>,
    row: &Expr,
    array: &Name,
    index: &Expr,
) -> Result<Expr, AllocError>
    ensures cell { IfOk result (λ e. expression_of e
        ≡ row_cell layout.now (expression_of row.now) array.now (expression_of index.now)) }
    ensures narrow { IfOk result (λ e. IsNarrowExpression (expression_of index.now)) }
{
    let length = Expr::Number(layout.place_of(array).length as i64);
    let first = binary(alloc, Op::Mul, copy_expression(alloc, row)?, length)?;
    binary(alloc, Op::Add, first, copy_expression(alloc, index)?)
}
