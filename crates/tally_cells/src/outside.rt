//! The statements outside all constructs: a construct with adds gets loops around it.
ghost use Rattle.std.specs.Prelude.{◌≡◌, ◌++◌, ◌≤◌, map, OnOk, IfOk, IsTrue};
ghost use Rattle.array_tree.specs.Trees.{statement_of, sequence_of};
ghost use Rattle.array_meaning.specs.Bounds.{most_members};
ghost use Rattle.array_meaning.specs.Limits.{has_right_ranges, statement_has_right_ranges};
ghost use Rattle.spread_laws.specs.Spread.{added_in, with_loops, spread_sequence, spread_statement};
ghost use Rattle.spread_laws.specs.Served.{IsNarrowSequence, IsNarrowStatement};

use crate::copies::{copy_expression, copy_statement};
use crate::inside::{member_row, spread_branches, spread_phases};
use crate::loops::{push_fold_loops, push_zero_loops};
use array_eval::Layout;
use array_tree::{Block, Stmt};
use site_counts::count_of;
use std::alloc::{AllocError, Global};

/// A block outside all constructs, spread.
#[cycle(outside)]
pub(crate) fn spread_block(
    alloc: Global,
    layout: &Layout<'_>,
    block: &Block,
) -> Result<Block, AllocError>
    requires { IsTrue (has_right_ranges (sequence_of block.now)) }
    ensures spread { IfOk result (λ t. sequence_of t
        ≡ spread_sequence layout.now (sequence_of block.now)) }
    ensures narrow { IfOk result (λ t. IsNarrowSequence (sequence_of block.now)) }
{
    let mut statements = Vec::new(alloc);
    for statement in &block.statements {
        push_spread(alloc, layout, statement, &mut statements)?;
    }
    Ok(Block { statements })
}

// Adds the statements that a statement is spread to.
#[cycle(outside)]
fn push_spread(
    alloc: Global,
    layout: &Layout<'_>,
    statement: &Stmt,
    out: &mut Vec<Stmt>,
) -> Result<(), AllocError>
    requires { IsTrue (statement_has_right_ranges (statement_of statement.now)) }
    ensures spread { OnOk result (map statement_of out.new.items ≡ map statement_of out.old.items
        ++ spread_statement layout.now (statement_of statement.now)) }
    ensures narrow { OnOk result (IsNarrowStatement (statement_of statement.now)) }
{
    match statement {
        Stmt::Assign { .. } => {
            out.push(copy_statement(alloc, statement)?)?;
            Ok(())
        }
        Stmt::For {
            line,
            var,
            low,
            high,
            body,
        } => {
            out.push(Stmt::For {
                line: *line,
                var: var.copy()?,
                low: *low,
                high: *high,
                body: spread_block(alloc, layout, body)?,
            })?;
            Ok(())
        }
        Stmt::If {
            line,
            cond,
            then_block,
            else_block,
        } => {
            out.push(Stmt::If {
                line: *line,
                cond: copy_expression(alloc, cond)?,
                then_block: spread_block(alloc, layout, then_block)?,
                else_block: spread_block(alloc, layout, else_block)?,
            })?;
            Ok(())
        }
        Stmt::Par { line, branches } => {
            let spread = Stmt::Par {
                line: *line,
                branches: spread_branches(alloc, layout, branches)?,
            };
            let rows = count_of(branches) as u64;
            push_with_loops(alloc, layout, statement, *line, rows, spread, out)
        }
        Stmt::Team {
            line,
            var,
            low,
            high,
            members,
            phases,
        } => {
            let row = member_row(alloc, var, *low, *high, *members)?;
            let spread = Stmt::Team {
                line: *line,
                var: var.copy()?,
                low: *low,
                high: *high,
                members: *members,
                phases: spread_phases(alloc, layout, &row, phases)?,
            };
            let rows = members.unsigned_abs();
            push_with_loops(alloc, layout, statement, *line, rows, spread, out)
        }
    }
}

// Adds a spread construct of `rows` rows, with the loops around it. `construct` is the construct before the spread.
fn push_with_loops(
    alloc: Global,
    layout: &Layout<'_>,
    construct: &Stmt,
    line: u32,
    rows: u64,
    spread: Stmt,
    out: &mut Vec<Stmt>,
) -> Result<(), AllocError>
    requires { rows ≤ most_members }
    ensures { OnOk result (map statement_of out.new.items ≡ map statement_of out.old.items
        ++ with_loops line rows (added_in layout.now (statement_of construct.now))
        (statement_of spread)) }
{
    let arrays = &layout.arrays().declarations;
    push_zero_loops(alloc, arrays, construct, line, rows, out)?;
    out.push(spread)?;
    push_fold_loops(alloc, arrays, construct, line, rows, out)
}
