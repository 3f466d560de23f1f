//! The units of work of a program.
ghost use Rattle.std.specs.Prelude.{◌≡◌, ℕ, ◌+◌, ◌*◌};
ghost use Rattle.array_tree.specs.Trees.{expression_of, statement_of, sequence_of, sequences_of};
ghost use Rattle.array_meaning.specs.Work.{span};
ghost use Rattle.array_meaning.specs.Limits.{expression_units_of, units_of, statement_units_of, branches_units_of, phases_units_of};
ghost use Rattle.site_counts.specs.Capped.{capped};

use array_eval::span;
use array_tree::{Block, Blocks, Expr, Stmt};

/// The units of a block. Here and below, the greatest number of 64 bits also stands for all greater numbers.
#[cycle(units)]
pub(crate) fn units_of_block(block: &Block) -> u64
    ensures { result ≡ capped (units_of (sequence_of block.now)) }
{
    let mut units: u64 = 0;
    for statement in &block.statements {
        units = units.saturating_add(units_of_statement(statement));
    }
    units
}

// The units of a statement, with one for the statement itself.
#[cycle(units)]
fn units_of_statement(statement: &Stmt) -> u64
    ensures { result ≡ capped (statement_units_of (statement_of statement.now)) }
{
    match statement {
        Stmt::Assign { index, value, .. } => {
            units_of_expr(index)
                .saturating_add(units_of_expr(value))
                .saturating_add(1)
        }
        Stmt::For {
            low,
            high,
            body,
            ..
        } => units_of_turns(span(*low, *high), units_of_block(body)).saturating_add(1),
        Stmt::If {
            cond,
            then_block,
            else_block,
            ..
        } => {
            let sides = units_of_block(then_block).saturating_add(units_of_block(else_block));
            units_of_expr(cond).saturating_add(sides).saturating_add(1)
        }
        Stmt::Par { branches, .. } => units_of_branches(branches).saturating_add(1),
        Stmt::Team {
            low,
            high,
            members,
            phases,
            ..
        } => {
            units_of_phases(phases, members.unsigned_abs(), span(*low, *high)).saturating_add(1)
        }
    }
}

// The units of branches, with one for each branch.
#[cycle(units)]
fn units_of_branches(branches: &Blocks) -> u64
    ensures { result ≡ capped (branches_units_of (sequences_of branches.now)) }
{
    let mut units: u64 = 0;
    for branch in &branches.blocks {
        units = units.saturating_add(units_of_block(branch).saturating_add(1));
    }
    units
}

// The units of phases, with one in each phase for each member.
#[cycle(units)]
fn units_of_phases(phases: &Blocks, members: u64, iterations: u64) -> u64
    ensures { result ≡ capped (phases_units_of (sequences_of phases.now) members iterations) }
{
    let mut units: u64 = 0;
    for phase in &phases.blocks {
        let turns = units_of_turns(iterations, units_of_block(phase));
        units = units.saturating_add(members.saturating_add(turns));
    }
    units
}

// The units of `turns` turns of a body of `units` units: each turn is one more.
#[tactic(auto, using(site_counts::proofs::Capped::capped_turns))]
fn units_of_turns(turns: u64, units: u64) -> u64
    ensures { (body : ℕ) → units ≡ capped body → result ≡ capped (turns * (1 + body)) }
{
    turns.saturating_mul(units.saturating_add(1))
}

// The units of an expression: its nodes.
fn units_of_expr(expr: &Expr) -> u64
    ensures { result ≡ capped (expression_units_of (expression_of expr.now)) }
{
    match expr {
        Expr::Number(_) | Expr::Var(_) => 1,
        Expr::Read(_, index) => units_of_expr(index).saturating_add(1),
        Expr::Neg(operand) => units_of_expr(operand).saturating_add(1),
        Expr::Binary(_, left, right) => {
            units_of_expr(left)
                .saturating_add(units_of_expr(right))
                .saturating_add(1)
        }
    }
}
