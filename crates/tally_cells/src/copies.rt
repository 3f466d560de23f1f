//! Copies of trees. In memory each literal and each bound has 64 bits: the contract of a copy states that of all of them.
ghost use Rattle.std.specs.Prelude.{◌≡◌, IfOk};
ghost use Rattle.array_tree.specs.Trees.{expression_of, statement_of, sequence_of, sequences_of, declaration_of};
ghost use Rattle.spread_laws.specs.Served.{IsNarrowExpression, IsNarrowSequence, IsNarrowStatement, AreNarrow};

use array_tree::{ArrayDecl, Block, Blocks, Expr, Stmt};
use std::alloc::{AllocError, Global};

/// An equal expression.
pub(crate) fn copy_expression(alloc: Global, expr: &Expr) -> Result<Expr, AllocError>
    ensures copied { IfOk result (λ copy. expression_of copy ≡ expression_of expr.now) }
    ensures narrow { IfOk result (λ copy. IsNarrowExpression (expression_of expr.now)) }
{
    match expr {
        Expr::Number(value) => Ok(Expr::Number(*value)),
        Expr::Var(name) => Ok(Expr::Var(name.copy()?)),
        Expr::Read(array, index) => {
            let index = copy_expression(alloc, index)?;
            Ok(Expr::Read(array.copy()?, Box::new(alloc, index)?))
        }
        Expr::Neg(operand) => {
            let operand = copy_expression(alloc, operand)?;
            Ok(Expr::Neg(Box::new(alloc, operand)?))
        }
        Expr::Binary(op, left, right) => {
            let left = copy_expression(alloc, left)?;
            let right = copy_expression(alloc, right)?;
            Ok(Expr::Binary(*op, Box::new(alloc, left)?, Box::new(alloc, right)?))
        }
    }
}

/// An equal statement.
#[cycle(copy)]
pub(crate) fn copy_statement(alloc: Global, statement: &Stmt) -> Result<Stmt, AllocError>
    ensures copied { IfOk result (λ copy. statement_of copy ≡ statement_of statement.now) }
    ensures narrow { IfOk result (λ copy. IsNarrowStatement (statement_of statement.now)) }
{
    match statement {
        Stmt::Assign {
            line,
            array,
            index,
            value,
        } => Ok(Stmt::Assign {
            line: *line,
            array: array.copy()?,
            index: copy_expression(alloc, index)?,
            value: copy_expression(alloc, value)?,
        }),
        Stmt::For {
            line,
            var,
            low,
            high,
            body,
        } => Ok(Stmt::For {
            line: *line,
            var: var.copy()?,
            low: *low,
            high: *high,
            body: copy_block(alloc, body)?,
        }),
        Stmt::If {
            line,
            cond,
            then_block,
            else_block,
        } => Ok(Stmt::If {
            line: *line,
            cond: copy_expression(alloc, cond)?,
            then_block: copy_block(alloc, then_block)?,
            else_block: copy_block(alloc, else_block)?,
        }),
        Stmt::Par { line, branches } => Ok(Stmt::Par {
            line: *line,
            branches: copy_blocks(alloc, branches)?,
        }),
        Stmt::Team {
            line,
            var,
            low,
            high,
            members,
            phases,
        } => Ok(Stmt::Team {
            line: *line,
            var: var.copy()?,
            low: *low,
            high: *high,
            members: *members,
            phases: copy_blocks(alloc, phases)?,
        }),
    }
}

// An equal block.
#[cycle(copy)]
fn copy_block(alloc: Global, block: &Block) -> Result<Block, AllocError>
    ensures copied { IfOk result (λ copy. sequence_of copy ≡ sequence_of block.now) }
    ensures narrow { IfOk result (λ copy. IsNarrowSequence (sequence_of block.now)) }
{
    let mut statements = Vec::new(alloc);
    for statement in &block.statements {
        statements.push(copy_statement(alloc, statement)?)?;
    }
    Ok(Block { statements })
}

// Equal branches or phases.
#[cycle(copy)]
fn copy_blocks(alloc: Global, blocks: &Blocks) -> Result<Blocks, AllocError>
    ensures copied { IfOk result (λ copy. sequences_of copy ≡ sequences_of blocks.now) }
    ensures narrow { IfOk result (λ copy. AreNarrow (sequences_of blocks.now)) }
{
    let mut copies = Vec::new(alloc);
    for block in &blocks.blocks {
        copies.push(copy_block(alloc, block)?)?;
    }
    Ok(Blocks { blocks: copies })
}

/// An equal declaration.
pub(crate) fn copy_declaration(array: &ArrayDecl) -> Result<ArrayDecl, AllocError>
    ensures { IfOk result (λ copy. declaration_of copy ≡ declaration_of array.now) }
{
    Ok(ArrayDecl {
        line: array.line,
        name: array.name.copy()?,
        length: array.length,
    })
}
