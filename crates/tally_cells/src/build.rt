//! The parts of trees that a spread adds.
ghost use Rattle.std.specs.Prelude.{◌≡◌, ◌<ℤ◌, [], ◌∷◌, pos, IfOk};
ghost use Rattle.array_tree.specs.Trees.{Number, Var, Read, Binary, For, sequence, expression_of, statement_of, sequence_of};
ghost use Rattle.array_meaning.specs.Values.{wrapping_minus, wrapping_difference};
ghost use Rattle.spread_laws.specs.Spread.{number};

use array_tree::{Block, Expr, Name, Op, Stmt};
use std::alloc::{AllocError, Global};

/// A number as the text writes it: a negative one as a minus sign and the number.
pub(crate) fn number(alloc: Global, value: i64) -> Result<Expr, AllocError>
    ensures { IfOk result (λ e. expression_of e ≡ number value) }
{
    if value < 0 {
        negative(alloc, value)
    } else {
        Ok(Expr::Number(value))
    }
}

// A negative number.
fn negative(alloc: Global, value: i64) -> Result<Expr, AllocError>
    requires { value <ℤ pos 0 }
    ensures { IfOk result (λ e. expression_of e ≡ number value) }
{
    Ok(Expr::Neg(Box::new(alloc, negated(value))?))
}

// The literal after the minus sign of a number.
fn negated(value: i64) -> Expr
    ensures { expression_of result ≡ Number (wrapping_minus value) }
{
    Expr::Number(negate(value))
}

fn negate(value: i64) -> i64
    ensures { result ≡ wrapping_minus value }
{
    value.wrapping_neg()
}

/// The distance of two numbers, as a number of 64 bits.
pub(crate) fn difference(high: i64, low: i64) -> i64
    ensures { result ≡ wrapping_difference high low }
{
    high.wrapping_sub(low)
}

/// The value of a variable.
pub(crate) fn variable(name: &Name) -> Result<Expr, AllocError>
    ensures { IfOk result (λ e. expression_of e ≡ Var name.now) }
{
    Ok(Expr::Var(name.copy()?))
}

/// The cell of an array at an index.
pub(crate) fn cell(alloc: Global, array: &Name, index: Expr) -> Result<Expr, AllocError>
    ensures { IfOk result (λ e. expression_of e ≡ Read array.now (expression_of index)) }
{
    Ok(Expr::Read(array.copy()?, Box::new(alloc, index)?))
}

/// An operator with its operands.
pub(crate) fn binary(alloc: Global, op: Op, left: Expr, right: Expr) -> Result<Expr, AllocError>
    ensures { IfOk result (λ e. expression_of e
        ≡ Binary op (expression_of left) (expression_of right)) }
{
    Ok(Expr::Binary(op, Box::new(alloc, left)?, Box::new(alloc, right)?))
}

/// A loop from 0 to before `high`, with one assignment in it.
pub(crate) fn counting_loop(
    alloc: Global,
    line: u32,
    var: Name,
    high: i64,
    assignment: Stmt,
) -> Result<Stmt, AllocError>
    ensures { IfOk result (λ s. statement_of s
        ≡ For line var (pos 0) high (sequence (statement_of assignment ∷ []))) }
{
    Ok(Stmt::For {
        line,
        var,
        low: 0,
        high,
        body: alone(alloc, assignment)?,
    })
}

// A block of one statement.
fn alone(alloc: Global, statement: Stmt) -> Result<Block, AllocError>
    ensures { IfOk result (λ b. sequence_of b ≡ sequence (statement_of statement ∷ [])) }
{
    let mut statements = Vec::new(alloc);
    statements.push(statement)?;
    Ok(Block { statements })
}
