//! The parts of a program, each at line 1.
ghost use Rattle.std.specs.Prelude.{◌≡◌, [], ◌∷◌, pos, codes, IfOk};
ghost use Rattle.array_tree.specs.Trees.{Number, Var, Read, Binary, Assign, For, Par, expression_of, statement_of, sequence_of, declaration_of, sequence, sequences};
ghost use Rattle.program_maker.specs.Made.{declared, number, columns, rows};

use array_tree::{ArrayDecl, Block, Blocks, Expr, Name, Op, Stmt};
use std::alloc::{AllocError, Global};

/// A literal, from 0 to 255.
pub fn number(value: u8) -> Expr
    ensures { expression_of result ≡ number value }
{
    Expr::Number(i64::from(value))
}

/// A loop variable.
///
/// # Errors
///
/// `AllocError` if an allocation fails.
///
/// # Memory
///
/// It allocates the name.
pub fn variable(alloc: Global, name: &[u8]) -> Result<Expr, AllocError>
    ensures { IfOk result (λ e. expression_of e ≡ Var name.now) }
{
    Ok(Expr::Var(Name::new(alloc, name)?))
}

/// The cell of an array at an index.
///
/// # Errors
///
/// `AllocError` if an allocation fails.
///
/// # Memory
///
/// It allocates the name and a node.
pub fn cell(alloc: Global, array: &[u8], index: Expr) -> Result<Expr, AllocError>
    ensures { IfOk result (λ e. expression_of e ≡ Read array.now (expression_of index)) }
{
    let array = Name::new(alloc, array)?;
    Ok(Expr::Read(array, Box::new(alloc, index)?))
}

/// An operator with its operands.
///
/// # Errors
///
/// `AllocError` if an allocation fails.
///
/// # Memory
///
/// It allocates two nodes.
pub fn binary(alloc: Global, op: Op, left: Expr, right: Expr) -> Result<Expr, AllocError>
    ensures { IfOk result (λ e. expression_of e
        ≡ Binary op (expression_of left) (expression_of right)) }
{
    Ok(Expr::Binary(op, Box::new(alloc, left)?, Box::new(alloc, right)?))
}

/// An assignment in line 1.
///
/// # Errors
///
/// `AllocError` if an allocation fails.
///
/// # Memory
///
/// It allocates the name.
pub fn assign(alloc: Global, array: &[u8], index: Expr, value: Expr) -> Result<Stmt, AllocError>
    ensures { IfOk result (λ s. statement_of s ≡ Assign 1 array.now (expression_of index)
        (expression_of value)) }
{
    Ok(Stmt::Assign {
        line: 1,
        array: Name::new(alloc, array)?,
        index,
        value,
    })
}

/// A block of one statement.
///
/// # Errors
///
/// `AllocError` if an allocation fails.
///
/// # Memory
///
/// It allocates the block.
pub fn alone(alloc: Global, statement: Stmt) -> Result<Block, AllocError>
    ensures { IfOk result (λ b. sequence_of b ≡ sequence (statement_of statement ∷ [])) }
{
    let mut statements = Vec::new(alloc);
    statements.push(statement)?;
    Ok(Block { statements })
}

/// A block of two statements.
///
/// # Errors
///
/// `AllocError` if an allocation fails.
///
/// # Memory
///
/// It allocates the block.
pub fn in_turn(alloc: Global, first: Stmt, second: Stmt) -> Result<Block, AllocError>
    ensures { IfOk result (λ b. sequence_of b
        ≡ sequence (statement_of first ∷ statement_of second ∷ [])) }
{
    let mut statements = Vec::new(alloc);
    statements.push(first)?;
    statements.push(second)?;
    Ok(Block { statements })
}

/// A `par` of two branches of one statement each.
///
/// # Errors
///
/// `AllocError` if an allocation fails.
///
/// # Memory
///
/// It allocates the branches.
pub fn beside(alloc: Global, first: Stmt, second: Stmt) -> Result<Stmt, AllocError>
    ensures { IfOk result (λ s. statement_of s
        ≡ Par 1 (sequences (sequence (statement_of first ∷ [])
        ∷ sequence (statement_of second ∷ []) ∷ []))) }
{
    let mut blocks = Vec::new(alloc);
    blocks.push(alone(alloc, first)?)?;
    blocks.push(alone(alloc, second)?)?;
    Ok(Stmt::Par {
        line: 1,
        branches: Blocks { blocks },
    })
}

/// A loop over `t` from 0 to 3.
///
/// # Errors
///
/// `AllocError` if an allocation fails.
///
/// # Memory
///
/// It allocates the variable's name.
pub fn four_times(alloc: Global, body: Block) -> Result<Stmt, AllocError>
    ensures { IfOk result (λ s. statement_of s
        ≡ For 1 (codes "t") (pos 0) (pos 4) (sequence_of body)) }
{
    Ok(Stmt::For {
        line: 1,
        var: Name::new(alloc, b"t")?,
        low: 0,
        high: 4,
        body,
    })
}

/// A loop over the columns from `low` to `high - 1`.
///
/// # Errors
///
/// `AllocError` if an allocation fails.
///
/// # Memory
///
/// It allocates the block and the variable's name.
pub fn columns(alloc: Global, low: u8, high: u8, body: Stmt) -> Result<Stmt, AllocError>
    ensures { IfOk result (λ s. statement_of s ≡ columns low high (statement_of body)) }
{
    Ok(Stmt::For {
        line: 1,
        var: Name::new(alloc, b"j")?,
        low: i64::from(low),
        high: i64::from(high),
        body: alone(alloc, body)?,
    })
}

/// A team over the rows from `low` to `high - 1`.
///
/// # Errors
///
/// `AllocError` if an allocation fails.
///
/// # Memory
///
/// It allocates the block and the variable's name.
pub fn rows(alloc: Global, low: u8, high: u8, members: u8, body: Stmt) -> Result<Stmt, AllocError>
    ensures { IfOk result (λ s. statement_of s ≡ rows low high members (statement_of body)) }
{
    let mut blocks = Vec::new(alloc);
    blocks.push(alone(alloc, body)?)?;
    Ok(Stmt::Team {
        line: 1,
        var: Name::new(alloc, b"i")?,
        low: i64::from(low),
        high: i64::from(high),
        members: i64::from(members),
        phases: Blocks { blocks },
    })
}

/// The declaration of an array of `length` cells.
///
/// # Errors
///
/// `AllocError` if an allocation fails.
///
/// # Memory
///
/// It allocates the name.
pub fn declared(alloc: Global, name: &[u8], length: u16) -> Result<ArrayDecl, AllocError>
    ensures { IfOk result (λ array. declaration_of array ≡ declared name.now length) }
{
    Ok(ArrayDecl {
        line: 1,
        name: Name::new(alloc, name)?,
        length: i64::from(length),
    })
}
