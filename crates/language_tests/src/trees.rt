//! Trees that are equal, and trees that differ in one part.

ghost use Rattle.std.specs.Prelude.{◌≡◌, ◌↔◌, IsTrue};
ghost use Rattle.array_tree.specs.Trees.{program_of};

use array_tree::{ArrayDecl, Arrays, Block, Blocks, Expr, Name, Op, Program, Stmt};
use std::alloc::Global;
use std::test::Fail;

#[test]
fn distinguishes_programs(rt: HostRuntime) -> Result<(), Fail> {
    let alloc = rt.alloc();
    let program = par(alloc, 1, 3, 2)?;
    assert!(rt; is_distinguished(alloc, &program)?);
    Ok(())
}

// Whether a `par` equals its like, and none with another line, another value or a branch less.
fn is_distinguished(alloc: Global, program: &Program) -> Result<bool, Fail> {
    let is_like = is_par(alloc, program, 1, 3, 2)?;
    let has_other_line = is_par(alloc, program, 2, 3, 2)?;
    let has_other_value = is_par(alloc, program, 1, 4, 2)?;
    let has_fewer_branches = is_par(alloc, program, 1, 3, 1)?;
    let has_arrays = has_the_arrays(alloc, program)?;
    Ok(is_like && !has_other_line && !has_other_value && !has_fewer_branches && has_arrays)
}

// Whether a program equals a `par` of so many branches, each of which assigns the value on the line.
fn is_par(
    alloc: Global,
    program: &Program,
    line: u32,
    value: i64,
    branches: usize,
) -> Result<bool, Fail> {
    let other = par(alloc, line, value, branches)?;
    Ok(same(program, &other))
}

// Whether a program has the arrays of one with other statements.
fn has_the_arrays(alloc: Global, program: &Program) -> Result<bool, Fail> {
    let other = par(alloc, 9, 9, 0)?;
    Ok(program.arrays.declarations[..] == other.arrays.declarations[..])
}

#[test]
fn distinguishes_expressions(rt: HostRuntime) -> Result<(), Fail> {
    let alloc = rt.alloc();
    assert!(rt; distinguishes_sums(alloc, &binary(alloc, Op::Add, 1, 2)?)?);
    assert!(rt; distinguishes_cells(alloc, &read(alloc, b"a", 1)?)?);
    Ok(())
}

// Whether the sum of 1 and 2 equals itself, but no difference and not the sum of 2 and 1.
fn distinguishes_sums(alloc: Global, sum: &Expr) -> Result<bool, Fail> {
    let is_sum = is_binary(alloc, sum, Op::Add, 1, 2)?;
    let is_difference = is_binary(alloc, sum, Op::Sub, 1, 2)?;
    let is_turned = is_binary(alloc, sum, Op::Add, 2, 1)?;
    Ok(is_sum && !is_difference && !is_turned)
}

// Whether cell 1 of `a` equals itself, but no cell of another array, no other cell, and no variable.
fn distinguishes_cells(alloc: Global, cell: &Expr) -> Result<bool, Fail> {
    let is_cell = is_read(alloc, cell, b"a", 1)?;
    let is_other_array = is_read(alloc, cell, b"ab", 1)?;
    let is_other_cell = is_read(alloc, cell, b"a", -1)?;
    let is_variable = is_variable(alloc, cell)?;
    Ok(is_cell && !is_other_array && !is_other_cell && !is_variable)
}

// Whether an expression equals this operator at two numbers.
fn is_binary(alloc: Global, found: &Expr, op: Op, left: i64, right: i64) -> Result<bool, Fail> {
    let other = binary(alloc, op, left, right)?;
    Ok(found == &other)
}

// Whether an expression equals the cell at a number of an array.
fn is_read(alloc: Global, found: &Expr, name: &[u8], index: i64) -> Result<bool, Fail> {
    let other = read(alloc, name, index)?;
    Ok(found == &other)
}

// Whether an expression equals the variable `a`.
fn is_variable(alloc: Global, found: &Expr) -> Result<bool, Fail> {
    let other = Expr::Var(Name::new(alloc, b"a")?);
    Ok(found == &other)
}

fn same(a: &Program, b: &Program) -> bool
    ensures { IsTrue result ↔ (program_of a.now ≡ program_of b.now) }
{
    a == b
}

// A `par` of so many branches, each of which assigns the value on the line.
fn par(alloc: Global, line: u32, value: i64, branches: usize) -> Result<Program, Fail> {
    let body = body_of(alloc, line, value, branches)?;
    Ok(Program {
        arrays: arrays(alloc)?,
        body,
    })
}

// The block of that `par` alone.
fn body_of(alloc: Global, line: u32, value: i64, branches: usize) -> Result<Block, Fail> {
    let mut blocks = Vec::new(alloc);
    for _ in 0..branches {
        blocks.push(block(alloc, assign(alloc, line, value)?)?)?;
    }
    let branches = Blocks { blocks };
    block(alloc, Stmt::Par { line: 1, branches })
}

// The assignment of the value to a[0].
fn assign(alloc: Global, line: u32, value: i64) -> Result<Stmt, Fail> {
    Ok(Stmt::Assign {
        line,
        array: Name::new(alloc, b"a")?,
        index: Expr::Number(0),
        value: Expr::Number(value),
    })
}

// The array `a` of four cells.
fn arrays(alloc: Global) -> Result<Arrays, Fail> {
    let mut declarations = Vec::new(alloc);
    declarations.push(ArrayDecl {
        line: 1,
        name: Name::new(alloc, b"a")?,
        length: 4,
    })?;
    Ok(Arrays { declarations })
}

fn block(alloc: Global, statement: Stmt) -> Result<Block, Fail> {
    let mut statements = Vec::new(alloc);
    statements.push(statement)?;
    Ok(Block { statements })
}

fn binary(alloc: Global, op: Op, left: i64, right: i64) -> Result<Expr, Fail> {
    let left = Box::new(alloc, Expr::Number(left))?;
    let right = Box::new(alloc, Expr::Number(right))?;
    Ok(Expr::Binary(op, left, right))
}

fn read(alloc: Global, name: &[u8], index: i64) -> Result<Expr, Fail> {
    let name = Name::new(alloc, name)?;
    let index = Box::new(alloc, Expr::Number(index))?;
    Ok(Expr::Read(name, index))
}
