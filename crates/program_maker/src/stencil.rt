//! The program.
ghost use Rattle.std.specs.Prelude.{◌≡◌, ◌≤◌, ◌*◌, [], ◌∷◌, IfOk, codes};
ghost use Rattle.array_tree.specs.Trees.{program_of, expression_of, statement_of, sequence_of, declarations_of, sequence};
ghost use Rattle.program_maker.specs.Made.{number, declared, row_number, column_number, plus, times, moved, place_at, cell_at, set_cell, gathered, gathered_row, gathered_grid, taken_over, seeded, summed, swept, stencil, made_program};

use crate::build::{
    assign, beside, binary, cell, columns, declared, four_times, in_turn, number, rows, variable,
};
use crate::draw::Draws;
use array_tree::{Arrays, Block, Expr, Op, Program, Stmt};
use std::alloc::{AllocError, Global};

/// The program of a seed and a size, from 1 to 40.
///
/// # Errors
///
/// `AllocError` if an allocation fails.
///
/// # Memory
///
/// It allocates the tree.
pub fn generate(alloc: Global, seed: u64, size: u8) -> Result<Program, AllocError>
    requires some { 1 ≤ size }
    requires few { size ≤ 40 }
    ensures { IfOk result (λ program. program_of program ≡ made_program seed size) }
{
    let mut draws = Draws { state: seed };
    let (p, q, r) = (draws.draw(), draws.draw(), draws.draw());
    stencil(alloc, size, p, q, r)
}

// The program with the three numbers.
fn stencil(alloc: Global, size: u8, p: u8, q: u8, r: u8) -> Result<Program, AllocError>
    requires some { 1 ≤ size }
    requires few { size ≤ 40 }
    ensures { IfOk result (λ program. program_of program ≡ stencil size p q r) }
{
    Ok(Program {
        arrays: arrays(alloc, size)?,
        body: body(alloc, size, p, q, r)?,
    })
}

// The grid, the grid of the current sweep, and the sums of the rows.
fn arrays(alloc: Global, size: u8) -> Result<Arrays, AllocError>
    requires { size ≤ 40 }
    ensures { IfOk result (λ arrays. declarations_of arrays ≡ declared (codes "g") (size * size)
        ∷ declared (codes "h") (size * size) ∷ declared (codes "s") size ∷ []) }
{
    let cells = u16::from(size) * u16::from(size);
    let mut declarations = Vec::new(alloc);
    declarations.push(declared(alloc, b"g", cells)?)?;
    declarations.push(declared(alloc, b"h", cells)?)?;
    declarations.push(declared(alloc, b"s", u16::from(size))?)?;
    Ok(Arrays { declarations })
}

// Sows the grid, sweeps it four times, and sums its rows.
fn body(alloc: Global, size: u8, p: u8, q: u8, r: u8) -> Result<Block, AllocError>
    requires { 1 ≤ size }
    ensures { IfOk result (λ block. sequence_of block
        ≡ sequence (seeded size p q r ∷ swept size ∷ summed size ∷ [])) }
{
    let mut statements = Vec::new(alloc);
    statements.push(seeded(alloc, size, p, q, r)?)?;
    statements.push(swept(alloc, size)?)?;
    statements.push(summed(alloc, size)?)?;
    Ok(Block { statements })
}

// The number of the row, and of the column.
fn row_number(alloc: Global) -> Result<Expr, AllocError>
    ensures { IfOk result (λ e. expression_of e ≡ row_number) }
{
    variable(alloc, b"i")
}

fn column_number(alloc: Global) -> Result<Expr, AllocError>
    ensures { IfOk result (λ e. expression_of e ≡ column_number) }
{
    variable(alloc, b"j")
}

fn plus(alloc: Global, left: Expr, right: Expr) -> Result<Expr, AllocError>
    ensures { IfOk result (λ e. expression_of e ≡ plus (expression_of left) (expression_of right)) }
{
    binary(alloc, Op::Add, left, right)
}

fn times(alloc: Global, left: Expr, right: u8) -> Result<Expr, AllocError>
    ensures { IfOk result (λ e. expression_of e ≡ times (expression_of left) (number right)) }
{
    binary(alloc, Op::Mul, left, number(right))
}

// A coordinate moved by `by`, around the edge.
fn moved(alloc: Global, size: u8, coordinate: Expr, by: u8) -> Result<Expr, AllocError>
    ensures { IfOk result (λ e. expression_of e ≡ moved size (expression_of coordinate) by) }
{
    let far = plus(alloc, coordinate, number(by))?;
    binary(alloc, Op::Rem, far, number(size))
}

// The index of a row and a column.
fn place_at(alloc: Global, size: u8, row: Expr, column: Expr) -> Result<Expr, AllocError>
    ensures { IfOk result (λ e. expression_of e
        ≡ place_at size (expression_of row) (expression_of column)) }
{
    let first = times(alloc, row, size)?;
    plus(alloc, first, column)
}

// The cell of an array at a row and a column.
fn cell_at(
    alloc: Global,
    size: u8,
    array: &[u8],
    row: Expr,
    column: Expr,
) -> Result<Expr, AllocError>
    ensures { IfOk result (λ e. expression_of e ≡ cell_at size array.now (expression_of row)
        (expression_of column)) }
{
    cell(alloc, array, place_at(alloc, size, row, column)?)
}

// The cell of an array at this row and column.
fn cell_here(alloc: Global, size: u8, array: &[u8]) -> Result<Expr, AllocError>
    ensures { IfOk result (λ e. expression_of e ≡ cell_at size array.now row_number column_number) }
{
    cell_at(
        alloc,
        size,
        array,
        row_number(alloc)?,
        column_number(alloc)?,
    )
}

// Writes the cell of an array at this row and column.
fn set_cell(alloc: Global, size: u8, array: &[u8], value: Expr) -> Result<Stmt, AllocError>
    ensures { IfOk result (λ s. statement_of s ≡ set_cell size array.now (expression_of value)) }
{
    let index = place_at(alloc, size, row_number(alloc)?, column_number(alloc)?)?;
    assign(alloc, array, index, value)
}

// The cell of the grid that is `by` columns further on.
fn cell_beside(alloc: Global, size: u8, by: u8) -> Result<Expr, AllocError>
    ensures { IfOk result (λ e. expression_of e
        ≡ cell_at size (codes "g") row_number (moved size column_number by)) }
{
    let column = moved(alloc, size, column_number(alloc)?, by)?;
    cell_at(alloc, size, b"g", row_number(alloc)?, column)
}

// The cell of the grid that is `by` rows further on.
fn cell_below(alloc: Global, size: u8, by: u8) -> Result<Expr, AllocError>
    ensures { IfOk result (λ e. expression_of e
        ≡ cell_at size (codes "g") (moved size row_number by) column_number) }
{
    let row = moved(alloc, size, row_number(alloc)?, by)?;
    cell_at(alloc, size, b"g", row, column_number(alloc)?)
}

// A cell of the next grid: the sum of that cell and of its four neighbours.
fn gathered(alloc: Global, size: u8) -> Result<Stmt, AllocError>
    requires { 1 ≤ size }
    ensures { IfOk result (λ s. statement_of s ≡ gathered size) }
{
    let here = cell_here(alloc, size, b"g")?;
    let with_right = plus(alloc, here, cell_beside(alloc, size, 1)?)?;
    let with_left = plus(alloc, with_right, cell_beside(alloc, size, size - 1)?)?;
    let with_below = plus(alloc, with_left, cell_below(alloc, size, 1)?)?;
    let with_above = plus(alloc, with_below, cell_below(alloc, size, size - 1)?)?;
    set_cell(alloc, size, b"h", with_above)
}

// A row of the next grid, its halves beside one another.
fn gathered_row(alloc: Global, size: u8) -> Result<Stmt, AllocError>
    requires { 1 ≤ size }
    ensures { IfOk result (λ s. statement_of s ≡ gathered_row size) }
{
    let half = size / 2;
    let first = columns(alloc, 0, half, gathered(alloc, size)?)?;
    let second = columns(alloc, half, size, gathered(alloc, size)?)?;
    beside(alloc, first, second)
}

// The next grid, its halves of rows beside one another.
fn gathered_grid(alloc: Global, size: u8) -> Result<Stmt, AllocError>
    requires { 1 ≤ size }
    ensures { IfOk result (λ s. statement_of s ≡ gathered_grid size) }
{
    let half = size / 2;
    let first = rows(alloc, 0, half, 2, gathered_row(alloc, size)?)?;
    let second = rows(alloc, half, size, 2, gathered_row(alloc, size)?)?;
    beside(alloc, first, second)
}

// Copies the next grid to the grid.
fn taken_over(alloc: Global, size: u8) -> Result<Stmt, AllocError>
    ensures { IfOk result (λ s. statement_of s ≡ taken_over size) }
{
    let set = set_cell(alloc, size, b"g", cell_here(alloc, size, b"h")?)?;
    rows(alloc, 0, size, 4, columns(alloc, 0, size, set)?)
}

// The initial grid.
fn seeded(alloc: Global, size: u8, p: u8, q: u8, r: u8) -> Result<Stmt, AllocError>
    ensures { IfOk result (λ s. statement_of s ≡ seeded size p q r) }
{
    let by_row = times(alloc, row_number(alloc)?, p)?;
    let by_column = times(alloc, column_number(alloc)?, q)?;
    let both = plus(alloc, by_row, by_column)?;
    let value = plus(alloc, both, number(r))?;
    let set = set_cell(alloc, size, b"g", value)?;
    rows(alloc, 0, size, 4, columns(alloc, 0, size, set)?)
}

// Four sweeps over the grid.
fn swept(alloc: Global, size: u8) -> Result<Stmt, AllocError>
    requires { 1 ≤ size }
    ensures { IfOk result (λ s. statement_of s ≡ swept size) }
{
    let gathering = gathered_grid(alloc, size)?;
    let taking = taken_over(alloc, size)?;
    four_times(alloc, in_turn(alloc, gathering, taking)?)
}

// The sums of the rows.
fn summed(alloc: Global, size: u8) -> Result<Stmt, AllocError>
    ensures { IfOk result (λ s. statement_of s ≡ summed size) }
{
    let so_far = cell(alloc, b"s", row_number(alloc)?)?;
    let sum = plus(alloc, so_far, cell_here(alloc, size, b"g")?)?;
    let set = assign(alloc, b"s", row_number(alloc)?, sum)?;
    rows(alloc, 0, size, 4, columns(alloc, 0, size, set)?)
}
