//! The loops around a construct with adds. Each has the line of its construct.
ghost use Rattle.std.specs.Prelude.{◌≡◌, ◌++◌, ◌≤◌, ◌*◌, map, pos, OnOk, IfOk, unsigned_abs};
ghost use Rattle.array_tree.specs.declared.tree.Op.TheVariants.{Rem};
ghost use Rattle.array_tree.specs.Trees.{Number, Var, Binary, expression_of, statement_of, declaration_of};
ghost use Rattle.array_meaning.specs.Bounds.{most_cells, most_members};
ghost use Rattle.array_meaning.specs.Stores.{arrays_of, cells_of};
ghost use Rattle.spread_laws.specs.Spread.{zero_loop, fold_loop, added_in};

use crate::adds::statement_has_add;
use crate::build::{binary, cell, counting_loop, variable};
use crate::names::{cell_name, rows_name};
use array_tree::{ArrayDecl, Expr, Name, Op, Stmt};
use std::alloc::{AllocError, Global};

/// Adds the loops that set the rows of a construct to 0: one for each array to which it has an add, in their order.
pub(crate) fn push_zero_loops(
    alloc: Global,
    arrays: &[ArrayDecl],
    construct: &Stmt,
    line: u32,
    rows: u64,
    out: &mut Vec<Stmt>,
) -> Result<(), AllocError>
    requires rows { rows ≤ most_members }
    requires cells { cells_of (arrays_of (map declaration_of arrays.now)) ≤ most_cells }
    ensures { OnOk result (map statement_of out.new.items ≡ map statement_of out.old.items
        ++ map (zero_loop line rows) (added_in (arrays_of (map declaration_of arrays.now))
        (statement_of construct.now))) }
{
    for array in arrays {
        if statement_has_add(&array.name, construct) {
            out.push(zero_loop(alloc, line, rows, array)?)?;
        }
    }
    Ok(())
}

/// Adds the loops that add the rows of a construct to its arrays.
pub(crate) fn push_fold_loops(
    alloc: Global,
    arrays: &[ArrayDecl],
    construct: &Stmt,
    line: u32,
    rows: u64,
    out: &mut Vec<Stmt>,
) -> Result<(), AllocError>
    requires rows { rows ≤ most_members }
    requires cells { cells_of (arrays_of (map declaration_of arrays.now)) ≤ most_cells }
    ensures { OnOk result (map statement_of out.new.items ≡ map statement_of out.old.items
        ++ map (fold_loop line rows) (added_in (arrays_of (map declaration_of arrays.now))
        (statement_of construct.now))) }
{
    for array in arrays {
        if statement_has_add(&array.name, construct) {
            out.push(fold_loop(alloc, line, rows, array)?)?;
        }
    }
    Ok(())
}

// for x_cell in 0..rows * length { x_rows[x_cell] = 0; }
fn zero_loop(alloc: Global, line: u32, rows: u64, array: &ArrayDecl) -> Result<Stmt, AllocError>
    requires rows { rows ≤ most_members }
    requires cells { unsigned_abs array.now.length ≤ most_cells }
    ensures { IfOk result (λ s. statement_of s
        ≡ zero_loop line rows (array.now.name, unsigned_abs array.now.length)) }
{
    let var = cell_name(alloc, &array.name)?;
    let assignment = Stmt::Assign {
        line,
        array: rows_name(alloc, &array.name)?,
        index: variable(&var)?,
        value: Expr::Number(0),
    };
    counting_loop(alloc, line, var, cells_in(rows, array), assignment)
}

// for x_cell in 0..rows * length { x[x_cell % length] = x[x_cell % length] + x_rows[x_cell]; }
fn fold_loop(alloc: Global, line: u32, rows: u64, array: &ArrayDecl) -> Result<Stmt, AllocError>
    requires rows { rows ≤ most_members }
    requires cells { unsigned_abs array.now.length ≤ most_cells }
    ensures { IfOk result (λ s. statement_of s
        ≡ fold_loop line rows (array.now.name, unsigned_abs array.now.length)) }
{
    let var = cell_name(alloc, &array.name)?;
    let rows_name = rows_name(alloc, &array.name)?;
    let old = cell(alloc, &array.name, place(alloc, &var, array)?)?;
    let owed = cell(alloc, &rows_name, variable(&var)?)?;
    let assignment = Stmt::Assign {
        line,
        array: array.name.copy()?,
        index: place(alloc, &var, array)?,
        value: binary(alloc, Op::Add, old, owed)?,
    };
    counting_loop(alloc, line, var, cells_in(rows, array), assignment)
}

// The position of a cell of the rows in its row: x_cell % length.
fn place(alloc: Global, var: &Name, array: &ArrayDecl) -> Result<Expr, AllocError>
    requires { unsigned_abs array.now.length ≤ most_cells }
    ensures { IfOk result (λ e. expression_of e
        ≡ Binary Rem (Var var.now) (Number (pos (unsigned_abs array.now.length)))) }
{
    let length = Expr::Number(array.length.unsigned_abs() as i64);
    binary(alloc, Op::Rem, variable(var)?, length)
}

// The number of cells of `rows` rows of an array.
fn cells_in(rows: u64, array: &ArrayDecl) -> i64
    requires rows { rows ≤ most_members }
    requires cells { unsigned_abs array.now.length ≤ most_cells }
    ensures { result ≡ pos (rows * unsigned_abs array.now.length) }
{
    (rows * array.length.unsigned_abs()) as i64
}
