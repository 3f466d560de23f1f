//! The number of rows of an accumulating array, and their declaration.
ghost use Rattle.std.specs.Prelude.{◌≡◌, ◌++◌, ◌≤◌, ◌*◌, pos, [], ◌∷◌, cond, true, false, map, OnOk, IfOk, MatchOption, IsTrue, unsigned_abs};
ghost use Rattle.std.specs.List.{filter};
ghost use Rattle.array_tree.specs.Trees.{statement_of, sequence_of, declaration_of};
ghost use Rattle.array_meaning.specs.Bounds.{most_cells, most_members};
ghost use Rattle.array_meaning.specs.Stores.{arrays_of, cells_of};
ghost use Rattle.array_meaning.specs.Limits.{has_right_ranges};
ghost use Rattle.spread_laws.specs.Adds.{statement_has_add};
ghost use Rattle.spread_laws.specs.Rows.{rows_name, rows_with, statement_rows_with, is_tallied, greatest, rows_declaration};

use crate::adds::statement_has_add;
use crate::names::rows_name;
use array_tree::{ArrayDecl, Block, Name, Stmt};
use site_counts::count_of;
use std::alloc::{AllocError, Global};

// Adds the numbers of rows of the outermost constructs of a block with an add to this array, in the order of the text:
// their branches, or their members.
#[cycle(rows)]
fn push_rows(name: &Name, block: &Block, rows: &mut Vec<u64>) -> Result<(), AllocError>
    ensures { OnOk result (rows.new.items
        ≡ rows.old.items ++ rows_with name.now (sequence_of block.now)) }
{
    for statement in &block.statements {
        push_rows_of_statement(name, statement, rows)?;
    }
    Ok(())
}

// The same for a statement.
#[cycle(rows)]
fn push_rows_of_statement(
    name: &Name,
    statement: &Stmt,
    rows: &mut Vec<u64>,
) -> Result<(), AllocError>
    ensures { OnOk result (rows.new.items
        ≡ rows.old.items ++ statement_rows_with name.now (statement_of statement.now)) }
{
    match statement {
        Stmt::Assign { .. } => Ok(()),
        Stmt::For { body, .. } => push_rows(name, body, rows),
        Stmt::If {
            then_block,
            else_block,
            ..
        } => {
            push_rows(name, then_block, rows)?;
            push_rows(name, else_block, rows)
        }
        Stmt::Par { branches, .. } => push_where_added(
            name,
            statement,
            count_of(branches) as u64,
            rows,
        ),
        Stmt::Team { members, .. } => push_where_added(
            name,
            statement,
            members.unsigned_abs(),
            rows,
        ),
    }
}

// Adds this number if the construct has an add to the array.
fn push_where_added(
    name: &Name,
    construct: &Stmt,
    count: u64,
    rows: &mut Vec<u64>,
) -> Result<(), AllocError>
    ensures { OnOk result (rows.new.items ≡ rows.old.items
        ++ cond (statement_has_add name.now (statement_of construct.now)) (count ∷ []) []) }
{
    if statement_has_add(name, construct) {
        rows.push(count)?;
    }
    Ok(())
}

// The greatest of some numbers, and at least 1.
fn greatest(numbers: &[u64]) -> u64
    ensures { result ≡ greatest numbers.now }
{
    let mut greatest = 1;
    for number in numbers {
        greatest = greatest.max(*number);
    }
    greatest
}

/// The number of an array's rows: as many as any construct with an add to it has branches or members. `None` if no construct of
/// the body has an add to it.
pub(crate) fn most_rows(alloc: Global, name: &Name, body: &Block) -> Result<Option<u64>, AllocError>
    ensures { IfOk result (λ most. MatchOption most
        (is_tallied (sequence_of body.now) name.now ≡ false)
        (λ count. (is_tallied (sequence_of body.now) name.now ≡ true)
        × (count ≡ greatest (rows_with name.now (sequence_of body.now))))) }
{
    let mut rows = Vec::new(alloc);
    push_rows(name, body, &mut rows)?;
    Ok(if rows.is_empty() {
        None
    } else {
        Some(greatest(&rows))
    })
}

/// The declarations of the rows of those arrays to which some construct of a body has an add, in their order.
pub(crate) fn push_declarations(
    alloc: Global,
    body: &Block,
    arrays: &[ArrayDecl],
    out: &mut Vec<ArrayDecl>,
) -> Result<(), AllocError>
    requires ranges { IsTrue (has_right_ranges (sequence_of body.now)) }
    requires cells { cells_of (arrays_of (map declaration_of arrays.now)) ≤ most_cells }
    ensures { OnOk result (map declaration_of out.new.items ≡ map declaration_of out.old.items
        ++ map (rows_declaration (sequence_of body.now))
        (filter (λ d. is_tallied (sequence_of body.now) d.name) (map declaration_of arrays.now))) }
{
    for array in arrays {
        if let Some(count) = most_rows(alloc, &array.name, body)? {
            out.push(rows_of(alloc, array, count)?)?;
        }
    }
    Ok(())
}

// The declaration of `count` rows of an array. It has the array's line.
fn rows_of(alloc: Global, array: &ArrayDecl, count: u64) -> Result<ArrayDecl, AllocError>
    requires few { count ≤ most_members }
    requires cells { unsigned_abs array.now.length ≤ most_cells }
    ensures { IfOk result (λ rows. declaration_of rows ≡ record {
      line = array.now.line;
      name = rows_name array.now.name;
      length = pos (count * unsigned_abs array.now.length);
    }) }
{
    Ok(ArrayDecl {
        line: array.line,
        name: rows_name(alloc, &array.name)?,
        length: (count * array.length.unsigned_abs()) as i64,
    })
}
