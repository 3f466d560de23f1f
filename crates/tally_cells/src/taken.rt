//! Names that rows need and that are taken.
ghost use Rattle.std.specs.Prelude.{◌≡◌, List, ℕ, map, IfOk};
ghost use Rattle.std.specs.List.{filter};
ghost use Rattle.array_tree.specs.Trees.{statement_of, sequence_of, sequences_of, declaration_of, program_of};
ghost use Rattle.array_meaning.specs.Names.{is_among};
ghost use Rattle.spread_laws.specs.Rows.{is_tallied};
ghost use Rattle.spread_laws.specs.Faults.{needed_names, declared_at, looped_at, statement_looped_at, any_looped_at, taken_at};

use crate::names::{cell_name, rows_name};
use crate::rows::most_rows;
use array_tree::{ArrayDecl, Block, Blocks, Name, Program, Stmt};
use std::alloc::{AllocError, Global};

/// The line of the first declaration that has a name which the rows need, or else of the first such loop.
pub(crate) fn taken_name(alloc: Global, program: &Program) -> Result<Option<u32>, AllocError>
    ensures { IfOk result (λ line. line ≡ taken_at (program_of program.now)) }
{
    let names = needed_names(alloc, &program.body, &program.arrays.declarations)?;
    if let Some(line) = declared_at(&names, &program.arrays.declarations) {
        return Ok(Some(line));
    }
    Ok(looped_in_block(&names, &program.body))
}

// The names that the rows need for the arrays to which some construct of a body has an add.
fn needed_names(alloc: Global, body: &Block, arrays: &[ArrayDecl]) -> Result<Vec<Name>, AllocError>
    ensures { IfOk result (λ names. names.items ≡ needed_names
        (filter (λ d. is_tallied (sequence_of body.now) d.name) (map declaration_of arrays.now))) }
{
    let mut names = Vec::new(alloc);
    for array in arrays {
        if most_rows(alloc, &array.name, body)?.is_some() {
            names.push(rows_name(alloc, &array.name)?)?;
            names.push(cell_name(alloc, &array.name)?)?;
        }
    }
    Ok(names)
}

// Whether a name is one of these.
fn is_among(name: &Name, names: &[Name]) -> bool
    ensures { result ≡ is_among name.now names.now }
{
    for other in names {
        if other == name {
            return true;
        }
    }
    false
}

// The first declaration that has one of these names.
fn declared_at(names: &[Name], arrays: &[ArrayDecl]) -> Option<u32>
    ensures { result ≡ declared_at names.now (map declaration_of arrays.now) }
{
    for array in arrays {
        if is_among(&array.name, names) {
            return Some(array.line);
        }
    }
    None
}

// The first loop of a block whose variable has one of these names.
#[cycle(looped)]
fn looped_in_block(names: &[Name], block: &Block) -> Option<u32>
    ensures { result ≡ looped_at names.now (sequence_of block.now) }
{
    for statement in &block.statements {
        if let Some(line) = looped_in_statement(names, statement) {
            return Some(line);
        }
    }
    None
}

// The same for a statement.
#[cycle(looped)]
fn looped_in_statement(names: &[Name], statement: &Stmt) -> Option<u32>
    ensures { result ≡ statement_looped_at names.now (statement_of statement.now) }
{
    match statement {
        Stmt::Assign { .. } => None,
        Stmt::For {
            line,
            var,
            body,
            ..
        } => {
            if is_among(var, names) {
                return Some(*line);
            }
            looped_in_block(names, body)
        }
        Stmt::If {
            then_block,
            else_block,
            ..
        } => {
            if let Some(line) = looped_in_block(names, then_block) {
                return Some(line);
            }
            looped_in_block(names, else_block)
        }
        Stmt::Par { branches, .. } => looped_among(names, branches),
        Stmt::Team {
            line,
            var,
            phases,
            ..
        } => {
            if is_among(var, names) {
                return Some(*line);
            }
            looped_among(names, phases)
        }
    }
}

// The same for branches or phases.
#[cycle(looped)]
fn looped_among(names: &[Name], blocks: &Blocks) -> Option<u32>
    ensures { result ≡ any_looped_at names.now (sequences_of blocks.now) }
{
    for block in &blocks.blocks {
        if let Some(line) = looped_in_block(names, block) {
            return Some(line);
        }
    }
    None
}
