//! Names that are taken twice, and names that are unknown.
ghost use Rattle.std.specs.Prelude.{◌≡◌, ◌++◌, [], map};
ghost use Rattle.array_tree.specs.Trees.{expression_of, statement_of, sequence_of, sequences_of, declaration_of, declarations_of, program_of};
ghost use Rattle.array_meaning.specs.Names.{names_of, uses_known_names};
ghost use Rattle.disjoint_check.specs.Inside.Around.{vars_around};
ghost use Rattle.disjoint_check.specs.FirstNames.{duplicate_declaration, duplicate_in, statement_duplicate, duplicate_among, duplicate_name, unknown_in, statement_unknown, unknown_among, unknown_name};

use crate::around::{Loops, is_declared, is_taken};
use array_tree::{ArrayDecl, Arrays, Block, Blocks, Expr, Program, Stmt};

/// The line of the first declaration or loop whose name is already the name of an array, or of a loop around it.
pub(crate) fn duplicate_name(program: &Program) -> Option<u32>
    ensures { result ≡ duplicate_name (program_of program.now) }
{
    if let Some(line) = duplicate_declaration(&program.arrays.declarations) {
        return Some(line);
    }
    duplicate_in_block(&program.arrays, &program.body, &Loops::Outermost)
}

// The first declaration with one of the names before it.
fn duplicate_declaration(declarations: &[ArrayDecl]) -> Option<u32>
    ensures { result ≡ duplicate_declaration (map declaration_of declarations.now) [] }
{
    for (i, array) in declarations.iter().enumerate() {
        if is_declared(&declarations[..i], &array.name) {
            return Some(array.line);
        }
    }
    None
}

// The first loop of a block whose variable has the name of an array or of a loop around it.
#[cycle(duplicate)]
fn duplicate_in_block<'s>(arrays: &Arrays, block: &'s Block, loops: &'s Loops<'s>) -> Option<u32>
    ensures { result ≡ duplicate_in (sequence_of block.now)
        (vars_around loops.now ++ names_of (declarations_of arrays.now)) }
{
    for statement in &block.statements {
        if let Some(line) = duplicate_in_statement(arrays, statement, loops) {
            return Some(line);
        }
    }
    None
}

// The same for a statement.
#[cycle(duplicate)]
fn duplicate_in_statement<'s>(
    arrays: &Arrays,
    statement: &'s Stmt,
    loops: &'s Loops<'s>,
) -> Option<u32>
    ensures { result ≡ statement_duplicate (statement_of statement.now)
        (vars_around loops.now ++ names_of (declarations_of arrays.now)) }
{
    match statement {
        Stmt::Assign { .. } => None,
        Stmt::For {
            line,
            var,
            body,
            ..
        } => {
            if is_taken(arrays, loops, var) {
                return Some(*line);
            }
            duplicate_in_block(arrays, body, &Loops::Within { var, outer: loops })
        }
        Stmt::If {
            then_block,
            else_block,
            ..
        } => {
            if let Some(line) = duplicate_in_block(arrays, then_block, loops) {
                return Some(line);
            }
            duplicate_in_block(arrays, else_block, loops)
        }
        Stmt::Par { branches, .. } => duplicate_among(arrays, branches, loops),
        Stmt::Team {
            line,
            var,
            phases,
            ..
        } => {
            if is_taken(arrays, loops, var) {
                return Some(*line);
            }
            duplicate_among(arrays, phases, &Loops::Within { var, outer: loops })
        }
    }
}

// The same for branches or phases.
#[cycle(duplicate)]
fn duplicate_among<'s>(arrays: &Arrays, blocks: &'s Blocks, loops: &'s Loops<'s>) -> Option<u32>
    ensures { result ≡ duplicate_among (sequences_of blocks.now)
        (vars_around loops.now ++ names_of (declarations_of arrays.now)) }
{
    for block in &blocks.blocks {
        if let Some(line) = duplicate_in_block(arrays, block, loops) {
            return Some(line);
        }
    }
    None
}

/// The line of the first statement with an unknown name, outside the blocks in it.
///
/// A name is unknown if it is indexed and is no array's. Without an index it is unknown if no loop around has that variable.
pub(crate) fn unknown_name(program: &Program) -> Option<u32>
    ensures { result ≡ unknown_name (program_of program.now) }
{
    unknown_in_block(&program.arrays, &program.body, &Loops::Outermost)
}

// The first statement of a block that uses a name without a declaration around it.
#[cycle(unknown)]
fn unknown_in_block<'s>(arrays: &Arrays, block: &'s Block, loops: &'s Loops<'s>) -> Option<u32>
    ensures { result ≡ unknown_in (sequence_of block.now) (names_of (declarations_of arrays.now))
        (vars_around loops.now) }
{
    for statement in &block.statements {
        if let Some(line) = unknown_in_statement(arrays, statement, loops) {
            return Some(line);
        }
    }
    None
}

// The same for a statement.
#[cycle(unknown)]
fn unknown_in_statement<'s>(
    arrays: &Arrays,
    statement: &'s Stmt,
    loops: &'s Loops<'s>,
) -> Option<u32>
    ensures { result ≡ statement_unknown (statement_of statement.now)
        (names_of (declarations_of arrays.now)) (vars_around loops.now) }
{
    match statement {
        Stmt::Assign {
            line,
            array,
            index,
            value,
        } => {
            let known = is_declared(&arrays.declarations, array)
                && knows(arrays, loops, index)
                && knows(arrays, loops, value);
            if known { None } else { Some(*line) }
        }
        Stmt::For { var, body, .. } => unknown_in_block(
            arrays,
            body,
            &Loops::Within { var, outer: loops },
        ),
        Stmt::If {
            line,
            cond,
            then_block,
            else_block,
        } => {
            if !knows(arrays, loops, cond) {
                return Some(*line);
            }
            if let Some(line) = unknown_in_block(arrays, then_block, loops) {
                return Some(line);
            }
            unknown_in_block(arrays, else_block, loops)
        }
        Stmt::Par { branches, .. } => unknown_among(arrays, branches, loops),
        Stmt::Team { var, phases, .. } => unknown_among(
            arrays,
            phases,
            &Loops::Within { var, outer: loops },
        ),
    }
}

// The same for branches or phases.
#[cycle(unknown)]
fn unknown_among<'s>(arrays: &Arrays, blocks: &'s Blocks, loops: &'s Loops<'s>) -> Option<u32>
    ensures { result ≡ unknown_among (sequences_of blocks.now)
        (names_of (declarations_of arrays.now)) (vars_around loops.now) }
{
    for block in &blocks.blocks {
        if let Some(line) = unknown_in_block(arrays, block, loops) {
            return Some(line);
        }
    }
    None
}

// Whether an expression indexes arrays only, and uses without index only variables of loops around.
fn knows(arrays: &Arrays, loops: &Loops<'_>, expr: &Expr) -> bool
    ensures { result ≡ uses_known_names (expression_of expr.now)
        (names_of (declarations_of arrays.now)) (vars_around loops.now) }
{
    match expr {
        Expr::Number(_) => true,
        Expr::Var(name) => loops.has(name),
        Expr::Read(array, index) => {
            is_declared(&arrays.declarations, array) && knows(arrays, loops, index)
        }
        Expr::Neg(operand) => knows(arrays, loops, operand),
        Expr::Binary(_, left, right) => {
            knows(arrays, loops, left) && knows(arrays, loops, right)
        }
    }
}
