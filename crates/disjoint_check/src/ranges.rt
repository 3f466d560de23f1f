//! Lengths, bounds and counts outside their limits.
ghost use Rattle.std.specs.Prelude.{◌≡◌, ◌≤◌, map};
ghost use Rattle.array_tree.specs.Trees.{statement_of, sequence_of, sequences_of, declaration_of, program_of};
ghost use Rattle.array_meaning.specs.Bounds.{most_cells};
ghost use Rattle.disjoint_check.specs.FirstRanges.{declaration_fault, declarations_fault, team_fault, range_fault_in, statement_range_fault, range_fault_among, range_fault, clamped};

use crate::fault::{CheckFault, Limit};
use array_tree::{ArrayDecl, Block, Blocks, Program, Stmt};
use site_counts::count_of;
use touch_bounds::MOST_MEMBERS;

/// The greatest number of arrays.
const MOST_ARRAYS: usize = 64;

/// The greatest number of cells of an array, and of all arrays together.
const MOST_CELLS: i64 = 4096;

/// The greatest number of phases of a `team`.
const MOST_PHASES: usize = 8;

/// The first declaration, `for`, `par` or `team` outside a limit.
pub(crate) fn range_fault(program: &Program) -> Option<CheckFault>
    ensures { result ≡ range_fault (program_of program.now) }
{
    if let Some(fault) = declarations_fault(&program.arrays.declarations) {
        return Some(fault);
    }
    range_fault_in_block(&program.body)
}

// The first declaration outside a limit. It counts the arrays and the cells before each.
fn declarations_fault(declarations: &[ArrayDecl]) -> Option<CheckFault>
    ensures { result ≡ declarations_fault (map declaration_of declarations.now) 0 0 }
{
    let mut cells = 0;
    for (i, array) in declarations.iter().enumerate() {
        if let Some(fault) = declaration_fault(array, i, cells) {
            return Some(fault);
        }
        cells += array.length.unsigned_abs() as u32;
    }
    None
}

// The limits of a declaration, with `arrays` arrays and `cells` cells before it.
fn declaration_fault(array: &ArrayDecl, arrays: usize, cells: u32) -> Option<CheckFault>
    requires { cells ≤ most_cells }
    ensures { result ≡ declaration_fault (declaration_of array.now) arrays cells }
{
    let line = array.line;
    let length = array.length;
    if length < 1 || length > MOST_CELLS {
        return Some(bad_range(line, Limit::Length, length));
    }
    if arrays >= MOST_ARRAYS {
        return Some(bad_range(line, Limit::Names, MOST_ARRAYS as i64 + 1));
    }
    let sum = i64::from(cells) + length;
    if sum > MOST_CELLS {
        return Some(bad_range(line, Limit::Cells, sum));
    }
    None
}

// The first statement of a block outside a limit. A construct comes before the statements inside it.
#[cycle(ranges)]
fn range_fault_in_block(block: &Block) -> Option<CheckFault>
    ensures { result ≡ range_fault_in (sequence_of block.now) }
{
    for statement in &block.statements {
        if let Some(fault) = range_fault_in_statement(statement) {
            return Some(fault);
        }
    }
    None
}

// The same for a statement.
#[cycle(ranges)]
fn range_fault_in_statement(statement: &Stmt) -> Option<CheckFault>
    ensures { result ≡ statement_range_fault (statement_of statement.now) }
{
    match statement {
        Stmt::Assign { .. } => None,
        Stmt::For {
            line,
            low,
            high,
            body,
            ..
        } => {
            if low > high {
                return Some(bad_range(*line, Limit::Bounds, *high));
            }
            range_fault_in_block(body)
        }
        Stmt::If {
            then_block,
            else_block,
            ..
        } => {
            if let Some(fault) = range_fault_in_block(then_block) {
                return Some(fault);
            }
            range_fault_in_block(else_block)
        }
        Stmt::Par { line, branches } => {
            let count = count_of(branches);
            if count < 1 || count > MOST_MEMBERS as usize {
                return Some(bad_range(*line, Limit::Branches, clamped(count)));
            }
            range_fault_among(branches)
        }
        Stmt::Team {
            line,
            low,
            high,
            members,
            phases,
            ..
        } => {
            if let Some(fault) = team_fault(*line, *low, *high, *members, count_of(phases)) {
                return Some(fault);
            }
            range_fault_among(phases)
        }
    }
}

// The same for branches or phases.
#[cycle(ranges)]
fn range_fault_among(blocks: &Blocks) -> Option<CheckFault>
    ensures { result ≡ range_fault_among (sequences_of blocks.now) }
{
    for block in &blocks.blocks {
        if let Some(fault) = range_fault_in_block(block) {
            return Some(fault);
        }
    }
    None
}

// The limits of a `team` of `phases` phases.
fn team_fault(line: u32, low: i64, high: i64, members: i64, phases: usize) -> Option<CheckFault>
    ensures { result ≡ team_fault line low high members phases }
{
    if low > high {
        return Some(bad_range(line, Limit::Bounds, high));
    }
    if members < 1 || members > MOST_MEMBERS as i64 {
        return Some(bad_range(line, Limit::Members, members));
    }
    if phases < 1 || phases > MOST_PHASES {
        return Some(bad_range(line, Limit::Phases, clamped(phases)));
    }
    None
}

// The fault of a number outside its limit. Why: each test above is then one line.
fn bad_range(line: u32, what: Limit, found: i64) -> CheckFault
    ensures { result ≡ CheckFault.BadRange line what found }
{
    CheckFault::BadRange { line, what, found }
}

// A number of parts as it is reported.
fn clamped(count: usize) -> i64
    ensures { result ≡ clamped count }
{
    i64::try_from(count).unwrap_or(i64::MAX)
}
