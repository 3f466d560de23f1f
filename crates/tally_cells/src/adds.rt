//! Adds to accumulating arrays.
ghost use Rattle.std.specs.Prelude.{◌≡◌, MatchOption, Some, None};
ghost use Rattle.array_tree.specs.Trees.{expression_of, statement_of, sequence_of, sequences_of};
ghost use Rattle.spread_laws.specs.Adds.{reads_sum, added, mentions_sum, is_add, has_add, statement_has_add, have_add};

use crate::names::is_sum;
use array_eval::is_dynamic;
use array_tree::{Block, Blocks, Expr, Name, Op, Stmt};

/// Whether an expression reads an accumulating array.
pub(crate) fn reads_sum(expr: &Expr) -> bool
    ensures { result ≡ reads_sum (expression_of expr.now) }
{
    match expr {
        Expr::Number(_) | Expr::Var(_) => false,
        Expr::Read(array, index) => is_sum(array) || reads_sum(index),
        Expr::Neg(operand) => reads_sum(operand),
        Expr::Binary(_, left, right) => reads_sum(left) || reads_sum(right),
    }
}

/// The value that an assignment to an array adds, if it is an add: `x[e] = x[e] + v;` for an accumulating array x. The index e
/// contains no array read, and v reads no accumulating array.
pub(crate) fn added<'s>(array: &Name, index: &Expr, value: &'s Expr) -> Option<&'s Expr>
    ensures { MatchOption result
        (added array.now (expression_of index.now) (expression_of value.now) ≡ None)
        (λ v. added array.now (expression_of index.now) (expression_of value.now)
        ≡ Some (expression_of v.now)) }
{
    let Expr::Binary(Op::Add, left, right) = value else {
        return None;
    };
    let Expr::Read(read, place) = &**left else {
        return None;
    };
    let is_add = is_sum(array)
        && array == read
        && index == &**place
        && !is_dynamic(index)
        && !reads_sum(right);
    if is_add { Some(right) } else { None }
}

/// Whether a statement mentions an accumulating array in itself or its condition.
pub(crate) fn mentions_sum(statement: &Stmt) -> bool
    ensures { result ≡ mentions_sum (statement_of statement.now) }
{
    match statement {
        Stmt::Assign {
            array,
            index,
            value,
            ..
        } => is_sum(array) || reads_sum(index) || reads_sum(value),
        Stmt::If { cond, .. } => reads_sum(cond),
        _ => false,
    }
}

/// Whether a statement is an add.
pub(crate) fn is_add(statement: &Stmt) -> bool
    ensures { result ≡ is_add (statement_of statement.now) }
{
    match statement {
        Stmt::Assign {
            array,
            index,
            value,
            ..
        } => added(array, index, value).is_some(),
        _ => false,
    }
}

/// Whether a statement is or contains an add to this array.
#[cycle(adds)]
pub(crate) fn statement_has_add(name: &Name, statement: &Stmt) -> bool
    ensures { result ≡ statement_has_add name.now (statement_of statement.now) }
{
    match statement {
        Stmt::Assign {
            array,
            index,
            value,
            ..
        } => array == name && added(array, index, value).is_some(),
        Stmt::For { body, .. } => has_add(name, body),
        Stmt::If {
            then_block,
            else_block,
            ..
        } => has_add(name, then_block) || has_add(name, else_block),
        Stmt::Par { branches, .. } => have_add(name, branches),
        Stmt::Team { phases, .. } => have_add(name, phases),
    }
}

// The same for a block.
#[cycle(adds)]
fn has_add(name: &Name, block: &Block) -> bool
    ensures { result ≡ has_add name.now (sequence_of block.now) }
{
    for statement in &block.statements {
        if statement_has_add(name, statement) {
            return true;
        }
    }
    false
}

// The same for branches or phases.
#[cycle(adds)]
fn have_add(name: &Name, blocks: &Blocks) -> bool
    ensures { result ≡ have_add name.now (sequences_of blocks.now) }
{
    for block in &blocks.blocks {
        if has_add(name, block) {
            return true;
        }
    }
    false
}
