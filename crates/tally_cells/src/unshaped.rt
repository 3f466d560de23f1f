//! Statements inside constructs that mention accumulating arrays in any way but as an add.
ghost use Rattle.std.specs.Prelude.{◌≡◌, ◌+◌};
ghost use Rattle.array_tree.specs.Trees.{Sequences, statement_of, sequence_of, sequences_of};
ghost use Rattle.spread_laws.specs.Faults.{is_unshaped, unshaped, statement_unshaped, any_unshaped};

use crate::adds::{is_add, mentions_sum};
use array_tree::{Block, Blocks, Stmt};

/// The line of the first such statement of a block, with `depth` constructs around.
#[cycle(unshaped)]
pub(crate) fn unshaped_in_block(depth: u8, block: &Block) -> Option<u32>
    ensures { result ≡ unshaped depth (sequence_of block.now) }
{
    for statement in &block.statements {
        if let Some(line) = unshaped_in_statement(depth, statement) {
            return Some(line);
        }
    }
    None
}

// The same for a statement.
#[cycle(unshaped)]
fn unshaped_in_statement(depth: u8, statement: &Stmt) -> Option<u32>
    ensures { result ≡ statement_unshaped depth (statement_of statement.now) }
{
    match statement {
        Stmt::Assign { line, .. } => {
            if is_unshaped(depth, statement) {
                Some(*line)
            } else {
                None
            }
        }
        Stmt::For { body, .. } => unshaped_in_block(depth, body),
        Stmt::If {
            line,
            then_block,
            else_block,
            ..
        } => {
            if is_unshaped(depth, statement) {
                return Some(*line);
            }
            if let Some(line) = unshaped_in_block(depth, then_block) {
                return Some(line);
            }
            unshaped_in_block(depth, else_block)
        }
        Stmt::Par { branches, .. } => unshaped_among(one_more(depth), branches),
        Stmt::Team { phases, .. } => unshaped_among(one_more(depth), phases),
    }
}

// The same for branches or phases.
#[cycle(unshaped)]
fn unshaped_among(depth: u8, blocks: &Blocks) -> Option<u32>
    ensures { result ≡ any_unshaped depth (sequences_of blocks.now) }
{
    for block in &blocks.blocks {
        if let Some(line) = unshaped_in_block(depth, block) {
            return Some(line);
        }
    }
    None
}

// Whether a statement inside `depth` constructs mentions an accumulating array in any way but as an add inside one construct.
fn is_unshaped(depth: u8, statement: &Stmt) -> bool
    ensures { result ≡ is_unshaped depth (statement_of statement.now) }
{
    depth > 0 && mentions_sum(statement) && (!is_add(statement) || depth > 1)
}

// One construct more. If two are around, a further one changes nothing.
fn one_more(depth: u8) -> u8
    ensures { (blocks : Sequences) → any_unshaped result blocks ≡ any_unshaped (depth + 1) blocks }
{
    depth.saturating_add(1)
}
