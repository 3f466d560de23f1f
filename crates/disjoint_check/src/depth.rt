//! The depth to which constructs nest.
ghost use Rattle.std.specs.Prelude.{◌≡◌};
ghost use Rattle.array_tree.specs.Trees.{statement_of, sequence_of, sequences_of};
ghost use Rattle.array_meaning.specs.Limits.{depth_of, statement_depth_of, branches_depth_of};
ghost use Rattle.disjoint_check.specs.LimitFault.{clamped_depth};

use array_tree::{Block, Blocks, Stmt};

/// The depth to which constructs nest in a block.
#[cycle(depth)]
pub(crate) fn depth_of_block(block: &Block) -> u32
    ensures { result ≡ clamped_depth (depth_of (sequence_of block.now)) }
{
    let mut depth = 0;
    for statement in &block.statements {
        depth = depth.max(depth_of_statement(statement));
    }
    depth
}

// The same for a statement: a construct is one deeper than the constructs inside it.
#[cycle(depth)]
fn depth_of_statement(statement: &Stmt) -> u32
    ensures { result ≡ clamped_depth (statement_depth_of (statement_of statement.now)) }
{
    match statement {
        Stmt::Assign { .. } => 0,
        Stmt::For { body, .. } => depth_of_block(body),
        Stmt::If {
            then_block,
            else_block,
            ..
        } => depth_of_block(then_block).max(depth_of_block(else_block)),
        Stmt::Par { branches, .. } => depth_among(branches).saturating_add(1),
        Stmt::Team { phases, .. } => depth_among(phases).saturating_add(1),
    }
}

// The same for branches or phases: the deepest counts.
#[cycle(depth)]
fn depth_among(blocks: &Blocks) -> u32
    ensures { result ≡ clamped_depth (branches_depth_of (sequences_of blocks.now)) }
{
    let mut depth = 0;
    for block in &blocks.blocks {
        depth = depth.max(depth_of_block(block));
    }
    depth
}
