//! Whether a program has a choice of sites: whether a construct is under an `if`.
ghost use Rattle.std.specs.Prelude.{◌≡◌};
ghost use Rattle.array_tree.specs.Trees.{statement_of, sequence_of, sequences_of};
ghost use Rattle.array_meaning.specs.Choices.{has_no_site_under_if, statement_has_no_site_under_if, have_no_site_under_if};

use array_tree::{Block, Blocks, Stmt};

/// Whether no construct of the block is inside a side of an `if`, given whether the block is such a side or inside one.
#[cycle(choice)]
pub(crate) fn has_no_choice(block: &Block, inside: bool) -> bool
    ensures { result ≡ has_no_site_under_if (sequence_of block.now) inside }
{
    for statement in &block.statements {
        if !statement_has_no_choice(statement, inside) {
            return false;
        }
    }
    true
}

// The same for a statement.
#[cycle(choice)]
fn statement_has_no_choice(statement: &Stmt, inside: bool) -> bool
    ensures { result ≡ statement_has_no_site_under_if (statement_of statement.now) inside }
{
    match statement {
        Stmt::Assign { .. } => true,
        Stmt::For { body, .. } => has_no_choice(body, inside),
        Stmt::If {
            then_block,
            else_block,
            ..
        } => has_no_choice(then_block, true) && has_no_choice(else_block, true),
        Stmt::Par { branches, .. } => !inside && have_no_choice(branches, false),
        Stmt::Team { phases, .. } => !inside && have_no_choice(phases, false),
    }
}

// The same for branches or phases.
#[cycle(choice)]
fn have_no_choice(blocks: &Blocks, inside: bool) -> bool
    ensures { result ≡ have_no_site_under_if (sequences_of blocks.now) inside }
{
    for block in &blocks.blocks {
        if !has_no_choice(block, inside) {
            return false;
        }
    }
    true
}
