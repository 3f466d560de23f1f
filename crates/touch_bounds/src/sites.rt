//! Whether the text of a block shows that the pieces of all its sites are apart.
ghost use Rattle.std.specs.Prelude.{◌≡◌};
ghost use Rattle.std.specs.Bool.{OnTrue};
ghost use Rattle.array_tree.specs.Trees.{statement_of, sequence_of, sequences_of};
ghost use Rattle.array_meaning.specs.Sites.{phase_rounds, loop_sites, statement_sites, sequence_sites, branches_sites, phases_sites};
ghost use Rattle.touch_bounds.specs.Ranges.{bounds_of};
ghost use Rattle.touch_bounds.specs.Pieces.{AreAllRoundsApart, AreAllSitesApart};

use crate::interval::Interval;
use crate::ranges::Ranges;
use crate::round::{branches_are_apart, members_are_apart};
use array_eval::Layout;
use array_tree::{Block, Blocks, Name, Stmt};
use std::alloc::Global;

// Whether the text shows that the members of a `team` are apart in each phase.
fn phases_are_apart<'s>(
    alloc: Global,
    layout: &Layout,
    phases: &'s Blocks,
    var: &'s Name,
    low: i64,
    high: i64,
    members: u64,
    ranges: &'s Ranges<'s>,
) -> bool
    ensures { OnTrue result (AreAllRoundsApart layout.now (bounds_of ranges.now)
        (phase_rounds (sequences_of phases.now) var.now low high members)) }
{
    for phase in &phases.blocks {
        if !members_are_apart(alloc, layout, phase, var, low, high, members, ranges) {
            return false;
        }
    }
    true
}

// Whether the text shows that at each site of a block the pieces of each round are apart, for any values of the variables
// between their bounds. If the result is false, they may still be apart, or an allocation failed.
#[cycle(settle)]
fn block_is_settled<'s>(
    alloc: Global,
    layout: &Layout,
    block: &'s Block,
    ranges: &'s Ranges<'s>,
) -> bool
    ensures { OnTrue result (AreAllSitesApart layout.now (bounds_of ranges.now)
        (sequence_sites (sequence_of block.now))) }
{
    for statement in &block.statements {
        if !statement_is_settled(alloc, layout, statement, ranges) {
            return false;
        }
    }
    true
}

// The same for a statement.
#[cycle(settle)]
fn statement_is_settled<'s>(
    alloc: Global,
    layout: &Layout,
    statement: &'s Stmt,
    ranges: &'s Ranges<'s>,
) -> bool
    ensures { OnTrue result (AreAllSitesApart layout.now (bounds_of ranges.now)
        (statement_sites (statement_of statement.now))) }
{
    match statement {
        Stmt::Assign { .. } => true,
        Stmt::For {
            var,
            low,
            high,
            body,
            ..
        } => loop_is_settled(alloc, layout, body, var, *low, *high, ranges),
        Stmt::If {
            then_block,
            else_block,
            ..
        } => {
            if !block_is_settled(alloc, layout, then_block, ranges) {
                return false;
            }
            block_is_settled(alloc, layout, else_block, ranges)
        }
        Stmt::Par { branches, .. } => {
            if !branches_are_apart(alloc, layout, branches, ranges) {
                return false;
            }
            branches_are_settled(alloc, layout, branches, ranges)
        }
        Stmt::Team {
            var,
            low,
            high,
            members,
            phases,
            ..
        } => {
            let count = members.unsigned_abs();
            if !phases_are_apart(alloc, layout, phases, var, *low, *high, count, ranges) {
                return false;
            }
            phases_are_settled(alloc, layout, phases, var, *low, *high, ranges)
        }
    }
}

/// Whether the text shows that the pieces of each round are apart at each site that a block enters, for any number from `low`
/// to before `high`. It holds for any values of the variables between their bounds. If the result is false, they may still be
/// apart, or an allocation failed. The time is in proportion to the text, for any number of turns.
///
/// Pieces that are apart in each turn, but overlap across turns, aren't settled. The caller then checks their rounds turn by
/// turn.
#[cycle(settle)]
pub fn loop_is_settled<'s>(
    alloc: Global,
    layout: &Layout,
    body: &'s Block,
    var: &'s Name,
    low: i64,
    high: i64,
    ranges: &'s Ranges<'s>,
) -> bool
    ensures { OnTrue result (AreAllSitesApart layout.now (bounds_of ranges.now)
        (loop_sites var.now low high (sequence_sites (sequence_of body.now)))) }
{
    if low >= high {
        return true;
    }
    let turns = Ranges::Loop {
        name: var,
        within: Interval {
            least: low,
            greatest: high - 1,
        },
        outer: ranges,
    };
    block_is_settled(alloc, layout, body, &turns)
}

// The same for the branches of a `par`.
#[cycle(settle)]
fn branches_are_settled<'s>(
    alloc: Global,
    layout: &Layout,
    branches: &'s Blocks,
    ranges: &'s Ranges<'s>,
) -> bool
    ensures { OnTrue result (AreAllSitesApart layout.now (bounds_of ranges.now)
        (branches_sites (sequences_of branches.now))) }
{
    for branch in &branches.blocks {
        if !block_is_settled(alloc, layout, branch, ranges) {
            return false;
        }
    }
    true
}

// The same for the phases of a `team`.
#[cycle(settle)]
fn phases_are_settled<'s>(
    alloc: Global,
    layout: &Layout,
    phases: &'s Blocks,
    var: &'s Name,
    low: i64,
    high: i64,
    ranges: &'s Ranges<'s>,
) -> bool
    ensures { OnTrue result (AreAllSitesApart layout.now (bounds_of ranges.now)
        (phases_sites (sequences_of phases.now) var.now low high)) }
{
    for phase in &phases.blocks {
        if !loop_is_settled(alloc, layout, phase, var, low, high, ranges) {
            return false;
        }
    }
    true
}
