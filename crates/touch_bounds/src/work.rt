//! Bounds of the cells that blocks touch.
ghost use Rattle.std.specs.Prelude.{◌≡◌, length};
ghost use Rattle.std.specs.Bool.{OnTrue};
ghost use Rattle.array_tree.specs.Trees.{statement_of, sequence_of, sequences_of};
ghost use Rattle.array_meaning.specs.Work.{statement_work, sequence_work, branches_work, phases_work, loop};
ghost use Rattle.touch_bounds.specs.Ranges.{bounds_of};
ghost use Rattle.touch_bounds.specs.Touches.{Widens, IsWorkNoted};

use crate::interval::Interval;
use crate::note::{note_assign, note_reads};
use crate::ranges::Ranges;
use crate::touch::Touch;
use array_eval::Layout;
use array_tree::{Block, Blocks, Name, Stmt};

/// Records, for each array, the cells that a block touches, for any values of the variables between their bounds, besides those
/// recorded before. Both sides of an `if` count, and a loop without turns touches nothing.
///
/// Returns whether all are known: each static index is then inside its array. If not, the record means nothing.
#[cycle(note)]
pub fn note_block<'s>(
    layout: &Layout,
    block: &'s Block,
    ranges: &'s Ranges<'s>,
    touches: &mut [Touch],
) -> bool
    requires places { length touches.old ≡ length layout.now }
    ensures wider { Widens touches.old touches.new }
    ensures noted { OnTrue result
        (IsWorkNoted layout.now touches.new (bounds_of ranges.now)
        (sequence_work (sequence_of block.now))) }
{
    for statement in &block.statements {
        if !note_statement(layout, statement, ranges, touches) {
            return false;
        }
    }
    true
}

/// The same for a statement.
#[cycle(note)]
pub(crate) fn note_statement<'s>(
    layout: &Layout,
    statement: &'s Stmt,
    ranges: &'s Ranges<'s>,
    touches: &mut [Touch],
) -> bool
    requires places { length touches.old ≡ length layout.now }
    ensures wider { Widens touches.old touches.new }
    ensures noted { OnTrue result
        (IsWorkNoted layout.now touches.new (bounds_of ranges.now)
        (statement_work (statement_of statement.now))) }
{
    match statement {
        Stmt::Assign {
            array,
            index,
            value,
            ..
        } => note_assign(layout, array, index, value, ranges, touches),
        Stmt::For {
            var,
            low,
            high,
            body,
            ..
        } => note_loop(layout, body, var, *low, *high, ranges, touches),
        Stmt::If {
            cond,
            then_block,
            else_block,
            ..
        } => {
            if !note_reads(layout, cond, ranges, touches) {
                return false;
            }
            if !note_block(layout, then_block, ranges, touches) {
                return false;
            }
            note_block(layout, else_block, ranges, touches)
        }
        Stmt::Par { branches, .. } => note_branches(layout, branches, ranges, touches),
        Stmt::Team {
            var,
            low,
            high,
            phases,
            ..
        } => note_phases(layout, phases, var, *low, *high, ranges, touches),
    }
}

/// The same for a block that runs for each number from `low` to before `high`.
#[cycle(note)]
pub(crate) fn note_loop<'s>(
    layout: &Layout,
    body: &'s Block,
    var: &'s Name,
    low: i64,
    high: i64,
    ranges: &'s Ranges<'s>,
    touches: &mut [Touch],
) -> bool
    requires places { length touches.old ≡ length layout.now }
    ensures wider { Widens touches.old touches.new }
    ensures noted { OnTrue result
        (IsWorkNoted layout.now touches.new (bounds_of ranges.now)
        (loop var.now low high (sequence_work (sequence_of body.now)))) }
{
    if low >= high {
        return true;
    }
    let turns = Ranges::Loop {
        name: var,
        within: Interval {
            least: low,
            greatest: high - 1,
        },
        outer: ranges,
    };
    note_block(layout, body, &turns, touches)
}

// The same for the branches of a `par`.
#[cycle(note)]
fn note_branches<'s>(
    layout: &Layout,
    branches: &'s Blocks,
    ranges: &'s Ranges<'s>,
    touches: &mut [Touch],
) -> bool
    requires places { length touches.old ≡ length layout.now }
    ensures wider { Widens touches.old touches.new }
    ensures noted { OnTrue result
        (IsWorkNoted layout.now touches.new (bounds_of ranges.now)
        (branches_work (sequences_of branches.now))) }
{
    for branch in &branches.blocks {
        if !note_block(layout, branch, ranges, touches) {
            return false;
        }
    }
    true
}

// The same for the phases of a `team`.
#[cycle(note)]
fn note_phases<'s>(
    layout: &Layout,
    phases: &'s Blocks,
    var: &'s Name,
    low: i64,
    high: i64,
    ranges: &'s Ranges<'s>,
    touches: &mut [Touch],
) -> bool
    requires places { length touches.old ≡ length layout.now }
    ensures wider { Widens touches.old touches.new }
    ensures noted { OnTrue result (IsWorkNoted layout.now touches.new (bounds_of ranges.now)
        (λ vars. phases_work (sequences_of phases.now) var.now low high vars)) }
{
    for phase in &phases.blocks {
        if !note_loop(layout, phase, var, low, high, ranges, touches) {
            return false;
        }
    }
    true
}
