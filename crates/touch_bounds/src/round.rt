//! The pieces of a round, and whether their text shows that they are apart.
ghost use Rattle.std.specs.Prelude.{◌≡◌, IfSome, IsTrue};
ghost use Rattle.std.specs.Bool.{OnTrue};
ghost use Rattle.array_tree.specs.Trees.{statement_of, sequence_of, sequences_of};
ghost use Rattle.array_meaning.specs.Work.{statement_work, sequence_work, loop};
ghost use Rattle.array_meaning.specs.Members.{team_works};
ghost use Rattle.array_meaning.specs.Sites.{branch_works};
ghost use Rattle.array_meaning.specs.Touch.{walk};
ghost use Rattle.array_meaning.specs.Accepted.{are_inside};
ghost use Rattle.array_eval.specs.Views.{vars_of};
ghost use Rattle.touch_bounds.specs.Ranges.{bounds_of};
ghost use Rattle.touch_bounds.specs.Touches.{IsWorkNoted};
ghost use Rattle.touch_bounds.specs.Pieces.{tables_of, IsRoundNoted, IsRoundApart};

use crate::apart::{Piece, are_all_clear};
use crate::ranges::Ranges;
use crate::touch::UNTOUCHED;
use crate::work::{note_block, note_loop, note_statement};
use array_eval::{Layout, Scope, start_of_member};
use array_tree::{Block, Blocks, Name, Stmt};
use std::alloc::Global;

// The recorded stretches of a block, if all are known and no allocation failed.
fn noted_block<'s>(
    alloc: Global,
    layout: &Layout,
    block: &'s Block,
    ranges: &'s Ranges<'s>,
) -> Option<Piece>
    ensures { IfSome result (λ p. IsWorkNoted layout.now p.touches.items (bounds_of ranges.now)
        (sequence_work (sequence_of block.now))) }
{
    let mut touches = vec![in alloc; UNTOUCHED; layout.count()].ok()?;
    if note_block(layout, block, ranges, &mut touches) {
        Some(Piece { touches })
    } else {
        None
    }
}

// The same for a block that runs for each number from low to before high.
fn noted_loop<'s>(
    alloc: Global,
    layout: &Layout,
    body: &'s Block,
    var: &'s Name,
    low: i64,
    high: i64,
    ranges: &'s Ranges<'s>,
) -> Option<Piece>
    ensures { IfSome result (λ p. IsWorkNoted layout.now p.touches.items (bounds_of ranges.now)
        (loop var.now low high (sequence_work (sequence_of body.now)))) }
{
    let mut touches = vec![in alloc; UNTOUCHED; layout.count()].ok()?;
    if note_loop(layout, body, var, low, high, ranges, &mut touches) {
        Some(Piece { touches })
    } else {
        None
    }
}

// The recorded stretches of the branches of a `par`, each as a piece.
fn noted_branches<'s>(
    alloc: Global,
    layout: &Layout,
    branches: &'s Blocks,
    ranges: &'s Ranges<'s>,
) -> Option<Vec<Piece>>
    ensures { IfSome result (λ pieces.
        IsRoundNoted layout.now (tables_of pieces.items) (bounds_of ranges.now)
        (branch_works (sequences_of branches.now))) }
{
    let mut pieces = Vec::new(alloc);
    for branch in &branches.blocks {
        let piece = noted_block(alloc, layout, branch, ranges)?;
        pieces.push(piece).ok()?;
    }
    Some(pieces)
}

// The recorded stretches of the members of a `team` in one phase, each as a piece.
fn noted_members<'s>(
    alloc: Global,
    layout: &Layout,
    phase: &'s Block,
    var: &'s Name,
    low: i64,
    high: i64,
    members: u64,
    ranges: &'s Ranges<'s>,
) -> Option<Vec<Piece>>
    ensures { IfSome result (λ pieces.
        IsRoundNoted layout.now (tables_of pieces.items) (bounds_of ranges.now)
        (team_works var.now low high members (sequence_work (sequence_of phase.now)))) }
{
    let mut pieces = Vec::new(alloc);
    for member in 0..members {
        let start = start_of_member(low, high, members, member);
        let end = start_of_member(low, high, members, member + 1);
        let piece = noted_loop(alloc, layout, phase, var, start, end, ranges)?;
        pieces.push(piece).ok()?;
    }
    Some(pieces)
}

/// Whether the text shows that the branches of a `par` are apart, for any values of the variables between their bounds: each
/// touches, in each array, a stretch of cells that no other one writes. If the result is false, they may still be apart, or an
/// allocation failed.
pub fn branches_are_apart<'s>(
    alloc: Global,
    layout: &Layout,
    branches: &'s Blocks,
    ranges: &'s Ranges<'s>,
) -> bool
    ensures { OnTrue result (IsRoundApart layout.now (bounds_of ranges.now)
        (branch_works (sequences_of branches.now))) }
{
    match noted_branches(alloc, layout, branches, ranges) {
        Some(pieces) => are_all_clear(&pieces, layout.count()),
        None => false,
    }
}

/// Whether the text shows that the members of a `team` are apart in one phase, in the same way.
pub fn members_are_apart<'s>(
    alloc: Global,
    layout: &Layout,
    phase: &'s Block,
    var: &'s Name,
    low: i64,
    high: i64,
    members: u64,
    ranges: &'s Ranges<'s>,
) -> bool
    ensures { OnTrue result (IsRoundApart layout.now (bounds_of ranges.now)
        (team_works var.now low high members (sequence_work (sequence_of phase.now)))) }
{
    match noted_members(alloc, layout, phase, var, low, high, members, ranges) {
        Some(pieces) => are_all_clear(&pieces, layout.count()),
        None => false,
    }
}

/// Whether the text shows that each static index of a statement is inside its array. If the result is false, all may still be
/// inside, or an allocation failed.
pub fn indices_are_inside<'s>(
    alloc: Global,
    layout: &Layout,
    statement: &'s Stmt,
    scope: &'s Scope<'s>,
) -> bool
    ensures { OnTrue result (IsTrue
        (are_inside layout.now (walk layout.now
        (statement_work (statement_of statement.now) (vars_of scope.now))))) }
{
    let ranges = Ranges::Fixed(scope);
    match vec![in alloc; UNTOUCHED; layout.count()] {
        Ok(mut touches) => note_statement(layout, statement, &ranges, &mut touches),
        Err(_) => false,
    }
}
