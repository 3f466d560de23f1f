//! The pieces of one round, and the least cell on which two of them overlap.
ghost use Rattle.std.specs.Prelude.{◌≡◌, ◌<◌, ◌+◌, cond, Some, None, IfSome};
ghost use Rattle.array_tree.specs.Trees.{sequence_of, sequences_of};
ghost use Rattle.array_meaning.specs.Bounds.{most_cells};
ghost use Rattle.array_meaning.specs.Stores.{cells_of};
ghost use Rattle.array_meaning.specs.Work.{sequence_work};
ghost use Rattle.array_meaning.specs.Members.{team_works};
ghost use Rattle.array_meaning.specs.Overlap.{first_from, overlap};
ghost use Rattle.array_meaning.specs.Sites.{branch_works};
ghost use Rattle.array_eval.specs.Views.{vars_of};
ghost use Rattle.site_walk.specs.Inside.Touched.{clashes};
ghost use Rattle.site_walk.specs.Inside.Marks.{with_pieces, done_at, HasPlaces};

use crate::mark::Piece;
use crate::places::number_at;
use crate::table::Table;
use crate::turns::Turns;
use crate::visits::{visit_block, visit_loop};
use array_eval::{Layout, Scope, span, start_of_member};
use array_tree::{Block, Blocks};
use std::alloc::Global;
use touch_bounds::{Ranges, branches_are_apart, branches_pay, members_are_apart, phase_pays};

// Whether the pieces of a round clash on a cell.
fn clashes_on(layout: &Layout, table: &Table, cell: usize) -> bool
    ensures { result ≡ clashes (done_at layout.now table.now cell) }
{
    let here = table.cells.get(cell);
    here.with(table.everywhere.get(number_at(layout, cell)))
        .clashes()
}

// The least cell on which the pieces of a round clash.
#[tactic(auto, using(crate::proofs::PieceLemmas::first_found, crate::proofs::PieceLemmas::first_later, crate::proofs::PieceLemmas::first_end))]
fn least_clash(layout: &Layout, table: &Table) -> Option<usize>
    ensures least { result ≡ first_from (λ cell. clashes (done_at layout.now table.now cell)) 0
        (cells_of layout.now) }
    ensures small { IfSome result (λ cell. cell < most_cells) }
{
    for cell in 0..layout.cells() {
        if clashes_on(layout, table, cell) {
            return Some(cell);
        }
    }
    None
}

// The least cell on which the pieces of a round clash. Usually nothing is suspect, and no cell is compared.
fn least_overlap(layout: &Layout, table: &Table) -> Option<usize>
    ensures least { result ≡ cond table.now.suspect
        (first_from (λ cell. clashes (done_at layout.now table.now cell)) 0
        (cells_of layout.now)) None }
    ensures small { IfSome result (λ cell. cell < most_cells) }
{
    if table.suspect {
        least_clash(layout, table)
    } else {
        None
    }
}

// Marks the cells that the branches of a `par` touch, each branch as a piece.
fn mark_pieces<'s>(layout: &Layout, branches: &'s Blocks, scope: &'s Scope<'s>, table: &mut Table)
    ensures { table.new ≡ with_pieces layout.now 0 (branch_works (sequences_of branches.now)
        (vars_of scope.now)) table.old }
{
    for (piece, branch) in branches.blocks.iter().enumerate() {
        visit_block(&Piece(piece), layout, branch, scope, table);
    }
}

/// The least cell on which two branches of a `par` overlap. It doesn't walk a single branch, which can't overlap, and branches
/// whose text shows that they are apart.
pub(crate) fn overlap_of_branches<'s>(
    alloc: Global,
    layout: &Layout,
    branches: &'s Blocks,
    scope: &'s Scope<'s>,
    table: &mut Table,
) -> Option<usize>
    requires places { HasPlaces layout.now table.old }
    ensures places { HasPlaces layout.now table.new }
    ensures found { result ≡ overlap layout.now (cells_of layout.now)
        (branch_works (sequences_of branches.now) (vars_of scope.now)) }
    ensures small { IfSome result (λ cell. cell < most_cells) }
{
    if branches.blocks.len() < 2 {
        return None;
    }
    if branches_pay(branches)
        && branches_are_apart(alloc, layout, branches, &Ranges::Fixed(scope))
    {
        return None;
    }
    table.clear();
    mark_pieces(layout, branches, scope, table);
    least_overlap(layout, table)
}

// Marks the cells that the members of a `team` touch in one phase, each member as a piece.
fn mark_members<'s>(
    layout: &Layout,
    phase: &'s Block,
    turns: Turns<'s>,
    members: u64,
    scope: &'s Scope<'s>,
    table: &mut Table,
)
    ensures { table.new ≡ with_pieces layout.now 0
        (team_works turns.entry.var.now turns.entry.low turns.entry.high members (sequence_work (sequence_of phase.now))
        (vars_of scope.now)) table.old }
{
    for member in 0..members {
        let part = Turns {
            var: turns.var,
            low: start_of_member(turns.low, turns.high, members, member),
            high: start_of_member(turns.low, turns.high, members, member + 1),
        };
        visit_loop(&Piece(member as usize), layout, phase, &part, scope, table);
    }
}

/// The least cell on which two members of a `team` overlap in one phase. It doesn't walk a single member, which can't overlap,
/// and members whose text shows that they are apart.
pub(crate) fn overlap_of_members<'s>(
    alloc: Global,
    layout: &Layout,
    phase: &'s Block,
    turns: Turns<'s>,
    members: u64,
    scope: &'s Scope<'s>,
    table: &mut Table,
) -> Option<usize>
    requires places { HasPlaces layout.now table.old }
    ensures places { HasPlaces layout.now table.new }
    ensures found { result ≡ overlap layout.now (cells_of layout.now)
        (team_works turns.entry.var.now turns.entry.low turns.entry.high members (sequence_work (sequence_of phase.now))
        (vars_of scope.now)) }
    ensures small { IfSome result (λ cell. cell < most_cells) }
{
    if members < 2 {
        return None;
    }
    if phase_pays(phase, span(turns.low, turns.high), members, 0)
        && members_are_apart(
            alloc,
            layout,
            phase,
            turns.var,
            turns.low,
            turns.high,
            members,
            &Ranges::Fixed(scope),
        )
    {
        return None;
    }
    table.clear();
    mark_members(layout, phase, turns, members, scope, table);
    least_overlap(layout, table)
}
