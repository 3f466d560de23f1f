//! The least cell on which two pieces of a construct cross.
ghost use Rattle.std.specs.Prelude.{◌≡◌, ℕ, ◌<◌, None, IfOk};
ghost use Rattle.std.specs.Bool.{OnTrue};
ghost use Rattle.array_tree.specs.Trees.{sequence_of, sequences_of};
ghost use Rattle.array_meaning.specs.Stores.{cells_of};
ghost use Rattle.array_meaning.specs.Work.{sequence_work};
ghost use Rattle.array_meaning.specs.Members.{team_works};
ghost use Rattle.array_meaning.specs.Overlap.{first_from};
ghost use Rattle.array_eval.specs.Views.{vars_of};
ghost use Rattle.phase_order.specs.Tests.{crosses, crossing};
ghost use Rattle.pipe_walk.specs.Inside.Tables.{past_in, IsFor};
ghost use Rattle.pipe_walk.specs.Inside.Marks.{with_pieces};
ghost use Rattle.pipe_walk.specs.Inside.Teams.{team_rounds};

use crate::mark::Member;
use crate::stretches::members_are_clear;
use crate::table::Table;
use array_eval::{Layout, Scope, span, start_of_member};
use array_tree::{Block, Blocks};
use site_walk::{Turns, visit_loop};
use std::alloc::{AllocError, Global};
use touch_bounds::{Ranges, branches_pay, phase_pays};

// In a new table, so many cells cost as much as the walk through a statement.
const CELLS_A_STATEMENT: u64 = 16;

// Marks the cells that the members of a `team` touch in one phase.
fn mark_members<'s>(
    layout: &Layout,
    phase: &'s Block,
    turns: Turns<'s>,
    members: u64,
    scope: &'s Scope<'s>,
    table: &mut Table,
)
    ensures { table.new ≡ with_pieces layout.now 0
        (team_works turns.entry.var.now turns.entry.low turns.entry.high members (sequence_work (sequence_of phase.now))
        (vars_of scope.now)) table.old }
{
    for member in 0..members {
        let part = Turns {
            var: turns.var,
            low: start_of_member(turns.low, turns.high, members, member),
            high: start_of_member(turns.low, turns.high, members, member + 1),
        };
        visit_loop(&Member(member as usize), layout, phase, &part, scope, table);
    }
}

// Walks through the phases of a `team`, and keeps the cells on which two of its pieces cross.
fn walk_phases<'s>(
    layout: &Layout,
    phases: &'s Blocks,
    turns: Turns<'s>,
    members: u64,
    scope: &'s Scope<'s>,
    table: &mut Table,
)
    requires { IsFor layout.now table.old }
    ensures table { IsFor layout.now table.new }
    ensures crossed { (cell : ℕ) → cell < cells_of layout.now →
        (past_in table.new.past cell).crossed ≡ crosses layout.now cell 0 0
        (team_rounds (sequences_of phases.now) turns.entry members (vars_of scope.now)) }
{
    table.clear();
    for phase in &phases.blocks {
        mark_members(layout, phase, turns, members, scope, table);
        table.settle();
    }
}

// The least cell on which two pieces crossed.
#[tactic(auto, using(site_walk::proofs::PieceLemmas::first_found, site_walk::proofs::PieceLemmas::first_later, site_walk::proofs::PieceLemmas::first_end))]
fn least_crossed(layout: &Layout, table: &Table) -> Option<u16>
    ensures { result ≡ first_from (λ cell. (past_in table.now.past cell).crossed) 0 (cells_of layout.now) }
{
    if !table.may_cross() {
        return None;
    }
    for cell in 0..layout.cells() {
        if table.is_crossed(cell) {
            return Some(cell as u16);
        }
    }
    None
}

// Whether analysing the texts of phases twice for each member is worth its time, before a walk through so many turns, whose
// table costs as much as so many statements: if there are many turns, each has much to do, or the table is large.
fn looking_pays(phases: &Blocks, turns: u64, members: u64, table: u64) -> bool {
    if turns >= members && branches_pay(phases) {
        return true;
    }
    let share = table / phases.blocks.len().max(1) as u64;
    for phase in &phases.blocks {
        if !phase_pays(phase, turns, members.saturating_mul(2), share) {
            return false;
        }
    }
    true
}

// Whether the text shows that no two pieces of a `team` cross, so that no walk is needed, whose table costs as much as so many
// statements. A single member crosses nothing, and the pieces of one phase don't cross.
fn is_seen_clear<'s>(
    alloc: Global,
    layout: &Layout,
    phases: &'s Blocks,
    turns: Turns<'s>,
    members: u64,
    table: u64,
    scope: &'s Scope<'s>,
) -> bool
    ensures { OnTrue result (crossing layout.now (cells_of layout.now)
        (team_rounds (sequences_of phases.now) turns.entry members (vars_of scope.now)) ≡ None) }
{
    if members < 2 {
        return true;
    }
    if phases.blocks.len() < 2 {
        return true;
    }
    if !looking_pays(phases, span(turns.low, turns.high), members, table) {
        return false;
    }
    let ranges = Ranges::Fixed(scope);
    members_are_clear(alloc, layout, phases, turns, members, &ranges)
}

// The least cell on which two pieces of a `team` cross, by a walk.
fn walked_crossing<'s>(
    layout: &Layout,
    phases: &'s Blocks,
    turns: Turns<'s>,
    members: u64,
    scope: &'s Scope<'s>,
    table: &mut Table,
) -> Option<u16>
    requires { IsFor layout.now table.old }
    ensures table { IsFor layout.now table.new }
    ensures found { result ≡ crossing layout.now (cells_of layout.now)
        (team_rounds (sequences_of phases.now) turns.entry members (vars_of scope.now)) }
{
    walk_phases(layout, phases, turns, members, scope, table);
    least_crossed(layout, table)
}

/// The least cell on which two pieces of a `team` cross. It doesn't walk if the text shows that there is none. In a loop around
/// the `team` it analyses the text once a turn.
pub(crate) fn crossing_in<'s>(
    alloc: Global,
    layout: &Layout,
    phases: &'s Blocks,
    turns: Turns<'s>,
    members: u64,
    scope: &'s Scope<'s>,
    table: &mut Table,
) -> Option<u16>
    requires { IsFor layout.now table.old }
    ensures table { IsFor layout.now table.new }
    ensures found { result ≡ crossing layout.now (cells_of layout.now)
        (team_rounds (sequences_of phases.now) turns.entry members (vars_of scope.now)) }
{
    // Why: the table is there already.
    if is_seen_clear(alloc, layout, phases, turns, members, 0, scope) {
        return None;
    }
    walked_crossing(layout, phases, turns, members, scope, table)
}

/// The least cell on which two pieces cross of a `team` of so many members, with these phases and the variables of this scope
/// around it.
///
/// # Errors
///
/// `AllocError` if an allocation fails.
///
/// # Memory
///
/// It allocates the walk's tables.
pub fn crossing_of<'s>(
    alloc: Global,
    layout: &Layout,
    phases: &'s Blocks,
    turns: Turns<'s>,
    members: u64,
    scope: &'s Scope<'s>,
) -> Result<Option<u16>, AllocError>
    ensures { IfOk result (λ found. found ≡ crossing layout.now (cells_of layout.now)
        (team_rounds (sequences_of phases.now) turns.entry members (vars_of scope.now))) }
{
    let made = layout.cells() as u64 / CELLS_A_STATEMENT;
    if is_seen_clear(alloc, layout, phases, turns, members, made, scope) {
        return Ok(None);
    }
    let mut table = Table::new(alloc, layout)?;
    Ok(walked_crossing(layout, phases, turns, members, scope, &mut table))
}
