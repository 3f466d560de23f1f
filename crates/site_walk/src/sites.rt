//! The search of the first fault among the sites of a part of a program, in the order of its plan.
ghost use Rattle.std.specs.Prelude.{◌≡◌, None, [], ◌∷◌, Option};
ghost use Rattle.std.specs.Bool.{OnTrue};
ghost use Rattle.array_tree.specs.Trees.{statement_of, sequence_of, sequences_of};
ghost use Rattle.array_meaning.specs.Stores.{Arrays};
ghost use Rattle.array_meaning.specs.Sites.{Site, branch_works, phase_rounds, statement_sites, sequence_sites, branches_sites, phases_sites, loop_sites};
ghost use Rattle.array_eval.specs.Views.{vars_of};
ghost use Rattle.site_walk.specs.Firsts.{first_of, or_first, or_first_of};

use crate::turns::Turns;
use array_eval::{Layout, Scope};
use array_tree::{Block, Blocks, Stmt};
use site_counts::sites_in_block;

/// A search of the first site that has a fault. It keeps the first fault that it found.
pub trait SiteSearch {
    /// What is wrong with a site.
    type Fault;

    /// The fault of a site.
    ghost fault_of: { Arrays → Site → Option Self.Fault };

    /// The fault found so far.
    ghost found: { Self → Option Self.Fault };

    /// The search's tables have the sizes of these arrays.
    ghost IsFor: { Arrays → Self → Type 0 };

    /// Keeps the fault of a `par`, unless an earlier fault was found.
    fn keep_par<'s>(
        &mut self,
        layout: &Layout,
        line: u32,
        branches: &'s Blocks,
        scope: &'s Scope<'s>,
    )
        requires { IsFor layout.now self.old }
        ensures sized { IsFor layout.now self.new }
        ensures found { found self.new ≡ or_first (fault_of layout.now) (found self.old) record {
          line = line;
          rounds = branch_works (sequences_of branches.now) (vars_of scope.now) ∷ [];
        } };

    /// Keeps the fault of a `team`, unless an earlier fault was found.
    fn keep_team<'s>(
        &mut self,
        layout: &Layout,
        line: u32,
        phases: &'s Blocks,
        turns: &Turns<'s>,
        members: u64,
        scope: &'s Scope<'s>,
    )
        requires { IsFor layout.now self.old }
        ensures sized { IsFor layout.now self.new }
        ensures found { found self.new ≡ or_first (fault_of layout.now) (found self.old) record {
          line = line;
          rounds = phase_rounds (sequences_of phases.now) turns.now.var.now turns.now.low turns.now.high members (vars_of scope.now);
        } };

    /// Whether the text of a loop shows that its sites have no fault.
    fn is_settled<'s>(
        &self,
        layout: &Layout,
        body: &'s Block,
        turns: &Turns<'s>,
        scope: &'s Scope<'s>,
    ) -> bool
        ensures { OnTrue result (first_of (fault_of layout.now) (loop_sites turns.now.var.now turns.now.low
            turns.now.high (sequence_sites (sequence_of body.now)) (vars_of scope.now)) ≡ None) };
}

/// Searches the sites of a block.
#[cycle(seek)]
pub fn seek_block<'s, S: SiteSearch>(
    search: &mut S,
    layout: &Layout,
    block: &'s Block,
    scope: &'s Scope<'s>,
)
    requires { S.IsFor layout.now search.old }
    ensures sized { S.IsFor layout.now search.new }
    ensures found { S.found search.new ≡ or_first_of (S.fault_of layout.now)
        (sequence_sites (sequence_of block.now) (vars_of scope.now)) (S.found search.old) }
{
    for statement in &block.statements {
        seek_statement(search, layout, statement, scope);
    }
}

// Searches the sites of a statement.
#[cycle(seek)]
fn seek_statement<'s, S: SiteSearch>(
    search: &mut S,
    layout: &Layout,
    statement: &'s Stmt,
    scope: &'s Scope<'s>,
)
    requires { S.IsFor layout.now search.old }
    ensures sized { S.IsFor layout.now search.new }
    ensures found { S.found search.new ≡ or_first_of (S.fault_of layout.now)
        (statement_sites (statement_of statement.now) (vars_of scope.now)) (S.found search.old) }
{
    match statement {
        Stmt::Assign { .. } => {}
        Stmt::For {
            var,
            low,
            high,
            body,
            ..
        } => {
            let turns = Turns {
                var,
                low: *low,
                high: *high,
            };
            seek_loop(search, layout, body, &turns, scope);
        }
        Stmt::If {
            then_block,
            else_block,
            ..
        } => {
            seek_block(search, layout, then_block, scope);
            seek_block(search, layout, else_block, scope);
        }
        Stmt::Par { line, branches } => {
            search.keep_par(layout, *line, branches, scope);
            seek_branches(search, layout, branches, scope);
        }
        Stmt::Team {
            line,
            var,
            low,
            high,
            members,
            phases,
        } => {
            let turns = Turns {
                var,
                low: *low,
                high: *high,
            };
            search.keep_team(layout, *line, phases, &turns, members.unsigned_abs(), scope);
            seek_phases(search, layout, phases, &turns, scope);
        }
    }
}

// Searches the sites of a block in each turn of a loop around it. It passes over a loop that enters no site, and a loop whose
// text shows for all turns at once that its sites have no fault.
#[cycle(seek)]
fn seek_loop<'s, S: SiteSearch>(
    search: &mut S,
    layout: &Layout,
    body: &'s Block,
    turns: &Turns<'s>,
    scope: &'s Scope<'s>,
)
    requires { S.IsFor layout.now search.old }
    ensures sized { S.IsFor layout.now search.new }
    ensures found { S.found search.new ≡ or_first_of (S.fault_of layout.now)
        (loop_sites turns.now.var.now turns.now.low turns.now.high (sequence_sites (sequence_of body.now))
        (vars_of scope.now)) (S.found search.old) }
{
    if sites_in_block(body) == 0 {
        return;
    }
    if search.is_settled(layout, body, turns, scope) {
        return;
    }
    for number in turns.low..turns.high {
        let turn = Scope::Turn {
            name: turns.var,
            value: number,
            outer: scope,
        };
        seek_block(search, layout, body, &turn);
    }
}

// Searches the sites of the branches of a `par`.
#[cycle(seek)]
fn seek_branches<'s, S: SiteSearch>(
    search: &mut S,
    layout: &Layout,
    branches: &'s Blocks,
    scope: &'s Scope<'s>,
)
    requires { S.IsFor layout.now search.old }
    ensures sized { S.IsFor layout.now search.new }
    ensures found { S.found search.new ≡ or_first_of (S.fault_of layout.now)
        (branches_sites (sequences_of branches.now) (vars_of scope.now)) (S.found search.old) }
{
    for branch in &branches.blocks {
        seek_block(search, layout, branch, scope);
    }
}

// Searches the sites of the phases of a `team`, each a loop.
#[cycle(seek)]
fn seek_phases<'s, S: SiteSearch>(
    search: &mut S,
    layout: &Layout,
    phases: &'s Blocks,
    turns: &Turns<'s>,
    scope: &'s Scope<'s>,
)
    requires { S.IsFor layout.now search.old }
    ensures sized { S.IsFor layout.now search.new }
    ensures found { S.found search.new ≡ or_first_of (S.fault_of layout.now)
        (phases_sites (sequences_of phases.now) turns.now.var.now turns.now.low turns.now.high
        (vars_of scope.now)) (S.found search.old) }
{
    for phase in &phases.blocks {
        seek_loop(search, layout, phase, turns, scope);
    }
}
