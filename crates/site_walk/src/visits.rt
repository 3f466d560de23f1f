//! The walk over the visits of a part of a program: each index of an array, on both sides of each `if`, and in branches and phases
//! from left to right.
ghost use Rattle.std.specs.Prelude.{◌≡◌};
ghost use Rattle.std.specs.List.{fold};
ghost use Rattle.array_tree.specs.Trees.{expression_of, statement_of, sequence_of, sequences_of};
ghost use Rattle.array_meaning.specs.Stores.{Arrays};
ghost use Rattle.array_meaning.specs.Work.{statement_work, sequence_work, branches_work, phases_work, loop};
ghost use Rattle.array_meaning.specs.Touch.{Visit, reads_in, visit};
ghost use Rattle.array_eval.specs.Views.{vars_of};
ghost use Rattle.site_walk.specs.Visits.{after};

use crate::turns::Turns;
use array_eval::{Layout, Scope};
use array_tree::{Block, Blocks, Expr, Name, Stmt};

/// An index of an array in a program's text.
#[derive(Clone, Copy, Drop)]
pub struct Access<'s> {
    /// The line of the assignment or `if` whose own expressions have the index.
    pub line: u32,
    /// Whether the assignment writes there.
    pub writes: bool,
    /// The array.
    pub array: &'s Name,
    /// The index.
    pub index: &'s Expr,
}

/// What a walk notes of visits.
pub trait Visits {
    /// What it has noted so far.
    type Notes;

    /// The notes after a visit.
    ghost noted: { Self → Arrays → Self.Notes → Visit → Self.Notes };

    /// Notes a visit.
    fn note(&self, layout: &Layout, access: &Access, scope: &Scope, notes: &mut Self::Notes)
        ensures { notes.new ≡ noted self.now layout.now notes.old
            (visit layout.now access.now.line access.now.writes (vars_of scope.now) access.now.array.now
            (expression_of access.now.index.now)) };
}

// Notes the reads of an expression.
#[tactic(auto, using(crate::proofs::VisitLemmas::visits_append))]
fn visit_reads<V: Visits>(
    visits: &V,
    layout: &Layout,
    line: u32,
    expr: &Expr,
    scope: &Scope,
    notes: &mut V::Notes,
)
    ensures { notes.new ≡ fold (V.noted visits.now layout.now) notes.old
        (reads_in layout.now line (vars_of scope.now) (expression_of expr.now)) }
{
    match expr {
        Expr::Number(_) | Expr::Var(_) => {}
        Expr::Read(array, index) => {
            visit_reads(visits, layout, line, index, scope, notes);
            let access = Access {
                line,
                writes: false,
                array,
                index,
            };
            visits.note(layout, &access, scope, notes);
        }
        Expr::Neg(operand) => visit_reads(visits, layout, line, operand, scope, notes),
        Expr::Binary(_, left, right) => {
            visit_reads(visits, layout, line, left, scope, notes);
            visit_reads(visits, layout, line, right, scope, notes);
        }
    }
}

/// Notes the visits of a block.
#[cycle(visit)]
pub fn visit_block<'s, V: Visits>(
    visits: &V,
    layout: &Layout,
    block: &'s Block,
    scope: &'s Scope<'s>,
    notes: &mut V::Notes,
)
    ensures { notes.new ≡ after (V.noted visits.now layout.now) layout.now
        (sequence_work (sequence_of block.now) (vars_of scope.now)) notes.old }
{
    for statement in &block.statements {
        visit_statement(visits, layout, statement, scope, notes);
    }
}

/// Notes the visits of a statement.
#[cycle(visit)]
pub fn visit_statement<'s, V: Visits>(
    visits: &V,
    layout: &Layout,
    statement: &'s Stmt,
    scope: &'s Scope<'s>,
    notes: &mut V::Notes,
)
    ensures { notes.new ≡ after (V.noted visits.now layout.now) layout.now
        (statement_work (statement_of statement.now) (vars_of scope.now)) notes.old }
{
    match statement {
        Stmt::Assign {
            line,
            array,
            index,
            value,
        } => {
            visit_reads(visits, layout, *line, index, scope, notes);
            visit_reads(visits, layout, *line, value, scope, notes);
            let access = Access {
                line: *line,
                writes: true,
                array,
                index,
            };
            visits.note(layout, &access, scope, notes);
        }
        Stmt::For {
            var,
            low,
            high,
            body,
            ..
        } => {
            let turns = Turns {
                var,
                low: *low,
                high: *high,
            };
            visit_loop(visits, layout, body, &turns, scope, notes);
        }
        Stmt::If {
            line,
            cond,
            then_block,
            else_block,
        } => {
            visit_reads(visits, layout, *line, cond, scope, notes);
            visit_block(visits, layout, then_block, scope, notes);
            visit_block(visits, layout, else_block, scope, notes);
        }
        Stmt::Par { branches, .. } => visit_branches(visits, layout, branches, scope, notes),
        Stmt::Team {
            var,
            low,
            high,
            phases,
            ..
        } => {
            let turns = Turns {
                var,
                low: *low,
                high: *high,
            };
            visit_phases(visits, layout, phases, &turns, scope, notes);
        }
    }
}

/// Notes the visits of a block in each turn of a loop around it.
#[cycle(visit)]
pub fn visit_loop<'s, V: Visits>(
    visits: &V,
    layout: &Layout,
    body: &'s Block,
    turns: &Turns<'s>,
    scope: &'s Scope<'s>,
    notes: &mut V::Notes,
)
    ensures { notes.new ≡ after (V.noted visits.now layout.now) layout.now
        (loop turns.now.var.now turns.now.low turns.now.high (sequence_work (sequence_of body.now))
        (vars_of scope.now)) notes.old }
{
    for number in turns.low..turns.high {
        let turn = Scope::Turn {
            name: turns.var,
            value: number,
            outer: scope,
        };
        visit_block(visits, layout, body, &turn, notes);
    }
}

// Notes the visits of the branches of a `par`.
#[cycle(visit)]
fn visit_branches<'s, V: Visits>(
    visits: &V,
    layout: &Layout,
    branches: &'s Blocks,
    scope: &'s Scope<'s>,
    notes: &mut V::Notes,
)
    ensures { notes.new ≡ after (V.noted visits.now layout.now) layout.now
        (branches_work (sequences_of branches.now) (vars_of scope.now)) notes.old }
{
    for branch in &branches.blocks {
        visit_block(visits, layout, branch, scope, notes);
    }
}

// Notes the visits of the phases of a `team`, each a loop.
#[cycle(visit)]
fn visit_phases<'s, V: Visits>(
    visits: &V,
    layout: &Layout,
    phases: &'s Blocks,
    turns: &Turns<'s>,
    scope: &'s Scope<'s>,
    notes: &mut V::Notes,
)
    ensures { notes.new ≡ after (V.noted visits.now layout.now) layout.now
        (phases_work (sequences_of phases.now) turns.now.var.now turns.now.low turns.now.high
        (vars_of scope.now)) notes.old }
{
    for phase in &phases.blocks {
        visit_loop(visits, layout, phase, turns, scope, notes);
    }
}
