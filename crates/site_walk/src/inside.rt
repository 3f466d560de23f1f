//! The walk that searches a static index outside its array.
ghost use Rattle.std.specs.Prelude.{◌≡◌, None, []};
ghost use Rattle.std.specs.Bool.{OnTrue};
ghost use Rattle.array_tree.specs.Trees.{expression_of, statement_of, sequence_of};
ghost use Rattle.array_meaning.specs.Stores.{length_of};
ghost use Rattle.array_meaning.specs.Work.{statement_work, sequence_work};
ghost use Rattle.array_meaning.specs.Touch.{visit, walk};
ghost use Rattle.array_eval.specs.Views.{vars_of};
ghost use Rattle.site_walk.specs.Visits.{after};
ghost use Rattle.site_walk.specs.Firsts.{first_of, or_first};
ghost use Rattle.site_walk.specs.Outside.{index_fault, visit_fault};

use crate::fault::WalkFault;
use crate::visits::{Access, Visits, visit_statement};
use array_eval::{Layout, NoCells, Scope, evaluate, is_dynamic};
use array_tree::{Block, Stmt};
use std::alloc::Global;
use touch_bounds::{indices_are_inside, statement_pays};

// The fault of an index of an array, if there is one.
fn index_outside(layout: &Layout, access: &Access, scope: &Scope) -> Option<WalkFault>
    ensures { result ≡ index_fault access.now.line (length_of layout.now access.now.array.now)
        (visit layout.now access.now.line access.now.writes (vars_of scope.now) access.now.array.now
        (expression_of access.now.index.now)).index }
{
    if is_dynamic(access.index) {
        return None;
    }
    let number = evaluate(layout, access.index, scope, &NoCells);
    let length = layout.place_of(access.array).length;
    if 0 <= number && number < length as i64 {
        None
    } else {
        Some(WalkFault::OutOfRange {
            line: access.line,
            index: number,
            length: length as u16,
        })
    }
}

// Keeps the fault of the first index outside its array.
#[derive(Clone, Copy)]
struct Indices;

impl Visits for Indices {
    type Notes = Option<WalkFault>;

    ghost noted = { λ indices arrays. or_first (visit_fault arrays) };

    fn note(&self, layout: &Layout, access: &Access, scope: &Scope, found: &mut Option<WalkFault>) {
        if found.is_none() {
            *found = index_outside(layout, access, scope);
        }
    }
}

// Whether the text of a statement shows that each static index of it is inside its array.
fn is_settled<'s>(alloc: Global, layout: &Layout, statement: &'s Stmt, scope: &'s Scope<'s>) -> bool
    ensures { OnTrue result (first_of (visit_fault layout.now)
        (walk layout.now (statement_work (statement_of statement.now) (vars_of scope.now)))
        ≡ None) }
{
    statement_pays(statement) && indices_are_inside(alloc, layout, statement, scope)
}

// Keeps the first fault of an index in the walk through a statement, unless an earlier one was found. If the text shows that
// the statement has none, it isn't walked.
#[tactic(auto, using(crate::proofs::FirstLemmas::or_first_each, array_meaning::proofs::LastLemmas::or_none))]
fn keep_unless_settled<'s>(
    alloc: Global,
    layout: &Layout,
    statement: &'s Stmt,
    scope: &'s Scope<'s>,
    found: &mut Option<WalkFault>,
)
    ensures { found.new ≡ after (or_first (visit_fault layout.now)) layout.now (statement_work (statement_of statement.now)
        (vars_of scope.now)) found.old }
{
    if is_settled(alloc, layout, statement, scope) {
        return;
    }
    visit_statement(&Indices, layout, statement, scope, found);
}

/// Keeps the first fault of an index in a program's walk, unless an earlier one was found. It passes over the statements of the
/// body whose text shows that they have none.
pub(crate) fn keep_body(alloc: Global, layout: &Layout, body: &Block, found: &mut Option<WalkFault>)
    ensures { found.new ≡ after (or_first (visit_fault layout.now)) layout.now
        (sequence_work (sequence_of body.now) []) found.old }
{
    for statement in &body.statements {
        keep_unless_settled(alloc, layout, statement, &Scope::Outermost, found);
    }
}
