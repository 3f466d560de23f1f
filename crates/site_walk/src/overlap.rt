//! The search of an overlap of two pieces of a site.
ghost use Rattle.std.specs.Prelude.{◌≡◌, [], ◌∷◌};
ghost use Rattle.std.specs.Option.{option_or};
ghost use Rattle.array_tree.specs.Trees.{sequence_of};
ghost use Rattle.array_meaning.specs.Work.{sequence_work};
ghost use Rattle.array_meaning.specs.Members.{team_works};
ghost use Rattle.array_eval.specs.Views.{vars_of};
ghost use Rattle.site_walk.specs.FirstOverlap.{rounds_fault, site_overlap};
ghost use Rattle.site_walk.specs.Inside.Marks.{HasPlaces};

use crate::fault::WalkFault;
use crate::round::{overlap_of_branches, overlap_of_members};
use crate::sites::SiteSearch;
use crate::table::Table;
use crate::turns::Turns;
use array_eval::{Layout, Scope, span};
use array_tree::{Block, Blocks};
use std::alloc::Global;
use touch_bounds::{Ranges, loop_is_settled, loop_pays};

/// The search of the first site with an overlap.
#[derive(Drop)]
pub(crate) struct Overlaps {
    pub(crate) alloc: Global,
    pub(crate) table: Table,
    pub(crate) found: Option<WalkFault>,
}

impl Overlaps {
    // Keeps the overlap of the members of a `team` in one phase, unless an earlier fault was found.
    fn keep_phase<'s>(
        &mut self,
        layout: &Layout,
        line: u32,
        phase: &'s Block,
        turns: &Turns<'s>,
        members: u64,
        scope: &'s Scope<'s>,
    )
        requires { HasPlaces layout.now self.old.table }
        ensures places { HasPlaces layout.now self.new.table }
        ensures found { self.new.found
            ≡ option_or self.old.found (rounds_fault layout.now line
            (team_works turns.now.var.now turns.now.low turns.now.high members
            (sequence_work (sequence_of phase.now)) (vars_of scope.now) ∷ [])) }
    {
        if self.found.is_none() {
            if let Some(cell) = overlap_of_members(
                self.alloc,
                layout,
                phase,
                *turns,
                members,
                scope,
                &mut self.table,
            ) {
                self.found = Some(WalkFault::Overlap {
                    line,
                    cell: cell as u16,
                });
            }
        }
    }
}

impl SiteSearch for Overlaps {
    type Fault = WalkFault;

    ghost fault_of = { site_overlap };

    ghost found = { λ search. search.found };

    ghost IsFor = { λ arrays search. HasPlaces arrays search.table };

    fn keep_par<'s>(
        &mut self,
        layout: &Layout,
        line: u32,
        branches: &'s Blocks,
        scope: &'s Scope<'s>,
    ) {
        if self.found.is_none() {
            if let Some(cell) = overlap_of_branches(
                self.alloc,
                layout,
                branches,
                scope,
                &mut self.table,
            ) {
                self.found = Some(WalkFault::Overlap {
                    line,
                    cell: cell as u16,
                });
            }
        }
    }

    fn keep_team<'s>(
        &mut self,
        layout: &Layout,
        line: u32,
        phases: &'s Blocks,
        turns: &Turns<'s>,
        members: u64,
        scope: &'s Scope<'s>,
    ) {
        for phase in &phases.blocks {
            self.keep_phase(layout, line, phase, turns, members, scope);
        }
    }

    fn is_settled<'s>(
        &self,
        layout: &Layout,
        body: &'s Block,
        turns: &Turns<'s>,
        scope: &'s Scope<'s>,
    ) -> bool {
        loop_pays(body, span(turns.low, turns.high))
            && loop_is_settled(
                self.alloc,
                layout,
                body,
                turns.var,
                turns.low,
                turns.high,
                &Ranges::Fixed(scope),
            )
    }
}
