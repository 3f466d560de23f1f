//! The search of a crossing of two pieces of a site.
ghost use Rattle.pipe_walk.specs.FirstCrossing.{site_crossing};
ghost use Rattle.pipe_walk.specs.Inside.Tables.{IsFor};

use crate::crossing::crossing_in;
use crate::fault::PipeFault;
use crate::table::Table;
use array_eval::{Layout, Scope};
use array_tree::{Block, Blocks};
use site_walk::{SiteSearch, Turns};
use std::alloc::Global;

/// The search of the first site with a crossing.
#[derive(Drop)]
pub(crate) struct Crossings {
    pub(crate) alloc: Global,
    pub(crate) table: Table,
    pub(crate) found: Option<PipeFault>,
}

impl SiteSearch for Crossings {
    type Fault = PipeFault;

    ghost fault_of = { site_crossing };

    ghost found = { λ search. search.found };

    ghost IsFor = { λ arrays search. IsFor arrays search.table };

    // Why: the branches of a `par` have one phase, in which nothing crosses.
    #[tactic(auto, using(crate::proofs::SiteLemmas::par_adds_nothing))]
    fn keep_par<'s>(
        &mut self,
        _layout: &Layout,
        _line: u32,
        _branches: &'s Blocks,
        _scope: &'s Scope<'s>,
    ) {}

    fn keep_team<'s>(
        &mut self,
        layout: &Layout,
        line: u32,
        phases: &'s Blocks,
        turns: &Turns<'s>,
        members: u64,
        scope: &'s Scope<'s>,
    ) {
        if self.found.is_none() {
            if let Some(cell) = crossing_in(
                self.alloc,
                layout,
                phases,
                *turns,
                members,
                scope,
                &mut self.table,
            ) {
                self.found = Some(PipeFault::Crossing { line, cell });
            }
        }
    }

    fn is_settled<'s>(
        &self,
        _layout: &Layout,
        _body: &'s Block,
        _turns: &Turns<'s>,
        _scope: &'s Scope<'s>,
    ) -> bool {
        false
    }
}
