//! The sites, as one of several harts has them.
ghost use Rattle.std.specs.Prelude.{◌≡◌};
ghost use Rattle.hart_loop.specs.Facts.{hart_facts};

use crate::hart_site::{HartSite, ref_in};
use crate::in_directory::InDirectory;
use crate::team_mode::TeamMode;
use crate::turns::take_turn;
use array_eval::Overlay;
use array_jobs::{Job, Piece};
use array_tree::Block;
use hart_work::Sites;
use job_machines::JobMachines;
use sched_api::{Call, Next, Told};
use shared_sites::{HartLocal, SiteCell};
use std::alloc::{AllocError, Global};
use std::marker::PhantomData;
use std::sync::Wait;
use step_eval::Nested;

/// The schedulers of the sites, as one of several harts has them. They are lock-protected, so contracts know only the type of
/// their results.
#[derive(Drop)]
pub struct HartSites<'a, 'p, S> {
    site_cells: Vec<SiteCell<'a, S>>,
    hart_local: HartLocal<'a>,
    team_mode: TeamMode,
    of: PhantomData<&'p Block>,
}

impl<'a, 'p, S> HartSites<'a, 'p, S> {
    /// The schedulers of a hart, by its views of the cells of all sites, its hart-local state, and the way in which members go on.
    pub fn new(
        site_cells: Vec<SiteCell<'a, S>>,
        hart_local: HartLocal<'a>,
        team_mode: TeamMode,
    ) -> HartSites<'a, 'p, S>
        ensures { result.hart_local ≡ hart_local.entry }
    {
        HartSites {
            site_cells,
            hart_local,
            team_mode,
            of: PhantomData,
        }
    }

    /// The hart-local state.
    pub fn into_hart_local(self) -> HartLocal<'a>
        ensures { result ≡ self.entry.hart_local }
    {
        let HartSites {
            site_cells: _,
            hart_local,
            team_mode: _,
            of: _,
        } = self;
        hart_local
    }
}

impl<'a, 'p, S: InDirectory<'p>, R: Wait> Sites<R, JobMachines<'p>> for HartSites<'a, 'p, S> {
    ghost use Rattle.hart_loop.specs.Facts.{hart_facts};

    type Site = HartSite<'a, 'p, S>;

    // Only contracts use this type. They don't depend on its lifetime.
    type HartLocal = HartLocal<'static>;

    ghost hart_local = { λ s. s.hart_local };

    // Why: others share the table, so the hart keeps no account of its entries for sites.
    ghost keeps = { ⊥ };

    ghost facts = { hart_facts S.held };

    // Why no more: contracts know only the type of lock-protected state.
    ghost hears = { λ _ _ _. Unit {0} };

    fn open(
        &mut self,
        alloc: Global,
        nested: &Nested<'p>,
    ) -> Result<HartSite<'a, 'p, S>, AllocError> {
        HartSite::open(
            alloc,
            self.site_cells.as_mut_slice(),
            &self.hart_local,
            self.team_mode,
            nested,
        )
    }

    fn wishes(&self, site: &HartSite<'a, 'p, S>) -> u8 {
        site.wishes(&self.hart_local)
    }

    /// Blocks until the site is in the directory. `None` if the directory has the scheduler of another site there, or this hart
    /// has no hand on the scheduler. A hart that finds no site doesn't try to enter it.
    fn find(&mut self, rt: &R, number: u16) -> Option<HartSite<'a, 'p, S>> {
        let cell = self.site_cells.get_mut(usize::from(number))?;
        let shared = cell.until_found(rt);
        if shared.shared().site() != number {
            return None;
        }
        HartSite::found(shared, self.hart_local.level(number), &self.hart_local)
    }

    fn number(&self, site: &HartSite<'a, 'p, S>) -> u16 {
        site.number()
    }

    fn hear(
        &mut self,
        rt: &R,
        site: &mut HartSite<'a, 'p, S>,
        call: Call,
        child: u16,
        count: u8,
    ) -> Told {
        let scheduler_ref = site.scheduler_ref(&self.hart_local);
        self.hart_local.hear(rt, scheduler_ref, call, child, count)
    }

    /// Blocks if there is nothing to do and the hart stays.
    fn next(&mut self, rt: &R, site: &mut HartSite<'a, 'p, S>) -> Next<Job<'p>> {
        take_turn(rt, &mut site.turns);
        let is_home = site.opened.is_some();
        let scheduler_ref = ref_in(&site.placement, site.level, &self.hart_local);
        let batch = &mut site.batch;
        self.hart_local.next(rt, scheduler_ref, batch, is_home)
    }

    fn tries_again(&mut self, rt: &R, site: &mut HartSite<'a, 'p, S>) -> bool {
        take_turn(rt, &mut site.turns);
        site.backoff.spin();
        true
    }

    fn offer(&mut self, rt: &R, site: &HartSite<'a, 'p, S>) {
        let scheduler_ref = site.scheduler_ref(&self.hart_local);
        self.hart_local.offer(rt, scheduler_ref);
    }

    fn deposit(&mut self, rt: &R, alloc: Global, site: &mut HartSite<'a, 'p, S>, piece: Piece<'p>) {
        let scheduler_ref = ref_in(&site.placement, site.level, &self.hart_local);
        let batch = &mut site.batch;
        // Why no error: the piece isn't lost if an allocation failed. A team then is failed.
        let _ = self
            .hart_local
            .deposit(rt, alloc, scheduler_ref, batch, piece);
    }

    fn fail(&mut self, rt: &R, site: &mut HartSite<'a, 'p, S>, phase: u8, place: u8) {
        let scheduler_ref = site.scheduler_ref(&self.hart_local);
        self.hart_local.fail(rt, scheduler_ref, phase, place);
    }

    fn has_failed(&mut self, rt: &R, site: &HartSite<'a, 'p, S>) -> bool {
        let scheduler_ref = site.scheduler_ref(&self.hart_local);
        self.hart_local.has_failed(rt, scheduler_ref)
    }

    fn take(
        &mut self,
        rt: &R,
        alloc: Global,
        site: HartSite<'a, 'p, S>,
    ) -> Result<Overlay, AllocError> {
        site.take(rt, alloc, &mut self.hart_local)
    }
}
