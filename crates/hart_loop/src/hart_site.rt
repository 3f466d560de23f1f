//! One site, as one of several harts has it.
ghost use Rattle.std.specs.Prelude.{◌≡◌, IfOk, IsSome, IfSome, None, Some, option_map};
ghost use Rattle.std.specs.Option.{ForSome};
ghost use Rattle.step_eval.specs.Nests.{NestedParts, nested_of, nested_writes};
ghost use Rattle.shared_sites.specs.References.{Fits, IsRefTo, site_at};
ghost use Rattle.shared_sites.specs.declared.scheduler_ref.SchedulerRef.TheVariants.{NoScheduler};
ghost use Rattle.shared_sites.specs.Completed.{IsCompleted};
ghost use Rattle.hart_loop.specs.Facts.{number_in};
ghost use Rattle.hart_loop.specs.Openings.{HasHand, IsOpened, kept_in};

use crate::in_directory::InDirectory;
use crate::opened::{publish, shared_site, written_by};
use crate::team_mode::TeamMode;
use array_eval::Overlay;
use base_sched::SharedBase;
use crossbeam_utils::Backoff;
use forkjoin_sched::PieceBatch;
use shared_sites::{Completed, HartLocal, SchedulerRef, SharedSite, SiteCell};
use std::alloc::{AllocError, Global};
use std::sync::Wait;
use step_eval::Nested;

/// The holder of a site's scheduler, for a hart.
#[derive(Drop)]
pub enum Placement<'a, S> {
    /// The base.
    Base(&'a SharedBase),
    /// The directory has it, for all harts.
    Published(&'a S),
    /// The hart has it by itself, since the directory didn't take it, or the hart's deque has too little room.
    Kept(Box<S>),
}

/// One site, as a hart has it.
pub struct HartSite<'a, 'p, S> {
    pub(crate) placement: Placement<'a, S>,
    // The construct, if this hart opened the site.
    pub(crate) opened: Option<Nested<'p>>,
    // The site's depth.
    pub(crate) level: u8,
    // The greatest number of actions that the hart may still get here. No run comes near its end.
    pub(crate) turns: u64,
    // The pauses between the tries to enter.
    pub(crate) backoff: Backoff,
    // The pieces of the site's pool that this hart made and hasn't handed over.
    pub(crate) batch: Option<PieceBatch<'p>>,
}

impl<'a, 'p, S: Drop> Drop for HartSite<'a, 'p, S> {
    fn drop(self) {
        let HartSite {
            placement: _,
            opened: _,
            level: _,
            turns: _,
            backoff: _,
            batch: _,
        } = self;
    }
}

impl<'a, 'p, S: InDirectory<'p>> HartSite<'a, 'p, S> {
    // A site from which the hart has got no task.
    fn new(
        placement: Placement<'a, S>,
        opened: Option<Nested<'p>>,
        level: u8,
    ) -> HartSite<'a, 'p, S>
        ensures placement { result.placement ≡ placement.entry }
        ensures opened { result.opened ≡ opened.entry }
    {
        HartSite {
            placement,
            opened,
            level,
            turns: u64::MAX,
            backoff: Backoff::new(),
            batch: None,
        }
    }

    /// The base.
    pub fn base(base: &'a SharedBase) -> HartSite<'a, 'p, S>
        ensures { IsOpened S.held result }
    {
        HartSite::new(Placement::Base(base), None, 0)
    }

    /// A site that another hart opened. `None` exactly if this hart has no hand on its scheduler.
    pub(crate) fn found(
        shared: &'a S,
        level: u8,
        hart_local: &HartLocal<'_>,
    ) -> Option<HartSite<'a, 'p, S>>
        ensures made { ForSome result (IsOpened S.held) }
        ensures number { ForSome result
            (λ site. number_in S.held site ≡ site_at (S.held shared.now)) }
        ensures hand { ForSome result
            (λ site. HasHand hart_local.now (S.held shared.now) level) }
        ensures none { result ≡ None → IsRefTo hart_local.now (S.held shared.now) level NoScheduler }
    {
        match hart_local.scheduler_ref(shared.shared(), level) {
            SchedulerRef::NoScheduler => None,
            SchedulerRef::Base(_)
            | SchedulerRef::Pool(_)
            | SchedulerRef::Team(_)
            | SchedulerRef::Pipe(_) => {
                Some(HartSite::new(Placement::Published(shared), None, level))
            }
        }
    }

    /// Makes a scheduler for the construct, and publishes it for all harts, unless there is no room for its pieces.
    pub(crate) fn open(
        alloc: Global,
        site_cells: &mut [SiteCell<'a, S>],
        hart_local: &HartLocal<'_>,
        team_mode: TeamMode,
        nested: &Nested<'p>,
    ) -> Result<HartSite<'a, 'p, S>, AllocError>
        ensures opened { IfOk result (λ site. site.opened ≡ Some nested.now) }
        ensures made { IfOk result (λ site. IsOpened S.held site) }
    {
        let level = hart_local.level(nested.site);
        let own = nested.copy()?;
        let shared = shared_site(alloc, hart_local.hart(), team_mode, nested)?;
        let shared = Box::new(alloc, S::put(shared))?;
        let placement = if hart_local.has_room(level, nested) {
            publish(site_cells, nested.site, shared)
        } else {
            Placement::Kept(shared)
        };
        Ok(HartSite::new(placement, Some(own), level))
    }

    // The scheduler of a site that isn't the base.
    fn shared(&self) -> Option<&SharedSite<'p>>
        ensures { option_map (λ shared. shared.now) result
            ≡ option_map S.held (kept_in self.now.placement) }
    {
        match &self.placement {
            Placement::Base(_) => None,
            Placement::Published(shared) => Some(shared.shared()),
            Placement::Kept(shared) => Some(shared.shared()),
        }
    }

    /// The site's number; 0 is the base.
    pub(crate) fn number(&self) -> u16
        ensures { result ≡ number_in S.held self.now }
    {
        match self.shared() {
            Some(shared) => shared.site(),
            None => 0,
        }
    }

    /// The reference to the site's scheduler.
    pub(crate) fn scheduler_ref<'x, 't>(
        &'x self,
        hart_local: &HartLocal<'t>,
    ) -> SchedulerRef<'x, 'p>
    where
        't: 'x,
        ensures { Fits hart_local.now result }
    {
        ref_in(&self.placement, self.level, hart_local)
    }

    /// The number of harts, besides its home, for which the site has work: 0 if no other hart finds it, or has a hand on it.
    pub(crate) fn wishes(&self, hart_local: &HartLocal<'_>) -> u8 {
        match (
            &self.placement,
            &self.opened,
            self.scheduler_ref(hart_local),
        ) {
            (_, _, SchedulerRef::NoScheduler) => 0,
            (Placement::Published(_), Some(nested), _) => nested.members() - 1,
            _ => 0,
        }
    }

    /// The writes of the construct of a site that this hart opened. They are the writes of all pieces, if the scheduler is
    /// handed out and has the jobs with which it was made; otherwise this hart computes them by itself. If an allocation failed
    /// for a piece, the result is that failure.
    pub(crate) fn take<R: Wait>(
        &self,
        rt: &R,
        alloc: Global,
        hart_local: &mut HartLocal<'_>,
    ) -> Result<Overlay, AllocError>
        requires opened { IsSome self.now.opened }
        requires made { IsOpened S.held self.now }
        ensures written { (nested : NestedParts) → self.now.opened ≡ Some nested → IfOk result
            (λ written. written.pairs ≡ nested_writes (nested_of nested)) }
        ensures hart_local { hart_local.new ≡ hart_local.old }
    {
        let completed = self.take_out(rt, hart_local)?;
        match (&self.opened, self.shared()) {
            (Some(nested), Some(shared)) => written_by(alloc, nested, shared, completed),
            (Some(_), None) => unreachable!(),
            (None, _) => unreachable!(),
        }
    }

    // The scheduler, if it is handed out. If an allocation failed for a piece of the site, the result is that failure; if the
    // hart has no hand, there was no piece.
    fn take_out<R: Wait>(
        &self,
        rt: &R,
        hart_local: &mut HartLocal<'_>,
    ) -> Result<Option<Completed<'p>>, AllocError>
        ensures completed { IfOk result (λ completed. IfSome completed IsCompleted) }
        ensures hart_local { hart_local.new ≡ hart_local.old }
    {
        let scheduler_ref = self.scheduler_ref(hart_local);
        let completed = hart_local.take_out(rt, scheduler_ref);
        let has_failed = match &completed {
            Some(completed) => completed.has_failed(),
            None => !matches!(scheduler_ref, SchedulerRef::NoScheduler)
                && hart_local.has_failed(rt, scheduler_ref),
        };
        if has_failed {
            Err(AllocError)
        } else {
            Ok(completed)
        }
    }
}

/// The reference to the scheduler of a site of this level.
pub(crate) fn ref_in<'x, 'a, 'p, 't, S: InDirectory<'p>>(
    placement: &'x Placement<'a, S>,
    level: u8,
    hart_local: &HartLocal<'t>,
) -> SchedulerRef<'x, 'p>
where
    't: 'x,
    ensures { Fits hart_local.now result }
{
    match placement {
        Placement::Base(base) => SchedulerRef::Base(base),
        Placement::Published(shared) => hart_local.scheduler_ref(shared.shared(), level),
        Placement::Kept(shared) => hart_local.scheduler_ref(shared.shared(), level),
    }
}
