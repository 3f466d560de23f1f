//! A hart's hand on the scheduler of one of its sites.
ghost use Rattle.std.specs.Prelude.{◌≡◌};
ghost use Rattle.hart_work.specs.Callbacks.{callback_with};
ghost use Rattle.hart_work.specs.Hands.{IsSameHand, Hears, Answers};

use crate::machines::Machines;
use crate::sites::Sites;
use sched_api::{Call, Heard, Next, Scheduler};
use std::marker::PhantomData;

/// What makes the receipts of this scheduler. Only this crate can make it.
#[derive(Drop)]
pub struct SiteSeal(());

/// The receipt of a callback of a site's scheduler.
pub type SiteHeard = Heard<SiteSeal>;

/// A hart's hand on the scheduler of one of its sites, for the calls that move the hart. Its calls may block.
pub struct At<'h, R, M, H, S> {
    pub rt: &'h R,
    pub sites: &'h mut H,
    pub site: &'h mut S,
    pub of: PhantomData<M>,
}

impl<'h, R, M, H, S> Drop for At<'h, R, M, H, S> {
    fn drop(self)
        ensures sites { self.exit.1.0.now ≡ self.entry.sites.now }
        ensures site { self.exit.1.1.0.now ≡ self.entry.site.now }
    {
        let At {
            rt: _,
            sites: _,
            site: _,
            of: _,
        } = self;
    }
}

impl<'h, R, M: Machines, H: Sites<R, M>> At<'h, R, M, H, H::Site> {
    /// A hand on this site. Does not block.
    pub fn new(rt: &'h R, sites: &'h mut H, site: &'h mut H::Site) -> At<'h, R, M, H, H::Site>
        ensures names { (result.sites.ghost_name ≡ sites.entry.ghost_name)
            × (result.site.ghost_name ≡ site.entry.ghost_name) }
        ensures lent { (result.sites.now ≡ sites.old) × (result.site.now ≡ site.old) }
    {
        At {
            rt,
            sites,
            site,
            of: PhantomData,
        }
    }

    // Makes the callback of the site's scheduler.
    fn hear(&mut self, call: Call, child: u16, count: u8) -> SiteHeard
        ensures told { result ≡ callback_with call child count }
        ensures hears { Hears H.hart_local H.facts H.hears self.old (callback_with call child count) self.new }
    {
        let rt = self.rt;
        let told = self.sites.hear(rt, &mut *self.site, call, child, count);
        Heard::new(SiteSeal(()), told.call, told.child, told.count)
    }
}

impl<'h, R, M: Machines, H: Sites<R, M>> Scheduler for At<'h, R, M, H, H::Site> {
    type Hold = ();

    type Heard = SiteHeard;

    type Ctx = M::Job;

    ghost use Rattle.hart_work.specs.Hands.{IsSameHand, Hears, Answers};

    ghost site_of = { λ at. H.facts.number at.site.now };

    ghost answers = { Answers H.hart_local H.facts M.fresh_job };

    ghost hears = { Hears H.hart_local H.facts H.hears };

    ghost takes = { λ before _ _ after. IsSameHand H.hart_local before after };

    fn site(&self) -> u16 {
        self.sites.number(&*self.site)
    }

    fn register(&mut self, _hold: (), child: u16) -> SiteHeard {
        self.hear(Call::Registered, child, 0)
    }

    fn unregister(&mut self, _hold: (), child: u16) -> SiteHeard {
        self.hear(Call::Unregistered, child, 0)
    }

    fn request(&mut self, _hold: (), child: u16, count: u8) -> SiteHeard {
        self.hear(Call::Requested, child, count)
    }

    fn yielded(&mut self, _hold: (), child: u16) -> SiteHeard {
        self.hear(Call::Yielded, child, 0)
    }

    fn enter(&mut self, _hold: ()) -> Next<M::Job> {
        let rt = self.rt;
        self.sites.next(rt, &mut *self.site)
    }

    fn block(&mut self, _hold: ()) -> SiteHeard {
        self.hear(Call::Blocked, 0, 0)
    }

    // Why an error: machines wait at no mutex, so no scheduler here has a place for such a context.
    fn unblock(&mut self, _hold: (), c: M::Job) -> Result<(), M::Job> {
        Err(c)
    }
}
