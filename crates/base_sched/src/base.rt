//! The base of one thread.
ghost use Rattle.std.specs.Prelude.{◌≡◌, ◌*◌, ◌==◌, [], IsOk, IfOk, length, true, false};
ghost use Rattle.sched_api.specs.Calls.{registered_told, unregistered_told, requested_told, yielded_told, blocked_told};
ghost use Rattle.sched_api.specs.Wishes.{with_wishes, without_child};
ghost use Rattle.base_sched.specs.Oldest.{BaseState, shut_base, LendsOldest, HearsOf};

use sched_api::{Call, Heard, Next, Scheduler, Wishes};
use std::alloc::{AllocError, Global};
use std::marker::Model;

/// The room for wishes at each site.
const WISHES_PER_SITE: usize = 15;

/// What makes the receipts of the base. Only this crate can make it.
#[derive(Drop)]
pub struct BaseSeal(());

/// The receipt of a callback of the base.
pub type BaseHeard = Heard<BaseSeal>;

// Only callbacks call this function.
pub(crate) fn heard(call: Call, child: u16, count: u8) -> BaseHeard
    ensures { result ≡ record { call = call; child = child; count = count } }
{
    Heard::new(BaseSeal(()), call, child, count)
}

/// The scheduler of site 0. It keeps the wishes of the top sites, and has no contexts.
#[derive(Drop)]
pub struct Base {
    wishes: Wishes,
    is_shut: bool,
}

impl Model for Base {
    ghost use Rattle.base_sched.specs.Oldest.{BaseState};

    ghost Value = { BaseState };

    ghost view = { λ b. record { wishes = b.wishes; is_shut = b.is_shut } };
}

impl Base {
    /// A base without a wish, and with room for 15 wishes at each of `sites` sites.
    ///
    /// # Errors
    ///
    /// `AllocError` if an allocation fails.
    ///
    /// # Memory
    ///
    /// It allocates the room for wishes. No other call allocates.
    pub fn new(alloc: Global, sites: u16) -> Result<Base, AllocError>
        ensures { IfOk result (λ b. b ≡ record {
          wishes = record { sites = []; room = 15 * sites };
          is_shut = false;
        }) }
    {
        Ok(Base {
            wishes: Wishes::new(alloc, WISHES_PER_SITE * sites as usize)?,
            is_shut: false,
        })
    }

    /// Removes all wishes for good: from then on there is no room for any.
    pub fn shut(&mut self)
        ensures { self.new ≡ shut_base }
    {
        self.wishes.close();
        self.is_shut = true;
    }

    /// Whether it has no wish, so that `enter` returns `Nothing`.
    pub fn has_no_wish(&self) -> bool
        ensures { result ≡ (length self.now.wishes.sites == 0) }
    {
        self.wishes.is_empty()
    }

    /// Whether it was shut.
    pub fn is_shut(&self) -> bool
        ensures { result ≡ self.now.is_shut }
    {
        self.is_shut
    }
}

impl Scheduler for Base {
    type Hold = ();

    type Heard = BaseHeard;

    type Ctx = ();

    ghost site_of = { λ _. 0 };

    ghost answers = { λ before next after. LendsOldest before next after };

    ghost hears = { λ before told after. HearsOf before told after };

    ghost takes = { λ before _ answer after. IsOk answer × (after ≡ before) };

    fn site(&self) -> u16 {
        0
    }

    fn register(&mut self, _hold: (), child: u16) -> BaseHeard
        ensures told { result ≡ registered_told child }
        ensures same { self.new ≡ self.old }
    {
        heard(Call::Registered, child, 0)
    }

    fn unregister(&mut self, _hold: (), child: u16) -> BaseHeard
        ensures told { result ≡ unregistered_told child }
        ensures wishes { self.new ≡ record self.old {
          wishes = without_child self.old.wishes child;
        } }
    {
        self.wishes.remove(child);
        heard(Call::Unregistered, child, 0)
    }

    fn request(&mut self, _hold: (), child: u16, count: u8) -> BaseHeard
        ensures told { result ≡ requested_told child count }
        ensures wishes { self.new ≡ record self.old {
          wishes = with_wishes self.old.wishes child count;
        } }
    {
        self.wishes.add(child, count);
        heard(Call::Requested, child, count)
    }

    fn yielded(&mut self, _hold: (), child: u16) -> BaseHeard
        ensures told { result ≡ yielded_told child }
        ensures same { self.new ≡ self.old }
    {
        heard(Call::Yielded, child, 0)
    }

    fn enter(&mut self, _hold: ()) -> Next<()> {
        match self.wishes.take_oldest() {
            Some(site) => Next::Lend(site),
            None => Next::Nothing,
        }
    }

    fn block(&mut self, _hold: ()) -> BaseHeard
        ensures told { result ≡ blocked_told }
        ensures same { self.new ≡ self.old }
    {
        heard(Call::Blocked, 0, 0)
    }

    /// Drops the value: the base has no ready list.
    fn unblock(&mut self, _hold: (), _c: ()) -> Result<(), ()>
        ensures done { IsOk result }
        ensures same { self.new ≡ self.old }
    {
        Ok(())
    }
}
