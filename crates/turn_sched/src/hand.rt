//! The scheduler of several harts.
ghost use Rattle.std.specs.Prelude.{◌≡◌, IfErr};

use crate::turns::{Turns, TurnsHeard};
use sched_api::{Next, Scheduler};
use std::marker::PhantomData;
use std::sync::{Mutex, Wait};

/// A `Turns` that harts share. Why its site is beside the lock: no call changes it.
#[derive(Drop)]
pub struct SharedTurns<C> {
    site: u16,
    lock: Mutex<Turns<C>>,
}

impl<C: Drop> SharedTurns<C> {
    /// Puts the scheduler under a lock.
    pub fn new(turns: Turns<C>) -> SharedTurns<C>
        ensures { result.site ≡ turns.site }
    {
        SharedTurns {
            site: turns.site(),
            lock: Mutex::new(turns),
        }
    }
}

/// One hart's hand on a shared `Turns`. Its calls do what those of `Turns` do, under the lock. Each but `site` may block.
pub struct TurnsHand<'a, C, R> {
    site: u16,
    lock: &'a Mutex<Turns<C>>,
    of: PhantomData<&'a R>,
}

impl<'a, C, R> Drop for TurnsHand<'a, C, R> {
    fn drop(self) {
        let TurnsHand {
            site: _,
            lock: _,
            of: _,
        } = self;
    }
}

impl<'a, C, R> TurnsHand<'a, C, R> {
    /// A hand on the scheduler. Does not block.
    pub fn new(shared: &'a SharedTurns<C>) -> TurnsHand<'a, C, R>
        ensures { result.site ≡ shared.now.site }
    {
        TurnsHand {
            site: shared.site,
            lock: &shared.lock,
            of: PhantomData,
        }
    }
}

impl<'a, C: Drop + 'a, R: Wait + 'a> TurnsHand<'a, C, R> {
    /// Puts a context last, under the scheduler's lock: one that isn't begun, or one that was paused. May block.
    ///
    /// # Errors
    ///
    /// The context itself if all room is filled.
    pub fn put_last(&self, rt: &R, c: C) -> Result<(), C>
        ensures { IfErr result (λ back. back ≡ c) }
    {
        self.lock.lock(rt).put_last(c)
    }
}

impl<'a, C: Drop + 'a, R: Wait + 'a> Scheduler for TurnsHand<'a, C, R> {
    type Hold = &'a R;

    type Heard = TurnsHeard;

    type Ctx = C;

    ghost site_of = { λ hand. hand.site };

    // Why: contracts know only the type of the lock-protected scheduler, so any result is possible.
    ghost answers = { λ _ _ _. Unit {0} };

    ghost hears = { λ _ _ _. Unit {0} };

    ghost takes = { λ _ c answer _. IfErr answer (λ back. back ≡ c) };

    fn site(&self) -> u16 {
        self.site
    }

    fn register(&mut self, hold: &'a R, child: u16) -> TurnsHeard {
        self.lock.lock(hold).register((), child)
    }

    fn unregister(&mut self, hold: &'a R, child: u16) -> TurnsHeard {
        self.lock.lock(hold).unregister((), child)
    }

    fn request(&mut self, hold: &'a R, child: u16, count: u8) -> TurnsHeard {
        self.lock.lock(hold).request((), child, count)
    }

    fn yielded(&mut self, hold: &'a R, child: u16) -> TurnsHeard {
        self.lock.lock(hold).yielded((), child)
    }

    fn enter(&mut self, hold: &'a R) -> Next<C> {
        self.lock.lock(hold).enter(())
    }

    fn block(&mut self, hold: &'a R) -> TurnsHeard {
        self.lock.lock(hold).block(())
    }

    fn unblock(&mut self, hold: &'a R, c: C) -> Result<(), C> {
        self.lock.lock(hold).unblock((), c)
    }
}
