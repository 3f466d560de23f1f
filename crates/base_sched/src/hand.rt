//! The base under a lock.
ghost use Rattle.std.specs.Prelude.{◌≡◌, IsOk};

use crate::base::{Base, BaseHeard};
use sched_api::{Next, Scheduler};
use std::marker::PhantomData;
use std::sync::{Mutex, Wait};

/// One hart's hand on a base that harts share. Its calls do what those of `Base` do, under the lock. Each may block.
pub struct BaseHand<'a, R> {
    lock: &'a Mutex<Base>,
    of: PhantomData<&'a R>,
}

impl<'a, R> Drop for BaseHand<'a, R> {
    fn drop(self) {
        let BaseHand { lock: _, of: _ } = self;
    }
}

impl<'a, R> BaseHand<'a, R> {
    /// A hand on the base under the lock. Does not block.
    pub fn new(lock: &'a Mutex<Base>) -> BaseHand<'a, R> {
        BaseHand {
            lock,
            of: PhantomData,
        }
    }
}

impl<'a, R: Wait + 'a> BaseHand<'a, R> {
    /// Removes all wishes of the base for good.
    pub fn shut(&self, rt: &R) {
        self.lock.lock(rt).shut();
    }

    /// Whether the base was shut.
    pub fn is_shut(&self, rt: &R) -> bool {
        self.lock.lock(rt).is_shut()
    }
}

impl<'a, R: Wait + 'a> Scheduler for BaseHand<'a, R> {
    type Hold = &'a R;

    type Heard = BaseHeard;

    type Ctx = ();

    ghost site_of = { λ _. 0 };

    // Why: contracts know only the type of the lock-protected base, so any result is possible.
    ghost answers = { λ _ _ _. Unit {0} };

    ghost hears = { λ _ _ _. Unit {0} };

    ghost takes = { λ _ _ answer _. IsOk answer };

    fn site(&self) -> u16 {
        0
    }

    fn register(&mut self, hold: &'a R, child: u16) -> BaseHeard {
        self.lock.lock(hold).register((), child)
    }

    fn unregister(&mut self, hold: &'a R, child: u16) -> BaseHeard {
        self.lock.lock(hold).unregister((), child)
    }

    fn request(&mut self, hold: &'a R, child: u16, count: u8) -> BaseHeard {
        self.lock.lock(hold).request((), child, count)
    }

    fn yielded(&mut self, hold: &'a R, child: u16) -> BaseHeard {
        self.lock.lock(hold).yielded((), child)
    }

    fn enter(&mut self, hold: &'a R) -> Next<()> {
        self.lock.lock(hold).enter(())
    }

    fn block(&mut self, hold: &'a R) -> BaseHeard {
        self.lock.lock(hold).block(())
    }

    fn unblock(&mut self, hold: &'a R, c: ()) -> Result<(), ()> {
        self.lock.lock(hold).unblock((), c)
    }
}
