//! The base as the harts of a run share it.
ghost use Rattle.std.specs.Prelude.{IsOk};

use crate::base::{Base, BaseHeard, heard};
use crossbeam_utils::{Backoff, CachePadded};
use sched_api::{Call, Next, Scheduler};
use std::marker::PhantomData;
use std::sync::atomic::{AtomicBool, Ordering};
use std::sync::{Mutex, Wait};

/// The number of loads of `is_asked` before an idle hart takes a wish: some 10 µs.
///
/// Why: a small site completes before a guest could reach it. A hart that enters such a site makes its home wait, and finds no
/// work.
const LOOKS: usize = 24;

/// A base that harts share, under a lock. Two atomic flags stand beside the lock, for idle harts, which load them repeatedly:
/// whether the base was shut, and whether it may have a wish.
#[derive(Drop)]
pub struct SharedBase {
    lock: Mutex<Base>,
    // Whether the base was shut. Changed only under the lock.
    is_shut: CachePadded<AtomicBool>,
    // False only while the base has no wish. Changed only under the lock.
    is_asked: CachePadded<AtomicBool>,
}

impl SharedBase {
    /// Puts the base under a lock.
    pub fn new(base: Base) -> SharedBase {
        let is_shut = base.is_shut();
        SharedBase {
            lock: Mutex::new(base),
            is_shut: CachePadded::new(AtomicBool::new(is_shut)),
            is_asked: CachePadded::new(AtomicBool::new(true)),
        }
    }

    /// Removes all wishes of the base for good. May block.
    pub fn shut<R: Wait>(&self, rt: &R) {
        let mut base = self.lock.lock(rt);
        base.shut();
        self.is_shut.store(true, Ordering::SeqCst);
    }

    /// Whether the base was shut. Does not block.
    pub fn is_shut(&self) -> bool {
        self.is_shut.load(Ordering::SeqCst)
    }

    // Whether `is_asked` stays true for some 10 µs.
    fn stays_asked(&self) -> bool {
        let backoff = Backoff::new();
        for _ in 0..LOOKS {
            if !self.is_asked.load(Ordering::SeqCst) {
                return false;
            }
            backoff.snooze();
        }
        true
    }

    // Takes the oldest wish, if there is one.
    fn take_wish<R: Wait>(&self, rt: &R) -> Next<()> {
        let mut base = self.lock.lock(rt);
        let next = base.enter(());
        self.note_wishes(&base);
        next
    }

    // Sets `is_asked` by the base's wishes. The caller holds the lock.
    fn note_wishes(&self, base: &Base) {
        if base.has_no_wish() {
            self.is_asked.store(false, Ordering::SeqCst);
        }
    }
}

/// One hart's hand on a base that harts share. Its calls do what those of `Base` do. `request` and `unregister` take the lock.
/// `enter` takes a wish, and the lock, only if `is_asked` stays true for some 10 µs. The other calls don't block.
pub struct SharedBaseHand<'a, R> {
    shared: &'a SharedBase,
    of: PhantomData<&'a R>,
}

impl<'a, R> Drop for SharedBaseHand<'a, R> {
    fn drop(self) {
        let SharedBaseHand { shared: _, of: _ } = self;
    }
}

impl<'a, R> SharedBaseHand<'a, R> {
    /// A hand on the base. Does not block.
    pub fn new(shared: &'a SharedBase) -> SharedBaseHand<'a, R> {
        SharedBaseHand {
            shared,
            of: PhantomData,
        }
    }
}

impl<'a, R: Wait + 'a> Scheduler for SharedBaseHand<'a, R> {
    type Hold = &'a R;

    type Heard = BaseHeard;

    type Ctx = ();

    ghost site_of = { λ _. 0 };

    // Why: contracts know only the type of the lock-protected base, so any result is possible.
    ghost answers = { λ _ _ _. Unit {0} };

    ghost hears = { λ _ _ _. Unit {0} };

    ghost takes = { λ _ _ answer _. IsOk answer };

    fn site(&self) -> u16 {
        0
    }

    fn register(&mut self, _hold: &'a R, child: u16) -> BaseHeard {
        heard(Call::Registered, child, 0)
    }

    fn unregister(&mut self, hold: &'a R, child: u16) -> BaseHeard {
        let shared = self.shared;
        let mut base = shared.lock.lock(hold);
        let heard = base.unregister((), child);
        shared.note_wishes(&base);
        heard
    }

    fn request(&mut self, hold: &'a R, child: u16, count: u8) -> BaseHeard {
        let shared = self.shared;
        let mut base = shared.lock.lock(hold);
        let heard = base.request((), child, count);
        shared.is_asked.store(true, Ordering::SeqCst);
        heard
    }

    fn yielded(&mut self, _hold: &'a R, child: u16) -> BaseHeard {
        heard(Call::Yielded, child, 0)
    }

    fn enter(&mut self, hold: &'a R) -> Next<()> {
        let shared = self.shared;
        if shared.stays_asked() {
            shared.take_wish(hold)
        } else {
            Next::Nothing
        }
    }

    fn block(&mut self, _hold: &'a R) -> BaseHeard {
        heard(Call::Blocked, 0, 0)
    }

    /// Drops the value: the base has no ready list.
    fn unblock(&mut self, _hold: &'a R, _c: ()) -> Result<(), ()> {
        Ok(())
    }
}
