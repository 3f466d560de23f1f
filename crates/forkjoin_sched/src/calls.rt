//! The calls of a hart's hand on a pool.
ghost use Rattle.std.specs.Prelude.{◌≡◌, ◌≤◌, ◌+◌, length, IfSome, IfErr};
ghost use Rattle.deque_rows.specs.Rows.{home_log, row_room};
ghost use Rattle.join_book.specs.Books.{IsFull};
ghost use Rattle.forkjoin_sched.specs.Shared.{Receives};
ghost use Rattle.forkjoin_sched.specs.HandCalls.{AnswersHand, IsStill, Offers, TakesReadyBy, LooksBy, HandsOverBy};

use crate::batch::PieceBatch;
use crate::hand::PoolHand;
use crate::pieces::take_piece;
use crate::pool::{Pool, PoolHeard, PoolWork, heard};
use array_jobs::{Job, Piece};
use join_book::Deposit;
use sched_api::{Call, Next, Scheduler};
use std::sync::{Mutex, Wait};

impl<'a, 'r, 'p, R: Wait + 'a> PoolHand<'a, 'r, 'p, R> {
    /// Offers the jobs that aren't begun to all harts: pushes their job indices onto the home's deque, the last piece first.
    /// The hart must be the home, and its deque must have room for each job. Does not allocate.
    pub fn offer(&mut self, rt: &R)
        requires home { self.old.rows.now.hart ≡ self.old.home }
        requires room { length self.old.shared.now.jobs
            + length (home_log self.old.rows.now self.old.level).pushed
            ≤ row_room self.old.rows.now self.old.level }
        ensures { Offers self.old self.new }
    {
        let site = self.shared.site();
        let mut kept = self.shared.locked(rt);
        let slots = self.shared.slots();
        self.looks
            .offer(rt, &mut kept, slots, self.rows, site, self.level);
    }

    /// Puts a piece into the slot of its job, under the pool's lock. May block.
    ///
    /// If no slot has the piece's job, or the pool was handed out, it returns the piece as a `Stranger`.
    ///
    /// It compares the piece's job with the copy beside the lock, before it takes the lock. Why the pool then keeps the piece
    /// with the piece's own job: a lock's type states nothing about what is beside the lock. So the home compares all jobs of a
    /// pool that it takes out.
    pub fn deposit(&self, rt: &R, piece: Piece<'p>) -> Deposit<'p>
        ensures { Receives self.now.shared.now piece.entry result }
    {
        if !self.shared.has_job(&piece.job) {
            return Deposit::Stranger(piece);
        }
        match self.shared.locked(rt).as_mut() {
            Some(pool) => {
                let deposit = pool.put(piece);
                self.shared.show_full(pool);
                deposit
            }
            None => Deposit::Stranger(piece),
        }
    }

    /// Puts all pieces of a batch into the pool under one lock, the last first, each as `put` of the pool does. May block.
    ///
    /// If the pool was handed out, it drops them.
    pub fn hand_over(&mut self, rt: &R, batch: &mut PieceBatch<'p>)
        ensures { HandsOverBy self.old batch.old self.new batch.new }
    {
        let mut kept = self.shared.locked(rt);
        self.looks.hand_over(&mut kept, batch);
        if let Some(pool) = kept.as_ref() {
            self.shared.show_full(pool);
        }
    }

    /// Marks the slot at index `place` as failed, under the pool's lock: an allocation failed for its piece. May block.
    ///
    /// It does nothing if the slot doesn't exist, if it is filled or failed, or if the pool was handed out.
    pub fn fail(&self, rt: &R, place: u8) {
        if let Some(pool) = self.shared.locked(rt).as_mut() {
            if pool.is_open(place) {
                pool.fail(place);
                self.shared.show_full(pool);
            }
        }
    }

    /// Whether every slot of the pool is filled or failed. A pool that was handed out counts as full. It takes the lock only if
    /// the flag beside the lock shows a full pool.
    pub fn is_full(&self, rt: &R) -> bool {
        if !self.shared.shows_full() {
            return false;
        }
        match self.shared.locked(rt).as_ref() {
            Some(pool) => pool.is_full(),
            None => true,
        }
    }

    /// Whether some slot is failed; false if the pool was handed out.
    pub fn has_failed(&self, rt: &R) -> bool {
        match self.shared.locked(rt).as_ref() {
            Some(pool) => pool.has_failed(),
            None => false,
        }
    }

    /// Hands the pool out, once. `None` exactly if it was handed out before, or isn't full; nothing changes then.
    pub fn take_out(&self, rt: &R) -> Option<Pool<'p>>
        ensures { IfSome result (λ pool. IsFull pool.book) }
    {
        let mut kept = self.shared.locked(rt);
        match kept.as_ref() {
            Some(pool) if pool.is_full() => {}
            Some(_) => return None,
            None => return None,
        }
        let pool = kept.take();
        clear(rt, self.shared.slots());
        pool
    }
}

impl<'a, 'r, 'p, R: Wait + 'a> Scheduler for PoolHand<'a, 'r, 'p, R> {
    type Hold = &'a R;

    type Heard = PoolHeard;

    type Ctx = PoolWork<'p>;

    ghost site_of = { λ hand. hand.shared.now.site };

    // Why: contracts know of the lock-protected pool only what a look found.
    ghost answers = { λ before next after. AnswersHand before next after };

    ghost hears = { λ before _ after. IsStill before after };

    ghost takes = { λ before c answer after. IsStill before after × IfErr answer (λ back. back ≡ c) };

    fn site(&self) -> u16 {
        self.shared.site()
    }

    fn register(&mut self, _hold: &'a R, child: u16) -> PoolHeard {
        heard(Call::Registered, child, 0)
    }

    fn unregister(&mut self, hold: &'a R, child: u16) -> PoolHeard {
        match self.shared.locked(hold).as_mut() {
            Some(pool) => pool.unregister((), child),
            None => heard(Call::Unregistered, child, 0),
        }
    }

    fn request(&mut self, hold: &'a R, child: u16, count: u8) -> PoolHeard {
        match self.shared.locked(hold).as_mut() {
            Some(pool) => pool.request((), child, count),
            None => heard(Call::Requested, child, count),
        }
    }

    fn yielded(&mut self, _hold: &'a R, child: u16) -> PoolHeard {
        heard(Call::Yielded, child, 0)
    }

    fn enter(&mut self, hold: &'a R) -> Next<PoolWork<'p>> {
        if let Some(work) = self.take_ready(hold) {
            return Next::Run(work);
        }
        match take_piece(hold, self.shared, self.rows, self.home, self.level) {
            Some(job) => Next::Run(PoolWork::Begin(job)),
            None => self.look(hold),
        }
    }

    fn block(&mut self, _hold: &'a R) -> PoolHeard {
        heard(Call::Blocked, 0, 0)
    }

    fn unblock(&mut self, hold: &'a R, c: PoolWork<'p>) -> Result<(), PoolWork<'p>> {
        match self.shared.locked(hold).as_mut() {
            Some(pool) => {
                let answer = pool.unblock((), c);
                self.shared.show_ready(pool);
                answer
            }
            None => Err(c),
        }
    }
}

impl<'a, 'r, 'p, R: Wait + 'a> PoolHand<'a, 'r, 'p, R> {
    // A ready context, if the pool shows one beside its lock.
    fn take_ready(&mut self, rt: &R) -> Option<PoolWork<'p>>
        ensures { TakesReadyBy self.old result self.new }
    {
        if !self.shared.has_ready() {
            return None;
        }
        let mut kept = self.shared.locked(rt);
        let ready = self.looks.take_ready(&mut kept);
        if let Some(pool) = kept.as_ref() {
            self.shared.show_ready(pool);
        }
        ready
    }

    // The pool's action for the hart, under the lock. A pool that no home offered hands out its jobs here.
    fn look(&mut self, rt: &R) -> Next<PoolWork<'p>>
        ensures { LooksBy self.old result self.new }
    {
        let mut kept = self.shared.locked(rt);
        let next = self.looks.enter(&mut kept);
        if let Some(pool) = kept.as_ref() {
            self.shared.show_ready(pool);
        }
        next
    }
}

// Drops the contents of the slots.
fn clear<R: Wait>(rt: &R, slots: &[Mutex<Option<Job>>]) {
    for slot in slots {
        let _ = slot.lock(rt).take();
    }
}
