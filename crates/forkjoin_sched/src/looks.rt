//! The looks of a hand under the lock of its pool.
ghost use Rattle.std.specs.Prelude.{◌≡◌, ◌+◌, ◌≤◌, ℕ, List, length, MatchOption};
ghost use Rattle.deque_rows.specs.Rows.{IsLevel, home_log, row_room};
ghost use Rattle.forkjoin_sched.specs.declared.looks.Found.TheVariants.{HandedOut, Work};
ghost use Rattle.forkjoin_sched.specs.Batches.{emptied};
ghost use Rattle.forkjoin_sched.specs.Hands.{Sees, found_by, put_by, AnswersUnder, GivesReadyUnder, OffersUnder, HandsOverUnder};

use crate::batch::PieceBatch;
use crate::offering::offer_jobs;
use crate::pool::{Pool, PoolWork};
use array_jobs::Job;
use deque_rows::HartRows;
use sched_api::{Next, Scheduler};
use std::sync::{Mutex, Wait};

/// The result of a look under the lock of a pool.
#[derive(Clone, Copy, Debug, PartialEq, Drop)]
pub enum Found {
    /// The pool was handed out before.
    HandedOut,
    /// No ready context, no job to begin, and no wish of a child.
    NoneLeft,
    /// The pool had work for the hart, or accepted the hart's action.
    Work,
    /// So many pieces of a batch were put into the pool.
    Put(usize),
}

/// The number of looks of a hand under the lock of its pool, and the result of the last one. Only a look changes it.
#[derive(Drop)]
pub struct Looks {
    count: u64,
    last: Option<Found>,
}

impl Looks {
    /// No look.
    pub(crate) fn new() -> Looks {
        Looks {
            count: 0,
            last: None,
        }
    }

    // One more look, with this result.
    fn note(&mut self, found: Found)
        ensures { Sees self.old found self.new }
    {
        self.count = self.count.saturating_add(1);
        self.last = Some(found);
    }

    /// The pool's action for a hart.
    pub(crate) fn enter<'p>(&mut self, kept: &mut Option<Pool<'p>>) -> Next<PoolWork<'p>>
        ensures sees { Sees self.old (found_by kept.old result) self.new }
        ensures answers { AnswersUnder kept.old result kept.new }
    {
        let Some(pool) = kept else {
            self.note(Found::HandedOut);
            return Next::Nothing;
        };
        let next = pool.enter(());
        match next {
            Next::Nothing => self.note(Found::NoneLeft),
            _ => self.note(Found::Work),
        }
        next
    }

    /// The first ready context, if there is one.
    pub(crate) fn take_ready<'p>(&mut self, kept: &mut Option<Pool<'p>>) -> Option<PoolWork<'p>>
        ensures sees { MatchOption result (self.new ≡ self.old)
            (λ work. Sees self.old Work self.new) }
        ensures gives { GivesReadyUnder kept.old result kept.new }
    {
        let Some(pool) = kept else { return None };
        let ready = pool.take_ready();
        if ready.is_some() {
            self.note(Found::Work);
        }
        ready
    }

    /// Moves the jobs that aren't begun into their slots, and pushes the job index of each, the last piece first.
    pub(crate) fn offer<'p, R: Wait>(
        &mut self,
        rt: &R,
        kept: &mut Option<Pool<'p>>,
        slots: &[Mutex<Option<Job<'p>>>],
        rows: &mut HartRows,
        site: u16,
        level: u8,
    )
        requires level { IsLevel level }
        requires room { length slots.now + length (home_log rows.old level).pushed
            ≤ row_room rows.old level }
        ensures { OffersUnder site level (length slots.now) (self.old, kept.old, rows.old)
            (self.new, kept.new, rows.new) }
    {
        let Some(pool) = kept else {
            self.note(Found::HandedOut);
            return;
        };
        offer_jobs(rt, pool, slots, rows, site, level);
        self.note(Found::Work);
    }

    /// Puts all pieces of a batch into the pool, the last first, each as `put` of the pool does. If the pool was handed out, it
    /// drops them.
    pub(crate) fn hand_over<'p>(&mut self, kept: &mut Option<Pool<'p>>, batch: &mut PieceBatch<'p>)
        ensures sees { Sees self.old (put_by kept.old (length batch.old.pieces)) self.new }
        ensures batch { batch.new ≡ emptied batch.old }
        ensures puts { HandsOverUnder batch.old kept.old kept.new }
    {
        let Some(pool) = kept else {
            batch.clear();
            self.note(Found::HandedOut);
            return;
        };
        let count = batch.len();
        batch.put_into(pool);
        self.note(Found::Put(count));
    }
}
