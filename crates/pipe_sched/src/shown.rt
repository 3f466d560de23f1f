//! The state that a shared pipe shows beside its lock.
use crate::pipe::{Pipe, PipeWork};
use crossbeam_utils::Backoff;
use sched_api::Next;
use std::sync::atomic::{AtomicBool, AtomicU64, Ordering};

/// The state that a pipe showed at the end of the last call under the lock. It changes under the lock, except `coming`. It only
/// saves looks under the lock: no contract depends on it.
#[derive(Drop)]
pub struct Shown {
    // An upper bound of the number of harts for which the pipe has something: ready contexts, due pieces, and wishes.
    offers: AtomicU64,
    // The number of the staying harts that are on their way to the lock.
    coming: AtomicU64,
    // Whether the pipe is full, or was handed out.
    full: AtomicBool,
}

impl Shown {
    // The state of this pipe. At most one piece of each member is due.
    pub(crate) fn new(pipe: &Pipe) -> Shown {
        Shown {
            offers: AtomicU64::new(u64::from(pipe.nested().members())),
            coming: AtomicU64::new(0),
            full: AtomicBool::new(pipe.is_full()),
        }
    }

    // Whether the pipe is shown as full, or as handed out.
    pub(crate) fn is_full(&self) -> bool {
        self.full.load(Ordering::SeqCst)
    }

    // Shows whether the lock-protected pipe is full.
    pub(crate) fn show_full(&self, kept: &Option<Pipe>) {
        if let Some(pipe) = kept {
            self.full.store(pipe.is_full(), Ordering::SeqCst);
        }
    }

    // Shows that the lock-protected pipe has something for `count` more harts.
    pub(crate) fn add_offers(&self, count: u8) {
        let _ = self.offers.fetch_add(u64::from(count), Ordering::SeqCst);
    }

    // Shows the pieces that became due when the piece of this member in this phase was filled.
    pub(crate) fn show_filled(&self, kept: &Option<Pipe>, member: u8, phase: u8) {
        if let Some(pipe) = kept {
            self.add_offers(pipe.count_due_after(member, phase));
        }
        self.show_full(kept);
    }

    // Shows that a hart got this action under the lock. Pieces may have failed there.
    pub(crate) fn show_given(&self, kept: &Option<Pipe>, next: &Next<PipeWork>) {
        let offers = match next {
            Next::Nothing => 0,
            _ => self.offers.load(Ordering::SeqCst).saturating_sub(1),
        };
        self.offers.store(offers, Ordering::SeqCst);
        self.show_full(kept);
    }

    // Snoozes, at most `snoozes` times, until the pipe shows more than the harts on their way take. Then this hart is on its
    // way, and the result is the number of snoozes left. `None` if the snoozes run out, and immediately if the pipe is full or
    // was handed out.
    pub(crate) fn stay(&self, snoozes: u32) -> Option<u32> {
        let backoff = Backoff::new();
        for left in (0..snoozes).rev() {
            if self.is_full() {
                return None;
            }
            if self.set_out() {
                return Some(left);
            }
            backoff.snooze();
        }
        None
    }

    // Puts this hart on its way to the lock, if the pipe shows more than the harts on their way take.
    fn set_out(&self) -> bool {
        if self.offers.load(Ordering::SeqCst) <= self.coming.load(Ordering::SeqCst) {
            return false;
        }
        if self.coming.fetch_add(1, Ordering::SeqCst) < self.offers.load(Ordering::SeqCst) {
            return true;
        }
        self.arrive();
        false
    }

    // A hart that was on its way has looked under the lock.
    pub(crate) fn arrive(&self) {
        let _ = self.coming.fetch_sub(1, Ordering::SeqCst);
    }
}
