//! The lock of a scheduler that harts share.

use crossbeam_utils::Backoff;
use std::sync::{Mutex, MutexGuard, Wait};

// The number of tries before a hart sleeps.
const TRIES: u32 = 200;

/// Takes the lock of a scheduler. May block.
///
/// It tries a bounded number of times, and yields the processor in between, before it sleeps at the lock. Why: a hart holds such
/// a lock for less time than a thread takes to fall asleep and be woken.
pub fn take_lock<'m, T, R: Wait>(lock: &'m Mutex<T>, rt: &R) -> MutexGuard<'m, T> {
    let backoff = Backoff::new();
    for _ in 0..TRIES {
        if let Some(guard) = lock.try_lock() {
            return guard;
        }
        backoff.snooze();
    }
    lock.lock(rt)
}
