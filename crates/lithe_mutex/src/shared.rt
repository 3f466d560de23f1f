//! The mutex under a lock.
ghost use Rattle.std.specs.Prelude.{◌≡◌};
ghost use Rattle.lithe_mutex.specs.Shared.{AnswersTo, ReturnsFrom};

use crate::state::{Acquired, MutexState, Released};
use std::sync::{Mutex, Wait};
use std::thread::Threads;

/// The result of a call on a shared mutex.
#[derive(Debug, PartialEq, Eq, Drop)]
pub enum Reply<A, B> {
    /// The call was made.
    Did(A),
    /// The mutex is held, and its room for waiting contexts is full. It has the argument. Only `acquire` returns it.
    NoRoom(B),
    /// The mutex is free. It has the argument. Only `release` returns it.
    NotHeld(B),
}

/// A mutex that harts share. Each call holds an internal lock and may block on it. Contracts know only the type of what the
/// lock protects.
#[derive(Drop)]
pub struct LitheMutex<T, C> {
    lock: Mutex<MutexState<T, C>>,
}

impl<T: Drop, C> LitheMutex<T, C> {
    /// A shared mutex in this state. Does not allocate.
    pub fn new(state: MutexState<T, C>) -> LitheMutex<T, C> {
        LitheMutex {
            lock: Mutex::new(state),
        }
    }

    /// Calls `MutexState::acquire` under the lock. Returns `NoRoom` with `c` if the mutex is held and its room is full.
    pub fn acquire<R: Threads + Wait + Sync>(&self, rt: &R, c: C) -> Reply<Acquired<T, C>, C>
        ensures { AnswersTo c result }
    {
        let mut state = self.lock.lock(rt);
        if !state.can_acquire() {
            return Reply::NoRoom(c);
        }
        Reply::Did(state.acquire(c))
    }

    /// Calls `MutexState::release` under the lock. Returns `NotHeld` with `value` if the mutex is free.
    pub fn release<R: Threads + Wait + Sync>(&self, rt: &R, value: T) -> Reply<Released<T, C>, T>
        ensures { ReturnsFrom value result }
    {
        let mut state = self.lock.lock(rt);
        if !state.is_held() {
            return Reply::NotHeld(value);
        }
        Reply::Did(state.release(value))
    }
}
