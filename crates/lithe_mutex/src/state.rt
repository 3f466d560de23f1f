//! The mutex with one owner.
ghost use Rattle.std.specs.Prelude.{◌≡◌, ◌↔◌, IsTrue, IfOk, Some, None, option_map};
ghost use Rattle.lithe_mutex.specs.Mutex.{Free, CanAcquire, IsHeld, Acquires, Releases, value_in};

use std::alloc::{AllocError, Global};
use std::collections::VecDeque;
use std::marker::Model;

/// The result of `acquire`.
#[derive(Debug, PartialEq, Eq, Drop)]
pub enum Acquired<T, C> {
    /// The mutex was free: its value, and the context that holds it now.
    Got(T, C),
    /// The mutex was held, and keeps the context until its turn.
    Kept,
}

/// The result of `release`.
#[derive(Debug, PartialEq, Eq, Drop)]
pub enum Released<T, C> {
    /// No context waited. The mutex is free.
    Free,
    /// The value, and the context that waited longest and holds the mutex now.
    Handed(T, C),
}

/// A mutex over a `T`. Contexts of type `C` wait in the order of arrival, at most `room` at a time.
///
/// Contracts see a mutex as free with its value, or held with the waiting contexts; no state has both.
#[derive(Drop)]
pub struct MutexState<T, C> {
    value: Option<T>,
    waiting: VecDeque<C>,
    room: usize,
}

impl<T, C> Model for MutexState<T, C> {
    ghost use Rattle.std.specs.Prelude.{◌≡◌, ◌≤◌, [], IsSome};
    ghost use Rattle.std.specs.VecDeque.{deque_capacity};
    ghost use Rattle.lithe_mutex.specs.Mutex.{MutexParts, possession_of};

    ghost Value = { MutexParts T C };

    ghost view = { λ m. record { possession = possession_of m.value m.waiting.items; room = m.room } };

    ghost invariant = { λ m. (m.room ≤ deque_capacity m.waiting)
        × (IsSome m.value → m.waiting.items ≡ []) };
}

impl<T: Drop, C> MutexState<T, C> {
    /// A free mutex with this value, and room for `room` waiting contexts.
    ///
    /// # Errors
    ///
    /// `AllocError` if the allocation fails.
    ///
    /// # Memory
    ///
    /// It allocates the whole room. No other call allocates.
    pub fn new(alloc: Global, room: usize, value: T) -> Result<MutexState<T, C>, AllocError>
        ensures { IfOk result (λ mutex. mutex ≡ record { possession = Free value; room = room }) }
    {
        Ok(MutexState {
            waiting: VecDeque::with_capacity(alloc, room)?,
            value: Some(value),
            room,
        })
    }

    /// The precondition of `acquire`: the mutex is free, or fewer contexts wait than it has room for.
    pub fn can_acquire(&self) -> bool
        ensures { IsTrue result ↔ CanAcquire self.now.possession self.now.room }
    {
        self.value.is_some() || self.waiting.len() < self.room
    }

    /// The precondition of `release`: the mutex is held.
    pub fn is_held(&self) -> bool
        ensures { IsTrue result ↔ IsHeld self.now.possession }
    {
        self.value.is_none()
    }

    /// Returns the value of a free mutex with `c`, or keeps `c` behind the contexts that wait. Precondition: `can_acquire`.
    pub fn acquire(&mut self, c: C) -> Acquired<T, C>
        requires { CanAcquire self.old.possession self.old.room }
        ensures does { Acquires self.old.possession c result self.new.possession }
        ensures room { self.new.room ≡ self.old.room }
    {
        match self.value.take() {
            Some(value) => Acquired::Got(value, c),
            None => {
                self.waiting.push_back_reserved(c);
                Acquired::Kept
            }
        }
    }

    /// Returns the holder's value with the context that waited longest, or frees the mutex if none waits. Precondition:
    /// `is_held`.
    pub fn release(&mut self, value: T) -> Released<T, C>
        requires { IsHeld self.old.possession }
        ensures does { Releases self.old.possession value result self.new.possession }
        ensures room { self.new.room ≡ self.old.room }
    {
        match self.waiting.pop_front() {
            Some(first) => Released::Handed(value, first),
            None => {
                self.value = Some(value);
                Released::Free
            }
        }
    }

    /// The value of a free mutex; `None` exactly if it is held.
    pub fn value(&self) -> Option<&T>
        ensures { option_map (λ value. value.now) result ≡ value_in self.now.possession }
    {
        self.value.as_ref()
    }
}
