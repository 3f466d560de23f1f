//! A hart's hand on a pool that harts share.
ghost use Rattle.std.specs.Prelude.{◌≡◌, ◌<◌};
ghost use Rattle.deque_rows.specs.Rows.{IsLevel};

use crate::looks::Looks;
use crate::shared::SharedPool;
use deque_rows::HartRows;
use std::marker::PhantomData;

/// One hart's hand on a shared pool, and on the deque of the pool's home. Its calls do what those of `Pool` do, under the lock.
/// Each may block, except `site` and the callbacks that change no list. Jobs that were offered come by their job indices,
/// without the lock. Once the pool is handed out, `enter` returns `Nothing` and `unblock` returns its context.
pub struct PoolHand<'a, 'r, 'p, R> {
    /// This hart's access to the deques.
    pub rows: &'r mut HartRows,
    /// The pool.
    pub shared: &'a SharedPool<'p>,
    /// The hart that published the pool. Its deque has the job indices of the pool.
    pub home: u8,
    /// The level of that deque.
    pub level: u8,
    /// The looks of this hand under the lock.
    pub looks: Looks,
    /// The runtime on which it blocks.
    pub of: PhantomData<R>,
    pub ghost is_level: { IsLevel level },
    pub ghost reaches: { home < rows.now.harts },
}

impl<'a, 'r, 'p, R> Drop for PoolHand<'a, 'r, 'p, R> {
    fn drop(self)
        ensures { self.exit.0.now ≡ self.entry.rows.now }
    {
        let PoolHand {
            rows: _,
            shared: _,
            home: _,
            level: _,
            looks: _,
            of: _,
        } = self;
    }
}

impl<'a, 'r, 'p, R> PoolHand<'a, 'r, 'p, R> {
    /// A hand on the pool whose job indices are in the deque of this home and level. Does not block.
    pub fn new(
        shared: &'a SharedPool<'p>,
        rows: &'r mut HartRows,
        home: u8,
        level: u8,
    ) -> PoolHand<'a, 'r, 'p, R>
        requires row { IsLevel level × (home < rows.old.harts) }
        ensures shared { result.shared ≡ shared.entry }
        ensures rows { result.rows.now ≡ rows.old }
        ensures name { result.rows.ghost_name ≡ rows.entry.ghost_name }
        ensures row { (result.home ≡ home) × (result.level ≡ level) }
    {
        PoolHand {
            rows,
            shared,
            home,
            level,
            looks: Looks::new(),
            of: PhantomData,
        }
    }
}
