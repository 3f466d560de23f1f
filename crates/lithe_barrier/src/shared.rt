//! The barrier under a lock.
ghost use Rattle.std.specs.Prelude.{◌≡◌};
ghost use Rattle.lithe_barrier.specs.Arrivals.{GivesBack};

use crate::state::{Arrival, BarrierState};
use array_jobs::Piece;
use std::sync::{Mutex, Wait};
use std::thread::Threads;

/// A barrier that harts share. A call holds the lock while it runs, and may block.
#[derive(Drop)]
pub struct LitheBarrier<'p> {
    lock: Mutex<BarrierState<'p>>,
}

impl<'p> LitheBarrier<'p> {
    /// The barrier with this state.
    pub fn new(state: BarrierState<'p>) -> LitheBarrier<'p> {
        LitheBarrier {
            lock: Mutex::new(state),
        }
    }

    /// Puts a piece into the slot of its job, under the lock, as `arrive` of `BarrierState` does. May block.
    pub fn arrive<R: Threads + Wait + Sync>(&self, rt: &R, piece: Piece<'p>) -> Arrival<'p>
        ensures { GivesBack piece.entry result }
    {
        self.lock.lock(rt).arrive(piece)
    }
}
