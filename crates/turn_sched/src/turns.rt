//! The scheduler of one thread.
ghost use Rattle.std.specs.Prelude.{◌≡◌, IfOk};
ghost use Rattle.turn_sched.specs.Turns.{TurnsState, new_turns, RunsOrLends, HearsOf, PutsLast};

use crate::ring::Ring;
use sched_api::{Call, Heard, Next, Scheduler};
use std::alloc::{AllocError, Global};
use std::collections::VecDeque;
use std::marker::Model;

/// What makes the receipts of this scheduler. Only this crate can make it.
#[derive(Drop)]
pub struct TurnsSeal(());

/// The receipt of a callback of this scheduler.
pub type TurnsHeard = Heard<TurnsSeal>;

// Only callbacks call this function.
fn heard(call: Call, child: u16, count: u8) -> TurnsHeard
    ensures { result ≡ record { call = call; child = child; count = count } }
{
    Heard::new(TurnsSeal(()), call, child, count)
}

/// A scheduler of contexts of any type. A hart that comes runs the first context. If there is none, the hart is lent to the
/// child whose turn it is.
#[derive(Drop)]
pub struct Turns<C> {
    site: u16,
    ready: VecDeque<C>,
    room: usize,
    ring: Ring,
}

impl<C> Model for Turns<C> {
    ghost use Rattle.std.specs.Prelude.{◌≤◌};
    ghost use Rattle.std.specs.VecDeque.{deque_len, deque_capacity};
    ghost use Rattle.turn_sched.specs.Turns.{TurnsState};

    ghost Value = { TurnsState C };

    ghost view = { λ t. record { site = t.site; ready = t.ready.items; room = t.room; ring = t.ring } };

    ghost invariant = { λ t. (deque_len t.ready ≤ t.room) × (t.room ≤ deque_capacity t.ready) };
}

impl<C: Drop> Turns<C> {
    /// A scheduler of the site, with memory for `room` contexts and for the places of `children` children.
    ///
    /// # Errors
    ///
    /// `AllocError` if an allocation fails.
    ///
    /// # Memory
    ///
    /// It allocates all room. No other call allocates.
    pub fn new(
        alloc: Global,
        site: u16,
        room: usize,
        children: usize,
    ) -> Result<Turns<C>, AllocError>
        ensures { IfOk result (λ t. t ≡ new_turns site room children) }
    {
        Ok(Turns {
            site,
            ready: VecDeque::with_capacity(alloc, room)?,
            room,
            ring: Ring::new(alloc, children)?,
        })
    }

    /// Puts a context last, either one that isn't begun or one that was paused.
    ///
    /// # Errors
    ///
    /// The context itself if all room is filled.
    pub fn put_last(&mut self, c: C) -> Result<(), C>
        ensures { PutsLast self.old c result self.new }
    {
        if self.ready.len() < self.room {
            self.ready.push_back_reserved(c);
            Ok(())
        } else {
            Err(c)
        }
    }
}

impl<C: Drop> Scheduler for Turns<C> {
    type Hold = ();

    type Heard = TurnsHeard;

    type Ctx = C;

    ghost site_of = { λ t. t.site };

    ghost answers = { λ before next after. RunsOrLends before next after };

    ghost hears = { λ before told after. HearsOf before told after };

    ghost takes = { λ before c answer after. PutsLast before c answer after };

    fn site(&self) -> u16 {
        self.site
    }

    fn register(&mut self, _hold: (), child: u16) -> TurnsHeard {
        heard(Call::Registered, child, 0)
    }

    fn unregister(&mut self, _hold: (), child: u16) -> TurnsHeard {
        self.ring.remove(child);
        heard(Call::Unregistered, child, 0)
    }

    fn request(&mut self, _hold: (), child: u16, count: u8) -> TurnsHeard {
        self.ring.add(child, count);
        heard(Call::Requested, child, count)
    }

    fn yielded(&mut self, _hold: (), child: u16) -> TurnsHeard {
        heard(Call::Yielded, child, 0)
    }

    fn enter(&mut self, _hold: ()) -> Next<C> {
        if let Some(c) = self.ready.pop_front() {
            return Next::Run(c);
        }
        match self.ring.take_turn() {
            Some(child) => Next::Lend(child),
            None => Next::Nothing,
        }
    }

    fn block(&mut self, _hold: ()) -> TurnsHeard {
        heard(Call::Blocked, 0, 0)
    }

    fn unblock(&mut self, _hold: (), c: C) -> Result<(), C> {
        self.put_last(c)
    }
}
