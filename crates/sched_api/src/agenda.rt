//! Agendas.
ghost use Rattle.std.specs.Prelude.{◌≡◌, ◌*◌, [], length, IfOk};
ghost use Rattle.std.specs.VecDeque.{deque_len};
ghost use Rattle.sched_api.specs.Wishes.{with_wishes, without_child};
ghost use Rattle.sched_api.specs.Agenda.{TakesNext, PutsReady, GivesReady, GivesUnbegun, IsLastUnbegun, GivesLast};

use crate::scheduler::Next;
use crate::wishes::Wishes;
use std::alloc::{AllocError, Global};
use std::collections::VecDeque;
use std::marker::Model;

/// The room for wishes of a construct's scheduler: fifteen for each site that a plan may have.
pub const MOST_WISHES: usize = 61_425;

/// What a scheduler has for the harts that come to it: contexts that are ready to go on, contexts that are not begun,
/// and the wishes of its children. They are handed out in this order, of each list the oldest first.
#[derive(Drop)]
pub struct Agenda<C> {
    ready: VecDeque<C>,
    room: usize,
    unbegun: VecDeque<C>,
    wishes: Wishes,
}

impl<C> Model for Agenda<C> {
    ghost use Rattle.std.specs.Prelude.{◌≤◌};
    ghost use Rattle.std.specs.VecDeque.{deque_len, deque_capacity};
    ghost use Rattle.sched_api.specs.Agenda.{AgendaParts};

    ghost Value = { AgendaParts C };

    ghost view = { λ a. record { ready = a.ready.items; room = a.room; unbegun = a.unbegun.items; wishes = a.wishes } };

    ghost invariant = { λ a. (deque_len a.ready ≤ a.room) × (a.room ≤ deque_capacity a.ready) };
}

impl<C: Drop> Agenda<C> {
    /// An agenda of contexts that are not begun, with memory for `room` ready contexts and for `wishes` wishes.
    ///
    /// # Errors
    ///
    /// `AllocError` if an allocation fails.
    ///
    /// # Memory
    ///
    /// It allocates the room for contexts and wishes. No other call allocates.
    pub fn new(
        alloc: Global,
        room: usize,
        wishes: usize,
        unbegun: VecDeque<C>,
    ) -> Result<Agenda<C>, AllocError>
        ensures { IfOk result (λ a. a ≡ record {
          ready = [];
          room = room;
          unbegun = unbegun.items;
          wishes = record { sites = []; room = wishes };
        }) }
    {
        Ok(Agenda {
            ready: VecDeque::with_capacity(alloc, room)?,
            room,
            unbegun,
            wishes: Wishes::new(alloc, wishes)?,
        })
    }

    /// The next action of a hart, which is removed.
    pub fn take_next(&mut self) -> Next<C>
        ensures { TakesNext self.old result self.new }
    {
        if let Some(c) = self.ready.pop_front() {
            return Next::Run(c);
        }
        if let Some(c) = self.unbegun.pop_front() {
            return Next::Run(c);
        }
        match self.wishes.take_oldest() {
            Some(site) => Next::Lend(site),
            None => Next::Nothing,
        }
    }

    /// How many contexts are ready.
    pub fn ready_count(&self) -> usize
        ensures { result ≡ length self.now.ready }
    {
        self.ready.len()
    }

    /// Takes the first context that is ready, if there is one.
    pub fn take_ready(&mut self) -> Option<C>
        ensures { GivesReady self.old result self.new }
    {
        self.ready.pop_front()
    }

    /// Takes the first context that isn't begun, if there is one, even if contexts are ready.
    pub fn take_unbegun(&mut self) -> Option<C>
        ensures { GivesUnbegun self.old result self.new }
    {
        self.unbegun.pop_front()
    }

    /// The last of the contexts that are not begun, if there is one.
    pub fn last_unbegun(&self) -> Option<&C>
        ensures { IsLastUnbegun self.now result }
    {
        self.unbegun.back()
    }

    /// Takes the last of the contexts that are not begun, if there is one.
    pub fn take_last(&mut self) -> Option<C>
        ensures { GivesLast self.old result self.new }
    {
        self.unbegun.pop_back()
    }

    /// Puts a context last among the ready ones.
    ///
    /// # Errors
    ///
    /// The context itself if all room is filled.
    pub fn put_ready(&mut self, c: C) -> Result<(), C>
        ensures { PutsReady self.old c result self.new }
    {
        if self.ready.len() < self.room {
            self.ready.push_back_reserved(c);
            Ok(())
        } else {
            Err(c)
        }
    }

    /// Replaces the contexts that aren't begun by these.
    pub fn begin(&mut self, unbegun: VecDeque<C>)
        ensures { self.new ≡ record self.old { unbegun = unbegun.items } }
    {
        self.unbegun = unbegun;
    }

    /// Adds `count` wishes of a child, as far as there is room.
    pub fn add_wishes(&mut self, child: u16, count: u8)
        ensures { self.new ≡ record self.old { wishes = with_wishes self.old.wishes child count } }
    {
        self.wishes.add(child, count);
    }

    /// Removes all wishes of a child.
    pub fn remove_wishes(&mut self, child: u16)
        ensures { self.new ≡ record self.old { wishes = without_child self.old.wishes child } }
    {
        self.wishes.remove(child);
    }
}
