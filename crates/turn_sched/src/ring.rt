//! The ring of the children that wish for harts.
ghost use Rattle.std.specs.Prelude.{◌≡◌, ◌≤◌, false, [], IfOk, IfSome, IfNone};
ghost use Rattle.std.specs.VecDeque.{deque_len, deque_capacity};
ghost use Rattle.turn_sched.specs.Ring.{has_place, with_more, with_wishes, without_child, TakesTurn};

use std::alloc::{AllocError, Global};
use std::collections::VecDeque;
use std::marker::Model;

/// A child's place in the ring, with the number of its unmet wishes.
#[derive(Clone, Copy, Debug, PartialEq, Eq)]
pub struct Place {
    pub child: u16,
    pub wishes: u8,
}

/// A place for each child with unmet wishes. The first is the child whose turn it is.
#[derive(Drop)]
pub struct Ring {
    places: VecDeque<Place>,
    room: usize,
}

impl Model for Ring {
    ghost use Rattle.std.specs.Prelude.{◌≤◌};
    ghost use Rattle.std.specs.VecDeque.{deque_len, deque_capacity};
    ghost use Rattle.turn_sched.specs.Ring.{RingParts};

    ghost Value = { RingParts };

    ghost view = { λ r. record { places = r.places.items; room = r.room } };

    ghost invariant = { λ r. (deque_len r.places ≤ r.room) × (r.room ≤ deque_capacity r.places) };
}

impl Ring {
    /// An empty ring, with room for `room` places.
    ///
    /// # Errors
    ///
    /// `AllocError` if an allocation fails.
    ///
    /// # Memory
    ///
    /// It allocates the room. No other call allocates.
    pub fn new(alloc: Global, room: usize) -> Result<Ring, AllocError>
        ensures { IfOk result (λ r. r ≡ record { places = []; room = room }) }
    {
        Ok(Ring {
            places: VecDeque::with_capacity(alloc, room)?,
            room,
        })
    }

    /// Adds wishes to the child's place. A child without a place gets the last one, if there is room.
    pub fn add(&mut self, child: u16, count: u8)
        ensures { self.new ≡ with_wishes child count self.old }
    {
        if count == 0 || add_to_place(&mut self.places, child, count) {
            return;
        }
        if self.places.len() < self.room {
            self.places.push_back_reserved(Place {
                child,
                wishes: count,
            });
        }
    }

    /// Takes a wish of the child whose turn it is. The child goes last if it has wishes left.
    pub fn take_turn(&mut self) -> Option<u16>
        ensures some { IfSome result (λ child. TakesTurn self.old.places child self.new.places) }
        ensures none { IfNone result ((self.old.places ≡ []) × (self.new.places ≡ [])) }
        ensures room { self.new.room ≡ self.old.room }
    {
        let Place { child, wishes } = self.places.pop_front()?;
        if wishes > 1 {
            let left = Place {
                child,
                wishes: wishes - 1,
            };
            self.places.push_back_reserved(left);
        }
        Some(child)
    }

    /// Removes the child's place.
    pub fn remove(&mut self, child: u16)
        ensures { self.new ≡ without_child child self.old }
    {
        self.places.retain(|place| place.child != child);
    }
}

// Adds wishes to the child's place. Returns whether it has one.
fn add_to_place(places: &mut VecDeque<Place>, child: u16, count: u8) -> bool
    ensures has { result ≡ has_place child places.old.items }
    ensures items { places.new.items ≡ with_more child count places.old.items }
    ensures none { result ≡ false → places.new.items ≡ places.old.items }
    ensures len { deque_len places.new ≡ deque_len places.old }
    ensures capacity { deque_capacity places.new ≡ deque_capacity places.old }
{
    for at in 0..places.len() {
        let place = places[at];
        if place.child == child {
            let wishes = place.wishes.saturating_add(count);
            places[at] = Place { child, wishes };
            return true;
        }
    }
    false
}
