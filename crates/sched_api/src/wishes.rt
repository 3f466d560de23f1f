//! The wishes for harts that a scheduler hasn't met.
ghost use Rattle.std.specs.Prelude.{◌≡◌, ◌+◌, ◌≤◌, ◌++◌, ◌∷◌, ◌==◌, [], IfOk, IfSome, IfNone, length, replicate};
ghost use Rattle.std.specs.VecDeque.{deque_len, deque_capacity};
ghost use Rattle.sched_api.specs.Wishes.{with_wishes, without_child, no_wishes};

use std::alloc::{AllocError, Global};
use std::collections::VecDeque;
use std::marker::Model;

/// The wishes of a scheduler's children for harts, the oldest first: a child's site for each hart that the child requested and
/// didn't get. There is room for a fixed number of wishes.
#[derive(Drop)]
pub struct Wishes {
    sites: VecDeque<u16>,
    room: usize,
}

impl Model for Wishes {
    ghost use Rattle.std.specs.Prelude.{◌≤◌};
    ghost use Rattle.std.specs.VecDeque.{deque_len, deque_capacity};
    ghost use Rattle.sched_api.specs.Wishes.{WishList};

    ghost Value = { WishList };

    ghost view = { λ w. record { sites = w.sites.items; room = w.room } };

    ghost invariant = { λ w. (deque_len w.sites ≤ w.room) × (w.room ≤ deque_capacity w.sites) };
}

impl Wishes {
    /// An empty list of wishes, with room for `room` of them.
    ///
    /// # Errors
    ///
    /// `AllocError` if an allocation fails.
    ///
    /// # Memory
    ///
    /// It allocates the room. No other call allocates.
    pub fn new(alloc: Global, room: usize) -> Result<Wishes, AllocError>
        ensures { IfOk result (λ w. w ≡ record { sites = []; room = room }) }
    {
        Ok(Wishes {
            sites: VecDeque::with_capacity(alloc, room)?,
            room,
        })
    }

    /// Appends `count` wishes of the child. A wish beyond the room is dropped. Does not allocate.
    pub fn add(&mut self, child: u16, count: u8)
        ensures { self.new ≡ with_wishes self.old child count }
    {
        let fitting = (self.room - self.sites.len()).min(count as usize);
        push_times(&mut self.sites, child, fitting);
    }

    /// Takes the oldest wish, if there is one.
    pub fn take_oldest(&mut self) -> Option<u16>
        ensures some { IfSome result
            (λ site. self.old ≡ record self.new { sites = site ∷ self.new.sites }) }
        ensures none { IfNone result ((self.old.sites ≡ []) × (self.new ≡ self.old)) }
    {
        self.sites.pop_front()
    }

    /// Whether there is no wish.
    pub fn is_empty(&self) -> bool
        ensures { result ≡ (length self.now.sites == 0) }
    {
        self.sites.is_empty()
    }

    /// Removes all wishes of the child.
    pub fn remove(&mut self, child: u16)
        ensures { self.new ≡ without_child self.old child }
    {
        self.sites.retain(|site| *site != child);
    }

    /// Removes all wishes and the room.
    pub fn close(&mut self)
        ensures { self.new ≡ no_wishes }
    {
        self.sites.clear();
        self.room = 0;
    }
}

// Appends the site `times` times. There is room.
fn push_times(sites: &mut VecDeque<u16>, site: u16, times: usize)
    requires { deque_len sites.old + times ≤ deque_capacity sites.old }
    ensures items { sites.new.items ≡ sites.old.items ++ replicate times site }
    ensures len { deque_len sites.new ≡ deque_len sites.old + times }
    ensures capacity { deque_capacity sites.new ≡ deque_capacity sites.old }
{
    for done in 0..times {
        sites.push_back_reserved(site);
    }
}
