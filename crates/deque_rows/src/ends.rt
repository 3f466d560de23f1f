//! The ends of one deque.
ghost use Rattle.std.specs.Prelude.{◌≡◌, ◌<◌, ◌≤◌, ◌+◌, ◌-◌, ◌^◌, ◌⊎◌, [], ◌∷◌, ◌++◌, List, ℕ, true, false, length, MatchOption, IfOk, ⊤};
ghost use Rattle.crossbeam_deque.specs.Handles.{view, IsPassOf, worker_deque, worker_flavor, worker_capacity, worker_index, stealer_deque, stealer_flavor, worker_view};
ghost use Rattle.deque_rows.specs.Account.{blank, after_push, after_steal, joined, Pops, HeldAtMost, Determines};

use crate::account::{Account, AllPassesBack, Log, Popped, Pushed, Share, Stole};
use crossbeam_deque::{Pass, Steal, Stealer, Worker};
use std::alloc::{AllocError, Global};
use std::sync::Wait;

/// The home's end of a deque.
#[derive(Drop)]
pub struct HomeEnd {
    pub(crate) worker: Worker<u32, Global, Log, Account>,
    // How many indices the deque takes in all.
    pub(crate) made: u32,
    // How many further indices it takes.
    pub(crate) room: u32,
    pub ghost lifo: { worker_flavor worker ≡ 1 },
    pub ghost home: { (worker_view worker).is_home ≡ true },
    pub ghost has_part: { 0 < (worker_view worker).parts },
    pub ghost room_left: { room + length (worker_view worker).pushed ≡ made },
    pub ghost behind: { worker_index worker ≤ length (worker_view worker).pushed },
    pub ghost wide: { made ≤ worker_capacity worker },
}

impl HomeEnd {
    /// The end of a new deque, which takes so many indices in all.
    pub(crate) fn new(alloc: Global, room: u32) -> Result<HomeEnd, AllocError>
        ensures log { IfOk result (λ h. worker_view h.worker ≡ blank 64 true) }
        ensures made { IfOk result (λ h. h.made ≡ room) }
    {
        Ok(HomeEnd {
            worker: Worker::lifo_as(alloc, room as usize)?,
            made: room,
            room,
        })
    }

    /// Pushes an index last.
    pub(crate) fn push(&mut self, code: u32)
        requires { length (worker_view self.old.worker).pushed < self.old.made }
        ensures pushed { worker_view self.new.worker
            ≡ after_push (worker_view self.old.worker) (code ∷ []) }
        ensures same { worker_deque self.new.worker ≡ worker_deque self.old.worker }
        ensures made { self.new.made ≡ self.old.made }
    {
        match self.worker.push_as::<Pushed>(code) {
            Ok(()) => self.room -= 1,
            Err(_) => unreachable!(),
        }
    }

    /// A further stealing end, with a part of the home's.
    pub(crate) fn another(&mut self) -> Result<StealingEnd, AllocError>
        requires { 1 < (worker_view self.old.worker).parts }
        ensures cut { IfOk result
            (λ end. worker_view self.new.worker ≡ record (worker_view self.old.worker) {
              parts = (worker_view self.old.worker).parts - 1;
            }) }
        ensures blank { IfOk result (λ end. view end.pass ≡ blank 1 false) }
        ensures of { IfOk result (λ end. stealer_deque end.stealer ≡ worker_deque self.old.worker) }
        ensures same { worker_deque self.new.worker ≡ worker_deque self.old.worker }
        ensures made { self.new.made ≡ self.old.made }
    {
        let stealer = self.worker.stealer()?;
        let pass = self.worker.another::<Share>();
        Ok(StealingEnd { stealer, pass })
    }

    /// Takes a stealing end back.
    pub(crate) fn absorb(&mut self, end: StealingEnd)
        requires { stealer_deque end.stealer ≡ worker_deque self.old.worker }
        ensures joined { worker_view self.new.worker
            ≡ joined (worker_view self.old.worker) (view end.pass) }
        ensures same { worker_deque self.new.worker ≡ worker_deque self.old.worker }
        ensures made { self.new.made ≡ self.old.made }
    {
        let StealingEnd { stealer: _, pass } = end;
        self.worker.absorb::<Share>(pass);
    }

    /// Looks at the deque, when all stealing ends are back.
    pub(crate) fn look(&mut self)
        requires { (worker_view self.old.worker).parts ≡ 64 }
        ensures determines { (items : List ℕ) × Determines (worker_view self.old.worker) items }
        ensures view { worker_view self.new.worker ≡ worker_view self.old.worker }
        ensures same { worker_deque self.new.worker ≡ worker_deque self.old.worker }
        ensures made { self.new.made ≡ self.old.made }
    {
        self.worker.len_as::<AllPassesBack>();
    }

    /// Pops the last index.
    pub(crate) fn pop(&mut self) -> Option<u32>
        ensures none { MatchOption result
            ((worker_view self.new.worker ≡ worker_view self.old.worker)
            × HeldAtMost 0 (worker_view self.old.worker)) (λ code. ⊤) }
        ensures took { MatchOption result ⊤
            (λ code. Pops (worker_view self.old.worker) (code ∷ []) (worker_view self.new.worker)) }
        ensures same { worker_deque self.new.worker ≡ worker_deque self.old.worker }
        ensures made { self.new.made ≡ self.old.made }
    {
        self.worker.pop_as::<Popped>()
    }
}

/// A stealing end of a deque, with its pass.
#[derive(Drop)]
pub struct StealingEnd {
    pub(crate) stealer: Stealer<u32, Global, Log, Account>,
    pub(crate) pass: Pass<u32, Log>,
    pub ghost fits: { IsPassOf (stealer_deque stealer) pass },
    pub ghost has_part: { 0 < (view pass).parts },
    pub ghost lifo: { stealer_flavor stealer ≡ 1 },
}

impl StealingEnd {
    /// Steals the first index.
    pub(crate) fn steal<R: Wait>(&mut self, rt: &R) -> Option<u32>
        ensures none { MatchOption result ((view self.new.pass ≡ view self.old.pass)
            × HeldAtMost 1 (view self.old.pass)) (λ code. ⊤) }
        ensures took { MatchOption result ⊤
            (λ code. view self.new.pass ≡ after_steal (view self.old.pass) (code ∷ [])) }
        ensures same { stealer_deque self.new.stealer ≡ stealer_deque self.old.stealer }
    {
        'tries: for _ in rt.forever() {
            match self.stealer.steal_as::<Stole>(&mut self.pass) {
                Steal::Success(code) => return Some(code),
                Steal::Empty => return None,
                Steal::Retry => {}
            }
        }
        unreachable!()
    }
}
