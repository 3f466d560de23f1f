//! What a hart does with its deques.
ghost use Rattle.std.specs.Prelude.{◌≡◌, ℕ, ◌+◌, ◌-◌, ◌*◌, ◌<◌, ◌≤◌, length, slice_set, slice_index};
ghost use Rattle.deque_rows.specs.Account.{Rose};
ghost use Rattle.deque_rows.specs.Rows.{IsLevel, place, row_room, home_log, home_logs, pass_logs, bares, identity};
ghost use Rattle.deque_rows.specs.Calls.{Pushes, PopGives, StealGives, WasBare};

use crate::hart::HartRows;
use crate::stolen::Stolen;
use std::sync::Wait;

/// The index of a hart's deque of a level among all deques, which are numbered consecutively, three for each hart.
fn place(hart: u8, level: u8) -> usize
    requires { 1 ≤ level }
    ensures { result ≡ place hart level }
{
    3 * usize::from(hart) + usize::from(level) - 1
}

impl HartRows {
    /// The hart whose deques these are, which is its index in the list that `rows` returned.
    pub fn hart(&self) -> u8
        ensures { result ≡ self.now.hart }
    {
        self.hart
    }

    /// The number of further indices that this hart's deque of this level, 1 to 3, takes: its room when it was made, less the
    /// number of pushes.
    pub fn room(&self, level: u8) -> u32
        requires { IsLevel level }
        ensures { result + length (home_log self.now level).pushed ≡ row_room self.now level }
    {
        self.own[usize::from(level) - 1].room
    }

    /// Pushes a job index last onto this hart's deque of this level, which has room. Does not allocate.
    pub fn push(&mut self, level: u8, code: u32)
        requires level { IsLevel level }
        requires room { length (home_log self.old level).pushed < row_room self.old level }
        ensures identity { identity self.new ≡ identity self.old }
        ensures pushes { Pushes self.old level code self.new }
        ensures room { length (home_log self.new level).pushed
            ≡ length (home_log self.old level).pushed + 1 }
    {
        self.own[usize::from(level) - 1].push(code);
    }

    /// Pops the last job index of this hart's deque of this level. Returns `None` only if the deque was empty at a moment of
    /// this call.
    pub fn pop(&mut self, level: u8) -> Option<u32>
        requires level { IsLevel level }
        ensures identity { identity self.new ≡ identity self.old }
        ensures gives { PopGives self.old level result self.new }
    {
        let popped = self.own[usize::from(level) - 1].pop();
        if popped.is_none() {
            self.note_bare(place(self.hart, level));
        }
        popped
    }

    /// Steals the first job index of a hart's deque of a level, also of the hart's own. Returns `Empty` only if the deque held
    /// at most one index at a moment of this call. It retries if another hart came in between, so it may block.
    pub fn steal<R: Wait>(&mut self, rt: &R, hart: u8, level: u8) -> Stolen
        requires level { IsLevel level }
        requires hart { hart < self.old.harts }
        ensures identity { identity self.new ≡ identity self.old }
        ensures gives { StealGives self.old hart level result self.new }
    {
        let row = place(hart, level);
        match self.ends[row].steal(rt) {
            Some(code) => Stolen::Code(code),
            None => {
                self.note_bare(row);
                Stolen::Empty
            }
        }
    }

    // Raises the counter of empty looks at this deque. Why: an empty pop or steal changes no log of the kit's deque, so each
    // hart has a counter for each deque. What the deque reports then is about this hart's knowledge, so the prover would accept
    // a body that always returns Empty and raises the counter. Tests show that indices are found.
    fn note_bare(&mut self, row: usize)
        requires row { row < length self.old.bare.items }
        requires bare { WasBare self.old row }
        ensures identity { identity self.new ≡ identity self.old }
        ensures same { (home_logs self.new ≡ home_logs self.old)
            × (pass_logs self.new ≡ pass_logs self.old) }
        ensures rose { (n : ℕ) × Rose (slice_index (bares self.old) row) n
            × (bares self.new ≡ slice_set (bares self.old) row n) }
    {
        self.bare[row] = self.bare[row].saturating_add(1);
    }
}
