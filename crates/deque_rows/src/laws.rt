//! The account of deques when all harts are back.
ghost use Rattle.std.specs.Prelude.{◌≡◌, ℕ, ◌*◌, ◌<◌, ◌≤◌, List, length, map, slice_index_or, vec_len};
ghost use Rattle.deque_rows.specs.Account.{Determines, joined};
ghost use Rattle.deque_rows.specs.Rows.{RowName, AreAll, AreSettled, identity, home_logs, home_names, pass_logs, row_at, owner_log, stolen_by};
ghost use Rattle.deque_rows.specs.Lines.{standing, end_log, end_name, gathered};

use crate::ends::StealingEnd;
use crate::hart::HartRows;
use crate::lines::{give_back, look};
use std::mem;

/// Settles the account of all deques, for all values of one call of `rows`, in their order: each pushed index was popped or
/// stolen once or remains, and those that remain are in the order of the pushes. Does not allocate.
pub fn settle(mut rows: Vec<HartRows>)
    requires all { AreAll (map identity rows.items) }
    ensures settled { AreSettled rows.items }
{
    settle_all(rows.as_mut_slice());
}

impl HartRows {
    // Its stealing ends. It reaches no deque from here on.
    fn take_ends(&mut self) -> Vec<StealingEnd>
        ensures ends { result ≡ self.old.ends }
        ensures logs { home_logs self.new ≡ home_logs self.old }
        ensures names { home_names self.new ≡ home_names self.old }
    {
        self.harts = 0;
        let none = Vec::new(*self.ends.allocator());
        mem::replace(&mut self.ends, none)
    }
}

// Returns all stealing ends, and looks at each deque.
fn settle_all(rows: &mut [HartRows])
    requires { AreAll (map identity rows.old) }
    ensures { AreSettled rows.old }
{
    gather(rows);
    look_at_all(rows);
}

// Returns all stealing ends to the homes.
fn gather(rows: &mut [HartRows])
    requires { AreAll (map identity rows.old) }
    ensures { (r : ℕ) → r < 3 * length rows.old
        → owner_log rows.new r ≡ gathered (owner_log rows.old r) 64
        (stolen_by (map pass_logs rows.old) r (length rows.old)) }
{
    for hart in 0..rows.len() {
        let ends = rows[hart].take_ends();
        give_line(rows, ends);
    }
}

// Returns one hart's stealing ends to the homes.
fn give_line(rows: &mut [HartRows], mut ends: Vec<StealingEnd>)
    requires count { vec_len ends ≡ 3 * length rows.old }
    requires of { (r : ℕ) (d : StealingEnd) (n : RowName) → r < 3 * length rows.old
        → end_name (slice_index_or ends.items r d) ≡ row_at n (map home_names rows.old) r }
    ensures joined { (r : ℕ) (d : StealingEnd) → r < 3 * length rows.old
        → owner_log rows.new r ≡ joined (owner_log rows.old r)
        (end_log (slice_index_or ends.items r d)) }
    ensures names { map home_names rows.new ≡ map home_names rows.old }
    ensures standing { map standing rows.new ≡ map standing rows.old }
{
    while let Some(end) = ends.pop() {
        give_back(rows, ends.len(), end);
    }
}

// Looks at each deque.
fn look_at_all(rows: &mut [HartRows])
    requires few { length rows.old ≤ 16 }
    requires whole { (r : ℕ) → r < 3 * length rows.old → (owner_log rows.old r).parts ≡ 64 }
    ensures { (r : ℕ) → r < 3 * length rows.old
        → (items : List ℕ) × Determines (owner_log rows.old r) items }
{
    for row in 0..3 * rows.len() {
        look(rows, row);
    }
}
