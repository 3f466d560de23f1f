//! Moves on the deques of all harts.
ghost use Rattle.std.specs.Prelude.{◌≡◌, ◌<◌, length, map};
ghost use Rattle.deque_rows.specs.Rows.{IsLevel, AreAll, identity};

use deque_rows::{HartRows, Stolen};
use std::sync::Wait;

// Pushes job indices onto a hart's own deque, as far as it has room.
pub fn put(rows: &mut HartRows, level: u8, codes: &[u32])
    requires { IsLevel level }
    ensures { identity rows.new ≡ identity rows.old }
{
    for code in codes {
        if 0 < rows.room(level) {
            rows.push(level, *code);
        }
    }
}

// A hart pushes job indices onto its deque.
pub fn put_at(rows: &mut [HartRows], hart: usize, level: u8, codes: &[u32])
    requires { IsLevel level × (hart < length rows.old) }
    ensures { map identity rows.new ≡ map identity rows.old }
{
    put(&mut rows[hart], level, codes);
}

// A hart pops from its deque.
pub fn pop_at(rows: &mut [HartRows], hart: usize, level: u8) -> Option<u32>
    requires { IsLevel level × (hart < length rows.old) }
    ensures { map identity rows.new ≡ map identity rows.old }
{
    rows[hart].pop(level)
}

// A hart steals from a deque.
pub fn steal_at<R: Wait>(rt: &R, rows: &mut [HartRows], thief: usize, hart: u8, level: u8) -> Stolen
    requires all { AreAll (map identity rows.old) }
    requires row { IsLevel level × (hart < length rows.old) }
    requires thief { thief < length rows.old }
    ensures { map identity rows.new ≡ map identity rows.old }
{
    rows[thief].steal(rt, hart, level)
}
