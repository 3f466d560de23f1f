//! Making the deques.
ghost use Rattle.std.specs.Prelude.{◌≡◌, ℕ, ◌+◌, ◌-◌, ◌*◌, ◌<◌, ◌≤◌, length, map, replicate, slice_index_or, IfOk, vec_len};
ghost use Rattle.deque_rows.specs.Rows.{AreAll, AreNew, HasRooms, rooms, identity, home_logs, home_names, owner_log};
ghost use Rattle.deque_rows.specs.declared.making.TheConstants.{ROOM};
ghost use Rattle.deque_rows.specs.Lines.{IsHome, IsLine, less, standing};

use crate::ends::{HomeEnd, StealingEnd};
use crate::hart::HartRows;
use crate::lines::lend;
use std::alloc::{AllocError, Global};

/// The greatest number of indices that a deque takes in all.
pub const ROOM: u32 = 16_384;

/// `rows_for` with room for 16,384 indices in each deque.
///
/// # Errors
///
/// `AllocError` if an allocation fails.
///
/// # Memory
///
/// It allocates as `rows_for` does.
pub fn rows(alloc: Global, harts: u8) -> Result<Vec<HartRows>, AllocError>
    requires { (1 ≤ harts) × (harts ≤ 16) }
    ensures count { IfOk result (λ rows. vec_len rows ≡ harts) }
    ensures all { IfOk result (λ rows. AreAll (map identity rows.items)) }
    ensures new { IfOk result
        (λ rows. (h : ℕ) (d : HartRows) → h < harts
        → AreNew harts (slice_index_or rows.items h d)) }
    ensures rooms { IfOk result
        (λ rows. (h : ℕ) (d : HartRows) → h < harts
        → HasRooms ROOM (slice_index_or rows.items h d)) }
{
    rows_for(alloc, harts, ROOM)
}

/// The empty deques of so many harts, from 1 to 16: one for each hart and each level from 1 to 3, with room for so many indices
/// each, from 1 to 16,384. Returns each hart's access to all of them, in the order of the harts.
///
/// Why: a deque's whole room is allocated here, so that no push allocates. For 16,384 indices that is 384 KB and costs more
/// time than all else before a run, so a run states the number of its program's pieces. If a deque has no room, the home keeps
/// its pool.
///
/// # Errors
///
/// `AllocError` if an allocation fails.
///
/// # Memory
///
/// It allocates the deques with their room, and each hart's ends.
pub fn rows_for(alloc: Global, harts: u8, room: u32) -> Result<Vec<HartRows>, AllocError>
    requires harts { (1 ≤ harts) × (harts ≤ 16) }
    requires room { (1 ≤ room) × (room ≤ ROOM) }
    ensures count { IfOk result (λ rows. vec_len rows ≡ harts) }
    ensures all { IfOk result (λ rows. AreAll (map identity rows.items)) }
    ensures new { IfOk result
        (λ rows. (h : ℕ) (d : HartRows) → h < harts
        → AreNew harts (slice_index_or rows.items h d)) }
    ensures rooms { IfOk result
        (λ rows. (h : ℕ) (d : HartRows) → h < harts
        → HasRooms room (slice_index_or rows.items h d)) }
{
    let mut rows = homes(alloc, harts, room)?;
    reach_all(alloc, harts, rows.as_mut_slice())?;
    Ok(rows)
}

// Each hart gets a stealing end of each deque.
fn reach_all(alloc: Global, harts: u8, rows: &mut [HartRows]) -> Result<(), AllocError>
    requires few { harts ≤ 16 }
    requires count { length rows.old ≡ harts }
    requires homes { (h : ℕ) (d : HartRows) → h < harts
        → IsHome harts h (slice_index_or rows.old h d) }
    ensures all { IfOk result (λ done. AreAll (map identity rows.new)) }
    ensures new { IfOk result
        (λ done. (h : ℕ) (d : HartRows) → h < harts → AreNew harts (slice_index_or rows.new h d)) }
    ensures rooms { IfOk result (λ done. map rooms rows.new ≡ map rooms rows.old) }
{
    for hart in 0..usize::from(harts) {
        let ends = line(alloc, rows)?;
        rows[hart].reach(harts, ends);
    }
    Ok(())
}

impl HartRows {
    // From here on it reaches the deques of so many harts, by these ends.
    fn reach(&mut self, harts: u8, ends: Vec<StealingEnd>)
        requires { (vec_len ends ≡ 3 * harts) × (3 * harts ≤ vec_len self.old.bare) }
        ensures logs { home_logs self.new ≡ home_logs self.old }
        ensures names { home_names self.new ≡ home_names self.old }
        ensures standing { standing self.new ≡ record (standing self.old) {
          harts = harts;
          ends = ends.items;
        } }
    {
        self.harts = harts;
        self.ends = ends;
    }
}

// Each hart's own deques, with no stealing end.
fn homes(alloc: Global, harts: u8, room: u32) -> Result<Vec<HartRows>, AllocError>
    requires { harts ≤ 16 }
    ensures count { IfOk result (λ rows. vec_len rows ≡ harts) }
    ensures homes { IfOk result
        (λ rows. (h : ℕ) (d : HartRows) → h < harts
        → IsHome harts h (slice_index_or rows.items h d)) }
    ensures rooms { IfOk result
        (λ rows. (h : ℕ) (d : HartRows) → h < harts
        → rooms (slice_index_or rows.items h d) ≡ replicate 3 room) }
{
    let mut rows = Vec::with_capacity(alloc, usize::from(harts))?;
    for hart in 0..harts {
        rows.push(home(alloc, hart, harts, room)?)?;
    }
    Ok(rows)
}

// One hart's own deques, with no stealing end.
fn home(alloc: Global, hart: u8, harts: u8, room: u32) -> Result<HartRows, AllocError>
    requires { (hart < harts) × (harts ≤ 16) }
    ensures home { IfOk result (IsHome harts hart) }
    ensures rooms { IfOk result (λ r. rooms r ≡ replicate 3 room) }
{
    let mut own = Vec::with_capacity(alloc, 3)?;
    for _ in 0..3usize {
        own.push(HomeEnd::new(alloc, room)?)?;
    }
    Ok(HartRows {
        hart,
        harts: 0,
        own,
        ends: Vec::new(alloc),
        bare: Vec::from_elem(alloc, 0u64, 3 * usize::from(harts))?,
    })
}

// A further stealing end of each deque, in order.
fn line(alloc: Global, rows: &mut [HartRows]) -> Result<Vec<StealingEnd>, AllocError>
    requires few { length rows.old ≤ 16 }
    requires parts { (r : ℕ) → r < 3 * length rows.old → 1 < (owner_log rows.old r).parts }
    ensures count { IfOk result (λ ends. vec_len ends ≡ 3 * length rows.old) }
    ensures ends { IfOk result (λ ends. IsLine (map home_names rows.old) ends.items) }
    ensures less { IfOk result
        (λ ends. (r : ℕ) → r < 3 * length rows.old
        → owner_log rows.new r ≡ less (owner_log rows.old r)) }
    ensures names { map home_names rows.new ≡ map home_names rows.old }
    ensures standing { map standing rows.new ≡ map standing rows.old }
{
    let mut ends = Vec::with_capacity(alloc, 3 * rows.len())?;
    for row in 0..3 * rows.len() {
        ends.push(lend(rows, row)?)?;
    }
    Ok(ends)
}
