//! The deques of two harts on one thread.
ghost use Rattle.std.specs.Prelude.{◌≡◌, ◌≤◌, length, map};
ghost use Rattle.deque_rows.specs.Rows.{AreAll, identity};

use crate::deque_moves::{pop_at, put_at, steal_at};
use deque_rows::laws::settle;
use deque_rows::{HartRows, Stolen, rows, rows_for};
use std::sync::Wait;
use std::test::Fail;

// The home pops the last job index, and a guest steals the first.
fn are_ends_kept<R: Wait>(rt: &R, rows: &mut [HartRows]) -> bool
    requires { AreAll (map identity rows.old) × (length rows.old ≡ 2) }
    ensures { map identity rows.new ≡ map identity rows.old }
{
    put_at(rows, 0, 1, &[10, 11, 12]);
    let last = pop_at(rows, 0, 1);
    let first = steal_at(rt, rows, 1, 0, 1);
    let rest = pop_at(rows, 0, 1);
    let none = steal_at(rt, rows, 1, 0, 1);
    let took = last == Some(12) && first == Stolen::Code(10) && rest == Some(11);
    took && none == Stolen::Empty && pop_at(rows, 0, 1) == None
}

// The deques of other levels and of other harts are separate, and a hart may steal from its own deque.
fn are_rows_apart<R: Wait>(rt: &R, rows: &mut [HartRows]) -> bool
    requires { AreAll (map identity rows.old) × (length rows.old ≡ 2) }
    ensures { map identity rows.new ≡ map identity rows.old }
{
    put_at(rows, 0, 2, &[20, 21]);
    put_at(rows, 1, 3, &[30, 31]);
    let bare = steal_at(rt, rows, 1, 0, 3) == Stolen::Empty && pop_at(rows, 1, 2) == None;
    let own = steal_at(rt, rows, 0, 0, 2) == Stolen::Code(20);
    let other = steal_at(rt, rows, 0, 1, 3) == Stolen::Code(30);
    bare && own && other && pop_at(rows, 0, 2) == Some(21) && pop_at(rows, 1, 3) == Some(31)
}

// Whether each hart has its number, and its deques have so much room.
fn have_room(rows: &[HartRows], level: u8, room: [u32; 2]) -> bool
    requires { (1 ≤ level) × (level ≤ 3) × (length rows.now ≡ 2) }
{
    let hart = rows[0].hart() == 0 && rows[1].hart() == 1;
    hart && rows[0].room(level) == room[0] && rows[1].room(level) == room[1]
}

#[test]
fn the_home_pops_the_last_and_a_guest_steals_the_first(rt: HostRuntime) -> Result<(), Fail> {
    let mut all = rows(rt.alloc(), 2)?;
    assert!(rt; have_room(all.as_slice(), 1, [16_384, 16_384]));
    assert!(rt; are_ends_kept(&rt, all.as_mut_slice()));
    assert!(rt; have_room(all.as_slice(), 1, [16_381, 16_384]));
    assert!(rt; are_rows_apart(&rt, all.as_mut_slice()));
    settle(all);
    Ok(())
}

// A deque with room for three job indices takes the first three of four, and no other one after a pop.
fn is_filled(rows: &mut [HartRows]) -> bool
    requires { length rows.old ≡ 2 }
    ensures { map identity rows.new ≡ map identity rows.old }
{
    put_at(rows, 1, 1, &[10, 11, 12, 13]);
    let last = pop_at(rows, 1, 1) == Some(12);
    put_at(rows, 1, 1, &[14]);
    last && pop_at(rows, 1, 1) == Some(11)
}

#[test]
fn a_row_takes_as_many_codes_as_it_was_made_for(rt: HostRuntime) -> Result<(), Fail> {
    let mut all = rows_for(rt.alloc(), 2, 3)?;
    assert!(rt; have_room(all.as_slice(), 1, [3, 3]));
    assert!(rt; is_filled(all.as_mut_slice()));
    assert!(rt; have_room(all.as_slice(), 1, [3, 0]));
    settle(all);
    Ok(())
}
