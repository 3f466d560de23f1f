//! Two harts on threads, one of which steals what the other pushes.
ghost use Rattle.std.specs.Prelude.{◌≡◌, ◌<◌, length, map};
ghost use Rattle.deque_rows.specs.Rows.{AreAll, identity};

use crate::deque_moves::{pop_at, put, steal_at};
use crate::taken::{NUMBERS, Taken};
use deque_rows::laws::settle;
use deque_rows::{HartRows, Stolen, rows};
use std::alloc::Global;
use std::sync::Wait;
use std::test::Fail;
use std::thread::{Threads, for_each_mut};

/// The job indices are the numbers below this one.
const CODES: u32 = NUMBERS as u32;

/// The number of the thief's tries.
const TRIES: u32 = 4096;

// The home pushes each job index, and pops every third time.
fn be_home(taken: &Taken, home: &mut HartRows)
    ensures { identity home.new ≡ identity home.old }
{
    for code in 0..CODES {
        put(home, 1, &[code]);
        if code % 3 == 0 {
            if let Some(popped) = home.pop(1) {
                taken.note(u64::from(popped));
            }
        }
    }
}

// The guest steals the job indices that it finds.
fn be_guest<R: Wait>(rt: &R, taken: &Taken, guest: &mut HartRows)
    requires { 0 < guest.old.harts }
    ensures { identity guest.new ≡ identity guest.old }
{
    for _ in 0..TRIES {
        if let Stolen::Code(code) = guest.steal(rt, 0, 1) {
            taken.note(u64::from(code));
        }
    }
}

// Hart 0 is the home.
fn take_part<R: Wait>(rt: &R, taken: &Taken, rows: &mut HartRows, hart: usize)
    requires { 0 < rows.old.harts }
    ensures { identity rows.new ≡ identity rows.old }
{
    match hart {
        0 => be_home(taken, rows),
        _ => be_guest(rt, taken, rows),
    }
}

// Both harts do so at once.
fn play<R: Threads + Wait + Sync>(rt: &R, taken: &Taken, rows: &mut [HartRows])
    requires { AreAll (map identity rows.old) }
    ensures { map identity rows.new ≡ map identity rows.old }
{
    let go = |hart: usize, one: &mut HartRows|
        requires { 0 < one.old.harts }
        ensures { identity one.new ≡ identity one.old }
    { take_part(rt, taken, one, hart) };
    for_each_mut(rt, rows, 2, &go);
}

// One thread takes the rest.
fn take_rest<R: Wait>(rt: &R, taken: &Taken, rows: &mut [HartRows])
    requires { AreAll (map identity rows.old) × (length rows.old ≡ 2) }
    ensures { map identity rows.new ≡ map identity rows.old }
{
    for _ in 0..CODES {
        if let Stolen::Code(code) = steal_at(rt, rows, 1, 0, 1) {
            taken.note(u64::from(code));
        }
        if let Some(code) = pop_at(rows, 0, 1) {
            taken.note(u64::from(code));
        }
    }
}

// Whether two harts take each job index once. Then the account of their deques is settled.
fn is_shared_out<R: Threads + Wait + Sync>(rt: &R, alloc: Global) -> Result<bool, Fail> {
    let taken = Taken::new();
    let mut all = rows(alloc, 2)?;
    play(rt, &taken, all.as_mut_slice());
    take_rest(rt, &taken, all.as_mut_slice());
    settle(all);
    Ok(taken.is_each_once())
}

#[test]
fn two_threads_take_each_code_once(rt: HostRuntime) -> Result<(), Fail> {
    for _ in 0..20 {
        assert!(rt; is_shared_out(&rt, rt.alloc())?);
    }
    Ok(())
}
