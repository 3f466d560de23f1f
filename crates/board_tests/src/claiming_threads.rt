//! Two harts on threads that claim the members of one claim counter.
ghost use Rattle.std.specs.Prelude.{◌≡◌, ◌<◌, length, map};
ghost use Rattle.claim_words.specs.Seats.{AreAll, IsOf, identity};

use crate::taken::{NUMBERS, Taken};
use claim_words::laws::claimed;
use claim_words::{ClaimSeat, ClaimTable, Claimed};
use std::alloc::Global;
use std::sync::Wait;
use std::test::Fail;
use std::thread::{Threads, for_each_mut};

// Claims members until none is left.
fn claim_all(table: &ClaimTable, taken: &Taken, seat: &mut ClaimSeat)
    requires of { IsOf table.now (identity seat.old) }
    requires row { 0 < length table.now.counts.items }
    ensures { identity seat.new ≡ identity seat.old }
{
    for _ in 0..NUMBERS {
        match table.claim(seat, 0) {
            Claimed::Member(member) => taken.note(u64::from(member)),
            Claimed::NoneLeft { .. } => return,
        }
    }
}

// Both harts claim at once.
fn play<R: Threads + Wait + Sync>(
    rt: &R,
    table: &ClaimTable,
    taken: &Taken,
    seats: &mut [ClaimSeat],
)
    requires all { AreAll table.now (map identity seats.old) }
    requires row { 0 < length table.now.counts.items }
    ensures { map identity seats.new ≡ map identity seats.old }
{
    let go = |_hart: usize, seat: &mut ClaimSeat|
        requires of { IsOf table.now (identity seat.old) }
        requires row { 0 < length table.now.counts.items }
        ensures { identity seat.new ≡ identity seat.old }
    { claim_all(table, taken, seat) };
    for_each_mut(rt, seats, 2, &go);
}

// Whether two harts claim each member once. Then the account of their claims is settled.
fn is_shared_out<R: Threads + Wait + Sync>(rt: &R, alloc: Global) -> Result<bool, Fail> {
    let taken = Taken::new();
    let (table, mut seats) = ClaimTable::new(alloc, &[NUMBERS], 2)?;
    play(rt, &table, &taken, seats.as_mut_slice());
    claimed(table, seats);
    Ok(taken.is_each_once())
}

#[test]
fn two_threads_claim_each_member_once(rt: HostRuntime) -> Result<(), Fail> {
    for _ in 0..20 {
        assert!(rt; is_shared_out(&rt, rt.alloc())?);
    }
    Ok(())
}
