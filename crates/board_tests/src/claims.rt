//! Claims by two seats on one thread.
ghost use Rattle.std.specs.Prelude.{◌≡◌, length, map, vec_len};
ghost use Rattle.claim_words.specs.Seats.{AreAll, IsOf, identity};

use claim_words::laws::claimed;
use claim_words::{ClaimSeat, ClaimTable, Claimed};
use std::test::Fail;

// The members of a claim counter are claimed from the lowest on, by either seat.
fn are_claimed_in_order(table: &ClaimTable, one: &mut ClaimSeat, other: &mut ClaimSeat) -> bool
    requires of { IsOf table.now (identity one.old) × IsOf table.now (identity other.old) }
    requires rows { length table.now.counts.items ≡ 3 }
    ensures { (identity one.new ≡ identity one.old) × (identity other.new ≡ identity other.old) }
{
    let first = table.claim(one, 0) == Claimed::Member(0);
    let second = table.claim(other, 0) == Claimed::Member(1);
    let none = table.claim(one, 0) == Claimed::NoneLeft { shown: 2 };
    first && second && none && table.claim(other, 0) == Claimed::NoneLeft { shown: 2 }
}

// Claim counters are independent of one another, and one may have no member.
fn are_rows_apart(table: &ClaimTable, one: &mut ClaimSeat, other: &mut ClaimSeat) -> bool
    requires of { IsOf table.now (identity one.old) × IsOf table.now (identity other.old) }
    requires rows { length table.now.counts.items ≡ 3 }
    ensures { (identity one.new ≡ identity one.old) × (identity other.new ≡ identity other.old) }
{
    let bare = table.claim(one, 1) == Claimed::NoneLeft { shown: 0 };
    let first = table.claim(one, 2) == Claimed::Member(0);
    let second = table.claim(one, 2) == Claimed::Member(1);
    bare && first && second && table.claim(other, 2) == Claimed::Member(2)
}

// Two seats claim, and go back into the list.
fn are_claims_right(table: &ClaimTable, seats: &mut Vec<ClaimSeat>) -> bool
    requires all { AreAll table.now (map identity seats.old.items) }
    requires two { vec_len seats.old ≡ 2 }
    requires rows { length table.now.counts.items ≡ 3 }
    ensures { map identity seats.new.items ≡ map identity seats.old.items }
{
    let Some(mut other) = seats.pop() else {
        unreachable!()
    };
    let Some(mut one) = seats.pop() else {
        unreachable!()
    };
    let order = are_claimed_in_order(table, &mut one, &mut other);
    let apart = are_rows_apart(table, &mut one, &mut other);
    seats.push_reserved(one);
    seats.push_reserved(other);
    order && apart
}

#[test]
fn each_member_is_claimed_once(rt: HostRuntime) -> Result<(), Fail> {
    let (table, mut seats) = ClaimTable::new(rt.alloc(), &[2, 0, 3], 2)?;
    assert!(rt; table.counts() == [2, 0, 3].as_slice());
    assert!(rt; are_claims_right(&table, &mut seats));
    claimed(table, seats);
    Ok(())
}

#[test]
fn there_may_be_no_row(rt: HostRuntime) -> Result<(), Fail> {
    let (table, seats) = ClaimTable::new(rt.alloc(), &[], 3)?;
    assert!(rt; seats.len() == 3);
    claimed(table, seats);
    Ok(())
}
