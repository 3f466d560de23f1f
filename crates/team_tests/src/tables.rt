//! Tables by which the members of small teams are claimed.
ghost use Rattle.std.specs.Prelude.{◌≡◌, ◌≤◌, IfOk};
ghost use Rattle.claim_words.specs.Seats.{IsOf, identity};

use loop_team::{ClaimSeat, ClaimTable};
use std::alloc::Global;
use std::test::Fail;

/// A claim counter for each of two phases of three members.
pub const TWO_ROWS: [u8; 2] = [3, 3];

// A claim counter for each of two phases of twenty members.
const TWENTY_ROWS: [u8; 2] = [20, 20];

/// A table of these counters, and its one seat.
pub fn table_of(alloc: Global) -> Result<(ClaimTable, ClaimSeat), Fail>
    ensures { IfOk result (λ t. IsOf t.0 (identity t.1)) }
{
    let (table, mut seats) = ClaimTable::new(alloc, &TWO_ROWS, 1)?;
    let Some(seat) = seats.pop() else {
        unreachable!()
    };
    Ok((table, seat))
}

/// A table of these counters, and its two seats.
pub fn table_of_two(alloc: Global) -> Result<(ClaimTable, ClaimSeat, ClaimSeat), Fail>
    ensures { IfOk result (λ t. IsOf t.0 (identity t.1) × IsOf t.0 (identity t.2)) }
{
    two_seats(alloc, TWO_ROWS)
}

/// A table with a counter for each of two phases of twenty members, and its two seats.
pub fn table_of_twenty(alloc: Global) -> Result<(ClaimTable, ClaimSeat, ClaimSeat), Fail>
    ensures { IfOk result (λ t. IsOf t.0 (identity t.1) × IsOf t.0 (identity t.2)) }
{
    two_seats(alloc, TWENTY_ROWS)
}

// A table of these counters, and its two seats.
fn two_seats(alloc: Global, rows: [u8; 2]) -> Result<(ClaimTable, ClaimSeat, ClaimSeat), Fail>
    ensures { IfOk result (λ t. IsOf t.0 (identity t.1) × IsOf t.0 (identity t.2)) }
{
    let (table, mut seats) = ClaimTable::new(alloc, &rows, 2)?;
    let Some(other) = seats.pop() else {
        unreachable!()
    };
    let Some(one) = seats.pop() else {
        unreachable!()
    };
    Ok((table, one, other))
}
