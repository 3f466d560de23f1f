//! The account of claims whose seats are back.
ghost use Rattle.std.specs.Prelude.{map};
ghost use Rattle.claim_words.specs.Seats.{AreAll, AreAccounted, identity};

use crate::plays::Share;
use crate::seat::ClaimSeat;
use crate::table::ClaimTable;

/// Settles the account of all claims, for all seats of a table: for each counter, the members below its word are claimed, each
/// by one seat once, and no others. Does not allocate.
pub fn claimed(table: ClaimTable, mut seats: Vec<ClaimSeat>)
    requires all { AreAll table (map identity seats.items) }
    ensures accounted { AreAccounted table.counts.items seats.items }
{
    let ClaimTable { table, counts: _ } = table;
    let Some(first) = seats.pop() else {
        unreachable!()
    };
    let ClaimSeat { seat: mut first } = first;
    while let Some(other) = seats.pop() {
        let ClaimSeat { seat } = other;
        table.shared.join_seat::<Share>(&mut first, seat);
    }
    table.close_with(first).free();
}
