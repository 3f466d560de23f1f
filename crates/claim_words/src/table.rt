//! The words by which members are claimed.
ghost use Rattle.std.specs.Prelude.{◌≡◌, ◌<◌, ◌≤◌, ◌+◌, ◌-◌, [], length, map, All, IfOk, vec_len};
ghost use Rattle.claim_words.specs.declared.table.TheConstants.{MOST_ROWS};

use crate::claimed::Claimed;
use crate::plays::{ClaimRule, DrawPlay, LookPlay, Share};
use crate::seat::ClaimSeat;
use crate::seat_view::SeatView;
use atomic_table::Table;
use std::alloc::{AllocError, Global};

/// The greatest number of counters of a table: a counter's number has 16 bits.
pub const MOST_ROWS: usize = 65_535;

/// Claim counters, a word for each and a spare word, so that a table may have no counter. Harts share it by reference; each
/// hart claims with a seat of its own.
#[derive(Drop)]
pub struct ClaimTable {
    pub(crate) table: Table<u8, SeatView, Vec<u8>, ClaimRule, Global>,
    pub(crate) counts: Vec<u8>,
    pub ghost key: { table.shared.key.items ≡ counts.items },
    pub ghost few: { length counts.items ≤ MOST_ROWS },
    pub ghost wide: { table.shared.table_id.words ≡ length counts.items + 1 },
    pub ghost slotless: { table.shared.table_id.slots ≡ 0 },
}

impl ClaimTable {
    ghost use Rattle.claim_words.specs.Claims.{fresh};
    ghost use Rattle.claim_words.specs.Seats.{AreAll, IsOf, IsNew, ClaimGives, identity};

    /// Counters with so many members each, none of which is claimed, at most `MOST_ROWS` counters; and so many seats, 1 to 255.
    ///
    /// # Errors
    ///
    /// `AllocError` if an allocation fails.
    ///
    /// # Memory
    ///
    /// It allocates the words, a copy of `counts` and the list of seats. No other call allocates.
    pub fn new(
        alloc: Global,
        counts: &[u8],
        seats: u8,
    ) -> Result<(ClaimTable, Vec<ClaimSeat>), AllocError>
        requires { (1 ≤ seats) × (length counts.now ≤ MOST_ROWS) }
        ensures counts { IfOk result (λ t. t.0.counts.items ≡ counts.now) }
        ensures seats { IfOk result (λ t. vec_len t.1 ≡ seats) }
        ensures all { IfOk result (λ t. AreAll t.0 (map identity t.1.items)) }
        ensures new { IfOk result (λ t. All IsNew t.1.items) }
    {
        let (table, mut first) = ClaimTable::open(alloc, counts)?;
        let mut list = Vec::with_capacity(alloc, usize::from(seats))?;
        for _ in 1..seats {
            list.push(table.another(&mut first))?;
        }
        list.push(first)?;
        Ok((table, list))
    }

    // The words, and a seat with all parts.
    fn open(alloc: Global, counts: &[u8]) -> Result<(ClaimTable, ClaimSeat), AllocError>
        requires { length counts.now ≤ MOST_ROWS }
        ensures counts { IfOk result (λ t. t.0.counts.items ≡ counts.now) }
        ensures of { IfOk result (λ t. t.1.seat.table_id ≡ t.0.table.shared.table_id) }
        ensures fresh { IfOk result (λ t. t.1.seat.me.0 ≡ fresh 256 counts.now) }
    {
        let counts = counts.to_vec(alloc)?;
        let words = Vec::from_elem(alloc, 0u64, counts.len() + 1)?;
        let (table, seat) = Table::of_words(alloc, words.as_slice(), &counts)?;
        Ok((ClaimTable { table, counts }, ClaimSeat { seat }))
    }

    // A further seat, with a part of one that has drawn nothing.
    fn another(&self, seat: &mut ClaimSeat) -> ClaimSeat
        requires of { seat.old.seat.table_id ≡ self.now.table.shared.table_id }
        requires parts { 1 < seat.old.seat.me.0.parts }
        requires new { seat.old.seat.me.0.past ≡ [] }
        ensures of { (seat.new.seat.table_id ≡ seat.old.seat.table_id)
            × (result.seat.table_id ≡ seat.old.seat.table_id) }
        ensures cut { seat.new.seat.me.0 ≡ record seat.old.seat.me.0 {
          parts = seat.old.seat.me.0.parts - 1;
        } }
        ensures fresh { result.seat.me.0 ≡ fresh 1 seat.old.seat.me.0.counts }
    {
        ClaimSeat {
            seat: self.table.shared.split_seat::<Share>(&mut seat.seat),
        }
    }

    /// The number of members of each counter.
    pub fn counts(&self) -> &[u8]
        ensures { result.now ≡ self.now.counts.items }
    {
        self.counts.as_slice()
    }

    /// Claims the lowest unclaimed member of a counter: it loads the word and adds 1 if a member is free. Does not lock or
    /// allocate. The seat is one of this table. Returns `NoneLeft` if each member is claimed.
    ///
    /// Why: the call adds only if it saw a free member, so a seat draws past a counter's members at most once. A counter stays
    /// below 512, for 256 members and 256 parts.
    pub fn claim(&self, seat: &mut ClaimSeat, row: u16) -> Claimed
        requires of { IsOf self.now (identity seat.old) }
        requires row { row < length self.now.counts.items }
        ensures identity { identity seat.new ≡ identity seat.old }
        ensures gives { ClaimGives self.now.counts.items row seat.old result seat.new }
    {
        let word = usize::from(row);
        let count = u64::from(self.counts[word]);
        let shown = self.table.shared.load::<LookPlay>(&mut seat.seat, word);
        if shown >= count {
            return Claimed::NoneLeft { shown };
        }
        let number = self
            .table
            .shared
            .fetch_add::<DrawPlay>(&mut seat.seat, word, 1);
        if number < count {
            Claimed::Member(number as u8)
        } else {
            Claimed::NoneLeft { shown: number }
        }
    }
}
