//! The end of a board.
ghost use Rattle.std.specs.Prelude.{◌≡◌, ℕ, ◌+◌, ◌<◌, ◌≤◌, [], true, IfOk, IfErr, vec_capacity, List};
ghost use Rattle.std.specs.Mem.Slots.{slots_items, slots_len, IsFull};
ghost use Rattle.transfer_table.specs.Plan.{IsPlan, room};
ghost use Rattle.transfer_table.specs.declared.entry.Entry.{Entry};
ghost use Rattle.hart_port.specs.PortView.{is_in};
ghost use Rattle.board_rule.specs.Encodings.{width};
ghost use Rattle.board_rule.specs.Views.{joined_view};
ghost use Rattle.board_rule.specs.Ends.{Spells, AllEnded, IsJournal};
ghost use Rattle.lent_board.specs.Seats.{AreAll, AreOthers, HasFrom, IsJournalOf};

use crate::amounts::entries_of;
use crate::board::Board;
use crate::plays::Gather;
use crate::seat::HartSeat;
use board_rule::{Laid, entry_of};
use std::alloc::Global;
use std::marker::{Model, PhantomData};
use transfer_table::{Entry, Plan};

/// The journal of a board that was closed, of this layout. Contracts see it as the list of its entries. Only `Board::close`
/// makes one.
#[derive(Drop)]
pub struct Closed<L: Laid> {
    list: Vec<Entry>,
    of: PhantomData<L>,
}

impl<L: Laid> Model for Closed<L> {
    ghost use Rattle.std.specs.Prelude.{List};
    ghost use Rattle.transfer_table.specs.declared.entry.Entry.{Entry};

    ghost Value = { List Entry };

    ghost view = { λ c. c.list.items };
}

impl<L: Laid> Closed<L> {
    /// The entries, in the order in which the first word counted them.
    pub fn entries(&self) -> &[Entry]
        ensures { result.now ≡ self.now }
    {
        self.list.as_slice()
    }
}

/// The allocation of the journal failed. The board and the seats come back unchanged.
#[derive(Drop)]
pub struct CloseRefused<L: Laid> {
    pub board: Board<L>,
    pub seats: Vec<HartSeat>,
}

impl<L: Laid> Board<L> {
    /// Ends the board and returns its journal. The seats are all seats of the board, in the order in which `new` returned them.
    ///
    /// # Memory
    ///
    /// It allocates room for the longest legal journal, before its first step.
    ///
    /// # Errors
    ///
    /// `CloseRefused` if that allocation fails. The board and the seats come back unchanged.
    pub fn close(
        self,
        alloc: Global,
        mut seats: Vec<HartSeat>,
    ) -> Result<Closed<L>, CloseRefused<L>>
        requires { AreAll self.table.shared.table_id self.plan seats.items }
        ensures journal { IfOk result (λ c. IsJournalOf self.plan seats.items c) }
        ensures refused { IfErr result (λ r. (r.board ≡ self) × (r.seats.items ≡ seats.items)) }
    {
        let room = self.sites as usize * (3 * self.plan.harts() as usize - 1);
        let Ok(list) = Vec::with_capacity(alloc, room) else {
            return Err(CloseRefused { board: self, seats });
        };
        let mut first = seats.remove(0);
        gather_all(&self, &mut first, seats);
        let list = finish(self, first, list);
        Ok(Closed {
            list,
            of: PhantomData,
        })
    }
}

// Joins all other seats into the first.
fn gather_all<L: Laid>(board: &Board<L>, first: &mut HartSeat, mut seats: Vec<HartSeat>)
    requires board { first.old.seat.table_id ≡ board.now.table.shared.table_id }
    requires first { first.old.seat.me.0.hart ≡ 0 }
    requires plan { first.old.seat.me.0.plan ≡ board.now.plan }
    requires seats { AreOthers board.now.table.shared.table_id board.now.plan seats.items }
    ensures board { first.new.seat.table_id ≡ board.now.table.shared.table_id }
    ensures hart { first.new.seat.me.0.hart ≡ 0 }
    ensures plan { first.new.seat.me.0.plan ≡ first.old.seat.me.0.plan }
    ensures mine { (first.new.seat.me.0.mine ≡ first.old.seat.me.0.mine)
        × (first.new.seat.me.0.places ≡ first.old.seat.me.0.places) }
    ensures gone { (x : ℕ) → is_in first.old.seat.me.0.marks.gone x ≡ true
        → is_in first.new.seat.me.0.marks.gone x ≡ true }
    ensures gathered { HasFrom first.new.seat.me.0 seats.items 0 }
{
    while let Some(other) = seats.pop() {
        gather(board, first, other);
    }
}

// Joins another hart's seat into the first.
fn gather<L: Laid>(board: &Board<L>, first: &mut HartSeat, other: HartSeat)
    requires boards { (first.old.seat.table_id ≡ board.now.table.shared.table_id)
        × (other.seat.table_id ≡ board.now.table.shared.table_id) }
    requires plans { (first.old.seat.me.0.plan ≡ board.now.plan)
        × (other.seat.me.0.plan ≡ board.now.plan) }
    requires first { first.old.seat.me.0.hart ≡ 0 }
    ensures boards { first.new.seat.table_id ≡ board.now.table.shared.table_id }
    ensures joined { first.new.seat.me.0 ≡ joined_view first.old.seat.me.0 other.seat.me.0 }
{
    let HartSeat {
        seat,
        hart: _,
        owner: _,
    } = other;
    board
        .table
        .shared
        .join_seat::<Gather>(&mut first.seat, seat);
}

// The journal of a board whose other seats were all joined into hart 0's.
fn finish<L: Laid>(board: Board<L>, first: HartSeat, mut list: Vec<Entry>) -> Vec<Entry>
    requires board { first.seat.table_id ≡ board.table.shared.table_id }
    requires first { (first.seat.me.0.hart ≡ 0) × (first.seat.me.0.plan ≡ board.plan)
        × AllEnded board.plan first.seat.me.0 }
    requires list { (list.items ≡ []) × (room board.plan ≤ vec_capacity list) }
    ensures { IsJournal board.plan first.seat.me.0 result.items }
{
    let Board {
        table,
        plan,
        sites: _,
        room: _,
    } = board;
    let HartSeat {
        seat,
        hart: _,
        owner: _,
    } = first;
    let closed = table.close_with(seat);
    read_journal::<L>(&closed, &plan, &mut list);
    closed.free();
    list
}

// Copies the entries of the journal words into the list, which has room for them.
fn read_journal<L: Laid>(
    closed: &atomic_table::Closed<(), Global>,
    plan: &Plan,
    list: &mut Vec<Entry>,
)
    requires plan { IsPlan plan.now }
    requires words { IsFull closed.now.words × (slots_len closed.now.words ≡ width plan.now) }
    requires list { (list.old.items ≡ []) × (room plan.now ≤ vec_capacity list.old) }
    requires spelled { (es : List Entry) × Spells L.layout plan.now (slots_items closed.now.words) es }
    ensures { (es : List Entry) → Spells L.layout plan.now (slots_items closed.now.words) es
        → list.new.items ≡ es }
{
    let count = entries_of::<L>(closed.word(0));
    let first = 1 + plan.sites() as usize;
    for i in 0..count as usize {
        let entry = entry_of(closed.word(first + i));
        list.push_reserved(entry);
    }
}
