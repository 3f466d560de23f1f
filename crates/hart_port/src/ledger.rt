//! A table that keeps its journal.
ghost use Rattle.std.specs.Prelude.{◌≡◌, ◌<◌, ◌^◌, ◌↔◌, IsTrue, IfOk, length, take};
ghost use Rattle.transfer_table.specs.Plan.{IsSite, IsHart};
ghost use Rattle.transfer_table.specs.Table.{owner, row};
ghost use Rattle.hart_port.specs.Words.{site_word, board_word, first_four, owner_digits};
ghost use Rattle.hart_port.specs.PortView.{is_in, with_site};
ghost use Rattle.hart_port.specs.Ledger.{IsLedger, first_ledger, Admits};

use crate::word::site_word;
use std::alloc::{AllocError, Global};
use std::marker::Model;
use transfer_table::{Board, Entries, Entry, NotAdmitted, Plan, Stage};

/// A board, the entries that it admitted, and marks of the sites that are closing. Its type keeps that the board is the
/// replay of the entries and that they are legal.
#[derive(Drop)]
pub struct Ledger {
    board: Board,
    entries: Vec<Entry>,
    // A flag for the base and for each site.
    closing: Vec<bool>,
}

impl Model for Ledger {
    ghost use Rattle.std.specs.Prelude.{vec_capacity};
    ghost use Rattle.hart_port.specs.Ledger.{LedgerState, IsRoomy};

    ghost Value = { LedgerState };

    ghost view = { λ l. record { plan = l.board.plan; state = l.board.state; entries = l.entries.items; closing = l.closing.items } };

    ghost invariant = { λ l. IsRoomy record {
      plan = l.board.plan;
      state = l.board.state;
      entries = l.entries.items;
      closing = l.closing.items;
    } (vec_capacity l.entries) };
}

impl Ledger {
    /// The ledger of the plan before any entry, with room for all entries that the plan allows.
    ///
    /// # Errors
    ///
    /// `AllocError` if an allocation fails.
    ///
    /// # Memory
    ///
    /// It allocates a board, a flag for each site and the room for all entries. No other call allocates.
    pub fn new(alloc: Global, plan: &Plan) -> Result<Ledger, AllocError>
        ensures first { IfOk result (λ l. l ≡ first_ledger plan.now) }
        ensures kept { IfOk result IsLedger }
    {
        let sites = plan.sites() as usize;
        let most = sites * (3 * plan.harts() as usize - 1);
        Ok(Ledger {
            board: Board::new(alloc, plan)?,
            entries: Vec::with_capacity(alloc, most)?,
            closing: vec![in alloc; false; sites + 1]?,
        })
    }

    /// Applies the entry to the board and appends it. Does not allocate.
    ///
    /// # Errors
    ///
    /// The board's refusal. The ledger is then unchanged.
    pub fn admit(&mut self, entry: Entry) -> Result<(), NotAdmitted>
        ensures does { Admits self.old entry result self.new }
        ensures kept { IsLedger self.new }
    {
        self.board.admit(entry)?;
        self.entries.push_reserved(entry);
        Ok(())
    }

    /// Marks the site as closing. A site that isn't in the plan isn't marked. Why: a mark is never cleared, so the word of a
    /// gone site shows that it was closed.
    pub fn mark(&mut self, site: u16)
        ensures marked { IsSite self.old.plan site → self.new ≡ record self.old {
          closing = with_site self.old.closing site;
        } }
        ensures outside { ¬ IsSite self.old.plan site → self.new ≡ self.old }
        ensures kept { IsLedger self.new }
    {
        if self.has_site(site) {
            self.closing[site as usize] = true;
        }
    }

    /// The word of the site, which shows no hart on its way in; 0 for a site that isn't in the plan.
    pub fn site_word(&self, site: u16) -> u64
        ensures inside { IsSite self.now.plan site
            → result ≡ site_word (row self.now.state site) (is_in self.now.closing site) }
        ensures outside { ¬ IsSite self.now.plan site → result ≡ 0 }
    {
        if self.has_site(site) {
            site_word(&self.board, site, self.closing[site as usize])
        } else {
            0
        }
    }

    /// The word of the board: the number of entries, and the owners of the first four harts.
    pub fn board_word(&self) -> u64
        ensures { result ≡ board_word (first_four self.now.state) (length self.now.entries) }
    {
        (self.entries.len() as u64) * (1 << 48) + self.owner_digits()
    }

    /// The entries that were admitted, in order. They are legal. Does not allocate.
    pub fn into_entries(self) -> Entries
        ensures entries { result ≡ self.entries }
        ensures kept { IsLedger self }
    {
        let Ledger {
            board: _,
            entries,
            closing: _,
        } = self;
        Entries::new(entries)
    }

    pub(crate) fn plan(&self) -> &Plan
        ensures same { result.now ≡ self.now.plan }
        ensures kept { IsLedger self.now }
    {
        self.board.plan()
    }

    // The site that holds the hart.
    pub(crate) fn owner(&self, hart: u8) -> u16
        requires { IsHart self.now.plan hart }
        ensures { result ≡ owner self.now.state hart }
    {
        self.board.owner(hart)
    }

    // How far the site has come.
    pub(crate) fn stage(&self, site: u16) -> Stage
        requires { IsSite self.now.plan site }
        ensures { result ≡ (row self.now.state site).stage }
    {
        self.board.stage(site)
    }

    // Whether the site is one of the plan's.
    fn has_site(&self, site: u16) -> bool
        ensures { IsTrue result ↔ IsSite self.now.plan site }
    {
        site != 0 && site <= self.board.plan().sites()
    }

    // The owners of the first four harts as digits to the base 4096, that of hart 0 the lowest.
    fn owner_digits(&self) -> u64
        ensures same { result ≡ owner_digits (take 4 self.now.state.owners) }
        ensures below { result < 2 ^ 48 }
    {
        let mut digits = 0;
        for hart in (0..self.board.plan().harts().min(4)).rev() {
            digits = digits * 4096 + self.board.owner(hart) as u64;
        }
        digits
    }
}
