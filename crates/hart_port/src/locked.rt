//! The port of a hart that shares a ledger with others, under a lock.
ghost use Rattle.std.specs.Prelude.{◌≡◌, ◌≢◌, ◌<◌, ◌≤◌, ℕ, vec_len, vec_capacity, IfOk, IfErr, OnOk, IsTrue, true, false};
ghost use Rattle.transfer_table.specs.Plan.{IsHart, IsSite, parent};
ghost use Rattle.hart_port.specs.Count.{RoseUnlessInside};
ghost use Rattle.hart_port.specs.PortView.{IsPortView, is_in, Enters, Sees};
ghost use Rattle.hart_port.specs.Words.{is_claimed, is_wanted};
ghost use Rattle.hart_port.specs.Locked.{first_locked};

use crate::ledger::Ledger;
use crate::port::{Entered, Port, Seen, Taken};
use crate::word::{is_claimed, is_closed, is_wanted, other_hart, raise};
use std::alloc::{AllocError, Global};
use std::marker::{Model, PhantomData};
use std::sync::{Mutex, Wait};
use std::thread::Threads;
use transfer_table::{Entry, Plan};

/// The port of one hart of a ledger that harts share under a lock. Each call may block.
///
/// Contracts know only the type of the lock-protected ledger. So a call tries an entry that the board refuses again, and takes
/// the lock anew each time. It never makes an entry for which the room is used up, or a second Register of a site. Neither
/// occurs if each hart of the ledger's plan has one port.
pub struct LockedPort<'a, R> {
    lock: &'a Mutex<Ledger>,
    plan: &'a Plan,
    hart: u8,
    owner: u16,
    mine: Vec<Entry>,
    // Here and in the next four a flag for the base and for each site.
    homes: Vec<bool>,
    closed: Vec<bool>,
    empty: Vec<bool>,
    gone: Vec<bool>,
    // The sites of which the hart made Register or Request. Why flags: a register searches no list.
    claimed: Vec<bool>,
    refused: u64,
    of: PhantomData<&'a R>,
}

impl<'a, R> Model for LockedPort<'a, R> {
    ghost use Rattle.hart_port.specs.Locked.{Locked, IsLocked, shared_view};

    ghost Value = { Locked };

    ghost view = { λ p. record {
      view = shared_view p.plan.now p.hart p.owner p.mine.items p.homes.items p.closed.items p.empty.items p.gone.items;
      claimed = p.claimed.items;
      refused = p.refused;
    } };

    ghost invariant = { λ p.
        IsLocked (shared_view p.plan.now p.hart p.owner p.mine.items p.homes.items p.closed.items
        p.empty.items p.gone.items) p.claimed.items };
}

impl<'a, R> Drop for LockedPort<'a, R> {
    fn drop(self) {
        let LockedPort {
            lock: _,
            plan: _,
            hart: _,
            owner: _,
            mine: _,
            homes: _,
            closed: _,
            empty: _,
            gone: _,
            claimed: _,
            refused: _,
            of: _,
        } = self;
    }
}

impl<'a, R> LockedPort<'a, R> {
    /// The port of a hart of the plan that made no transfer yet, with room for all entries that the plan allows. The plan is
    /// the ledger's, with at most four harts, since the board word shows no more. Does not block.
    ///
    /// # Errors
    ///
    /// `AllocError` if an allocation fails.
    ///
    /// # Memory
    ///
    /// It allocates the hart's entries and five flags for each site. No other call allocates.
    pub fn new(
        alloc: Global,
        lock: &'a Mutex<Ledger>,
        plan: &'a Plan,
        hart: u8,
    ) -> Result<LockedPort<'a, R>, AllocError>
        requires hart { IsHart plan.now hart }
        requires few_harts { plan.now.harts ≤ 4 }
        ensures { IfOk result (λ p. p ≡ first_locked plan.now hart) }
    {
        let sites = plan.sites() as usize;
        let flags = sites + 1;
        Ok(LockedPort {
            lock,
            plan,
            hart,
            owner: 0,
            mine: Vec::with_capacity(alloc, sites * (3 * plan.harts() as usize - 1))?,
            homes: vec![in alloc; false; flags]?,
            closed: vec![in alloc; false; flags]?,
            empty: vec![in alloc; false; flags]?,
            gone: vec![in alloc; false; flags]?,
            claimed: vec![in alloc; false; flags]?,
            refused: 0,
            of: PhantomData,
        })
    }
}

// Whether there is room for a further entry.
fn has_room(mine: &Vec<Entry>) -> bool
    ensures { IsTrue result → vec_len mine.now < vec_capacity mine.now }
{
    mine.len() < mine.capacity()
}

// Tries to append an entry under the lock until the ledger admits it. Does not return if the entry may not be made.
fn put_in<R: Wait>(hold: &R, lock: &Mutex<Ledger>, entry: Entry, may: bool)
    ensures { IsTrue may }
{
    for _ in hold.forever() {
        if may && lock.lock(hold).admit(entry).is_ok() {
            return;
        }
    }
    unreachable!()
}

// The same for the Register or the Skip of a site, unless the site's word is claimed.
fn claim<R: Wait>(
    hold: &R,
    lock: &Mutex<Ledger>,
    site: u16,
    entry: Entry,
    may: bool,
) -> Result<(), Taken>
    ensures ok { OnOk result (IsTrue may) }
    ensures taken { IfErr result (λ taken. is_claimed taken.shown ≡ true) }
{
    for _ in hold.forever() {
        let mut ledger = lock.lock(hold);
        let shown = ledger.site_word(site);
        if is_claimed(shown) {
            return Err(Taken { shown });
        }
        if may && ledger.admit(entry).is_ok() {
            return Ok(());
        }
    }
    unreachable!()
}

// The same for the Enter of a site. Returns the site's word if the word wants no hart.
fn go_in<R: Wait>(hold: &R, lock: &Mutex<Ledger>, hart: u8, site: u16, may: bool) -> Result<(), u64>
    ensures ok { OnOk result (IsTrue may) }
    ensures unwanted { IfErr result (λ shown. is_wanted shown ≡ false) }
{
    for _ in hold.forever() {
        let mut ledger = lock.lock(hold);
        let shown = ledger.site_word(site);
        if !is_wanted(shown) {
            return Err(shown);
        }
        if may && ledger.admit(Entry::Enter { hart, site }).is_ok() {
            return Ok(());
        }
    }
    unreachable!()
}

impl<'a, R: Threads + Wait + Sync + 'a> Port for LockedPort<'a, R> {
    type Hold = &'a R;

    ghost use Rattle.std.specs.Prelude.{◌≢◌, ℕ};
    ghost use Rattle.hart_port.specs.declared.port.Entered.TheVariants.{Moved};
    ghost use Rattle.hart_port.specs.declared.port.Seen.TheVariants.{Flying};

    ghost seen = { λ p. p.view };

    ghost refused = { λ p. p.refused };

    ghost register_gives = { λ _ _ _ _. Unit {0} };

    ghost skip_gives = { λ _ _ _ _. Unit {0} };

    ghost enter_gives = { λ _ _ answer _. (read found : ℕ) → answer ≢ Moved read found };

    ghost gone_gives = { λ _ _ _ _. Unit {0} };

    ghost empty_gives = { λ _ answer _. (shown : ℕ) → answer ≢ Flying shown };

    fn hart(&self) -> u8 {
        self.hart
    }

    fn owner(&self) -> u16 {
        self.owner
    }

    fn register(&mut self, hold: &'a R, site: u16) -> Result<(), Taken> {
        let may = has_room(&self.mine) && !self.claimed[site as usize];
        let hart = self.hart;
        let entry = Entry::Register { hart, site };
        if let Err(taken) = claim(hold, self.lock, site, entry, may) {
            raise(&mut self.refused);
            return Err(taken);
        }
        self.mine.push_reserved(entry);
        self.owner = site;
        self.claimed[site as usize] = true;
        self.homes[site as usize] = true;
        self.closed[site as usize] = false;
        self.empty[site as usize] = false;
        Ok(())
    }

    fn skip(&mut self, hold: &'a R, site: u16) -> Result<(), Taken> {
        let hart = self.hart;
        let entry = Entry::Skip { hart, site };
        if let Err(taken) = claim(hold, self.lock, site, entry, has_room(&self.mine)) {
            raise(&mut self.refused);
            return Err(taken);
        }
        self.mine.push_reserved(entry);
        Ok(())
    }

    fn request(&mut self, hold: &'a R, site: u16, count: u8) {
        let entry = Entry::Request {
            hart: self.hart,
            site,
            count,
        };
        put_in(hold, self.lock, entry, has_room(&self.mine));
        self.mine.push_reserved(entry);
        self.claimed[site as usize] = true;
    }

    /// The word is read and the entry made under one lock, so the word never moves between.
    fn try_enter(&mut self, hold: &'a R, site: u16) -> Entered
        requires known { IsSite self.old.view.plan site }
        requires child { self.old.view.owner ≡ parent self.old.view.plan site }
        ensures does { Enters self.old.view site result self.new.view }
        ensures count { RoseUnlessInside result self.old.refused self.new.refused }
        ensures kept { IsPortView self.new.view }
        ensures never_moved { (read found : ℕ) → result ≢ Entered.Moved read found }
    {
        let hart = self.hart;
        if let Err(shown) = go_in(hold, self.lock, hart, site, has_room(&self.mine)) {
            raise(&mut self.refused);
            return Entered::NotWanted { shown };
        }
        self.mine.push_reserved(Entry::Enter { hart, site });
        self.owner = site;
        Entered::Inside
    }

    fn yield_hart(&mut self, hold: &'a R) {
        let entry = Entry::Yield {
            hart: self.hart,
            site: self.owner,
        };
        put_in(hold, self.lock, entry, has_room(&self.mine));
        self.mine.push_reserved(entry);
        self.owner = self.plan.parent(self.owner);
    }

    fn close_site(&mut self, hold: &'a R) {
        self.lock.lock(hold).mark(self.owner);
        self.closed[self.owner as usize] = true;
    }

    fn see_gone(&mut self, hold: &'a R, site: u16) -> bool {
        if !is_closed(self.lock.lock(hold).site_word(site)) {
            return false;
        }
        if !self.gone[site as usize] {
            self.gone[site as usize] = true;
            let parent = self.plan.parent(site);
            self.empty[parent as usize] = false;
        }
        true
    }

    /// No hart is ever on its way in: it is in, or it isn't.
    fn see_empty(&mut self, hold: &'a R) -> Seen
        requires home { is_in self.old.view.homes self.old.view.owner ≡ true }
        requires closed { is_in self.old.view.closed self.old.view.owner ≡ true }
        ensures does { Sees self.old.view result self.new.view }
        ensures count { self.new.refused ≡ self.old.refused }
        ensures kept { IsPortView self.new.view }
        ensures never_flying { (shown : ℕ) → result ≢ Seen.Flying shown }
    {
        let shown = self.lock.lock(hold).board_word();
        if other_hart(shown, self.plan.harts(), self.hart, self.owner).is_some() {
            return Seen::Held { shown };
        }
        self.empty[self.owner as usize] = true;
        Seen::Empty
    }

    fn unregister(&mut self, hold: &'a R) {
        let site = self.owner;
        let hart = self.hart;
        let entry = Entry::Unregister { hart, site };
        put_in(hold, self.lock, entry, has_room(&self.mine));
        self.mine.push_reserved(entry);
        self.owner = self.plan.parent(site);
        self.homes[site as usize] = false;
        self.closed[site as usize] = false;
        self.empty[site as usize] = false;
    }
}
