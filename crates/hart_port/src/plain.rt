//! The port of a single hart.
ghost use Rattle.std.specs.Prelude.{◌≡◌, ◌≢◌, ◌<◌, ◌≤◌, true, false, ◌↔◌, IsTrue, IsErr, IfOk, IfErr};
ghost use Rattle.transfer_table.specs.Plan.{IsSite, parent};
ghost use Rattle.transfer_table.specs.Table.{first_state, row};
ghost use Rattle.transfer_table.specs.Allowed.{IsAllowed};
ghost use Rattle.hart_port.specs.Count.{RoseIfErr, RoseUnlessInside};
ghost use Rattle.hart_port.specs.PortView.{IsPortView, is_in, with_site, Registers, Skips, HasEnded, MayRequest, requested_by, Enters, yielded, closes, sees_gone, Sees, MayUnregister, unregistered};
ghost use Rattle.hart_port.specs.Ledger.{IsLedger, no_site, with_entry};
ghost use Rattle.hart_port.specs.Plain.{first_view, shown_word, IsReached};

use crate::ledger::Ledger;
use crate::port::{Entered, Port, Seen, Taken};
use crate::word::raise;
use std::alloc::{AllocError, Global};
use std::marker::Model;
use transfer_table::{Entries, Entry, Plan, Stage};

/// The port of a single hart that shares nothing. Its entries are the whole journal.
#[derive(Drop)]
pub struct PlainPort {
    ledger: Ledger,
    // A flag for the base and for each site.
    // Why: the ledger's marks stay set when a site is gone, so the port keeps the sites that it closed beside them.
    closed: Vec<bool>,
    empty: Vec<bool>,
    gone: Vec<bool>,
    refused: u64,
}

impl Model for PlainPort {
    ghost use Rattle.std.specs.Prelude.{true};
    ghost use Rattle.transfer_table.specs.Table.{owner};
    ghost use Rattle.hart_port.specs.PortView.{homes_of};
    ghost use Rattle.hart_port.specs.Plain.{Plain, view_of, IsPlain};

    ghost Value = { Plain };

    ghost view = { λ p. record {
      view = view_of p.ledger p.closed.items p.empty.items p.gone.items;
      state = p.ledger.state;
      closing = p.ledger.closing;
      refused = p.refused;
    } };

    ghost invariant = { λ p. IsPlain p.ledger p.closed.items p.empty.items p.gone.items };
}

impl PlainPort {
    /// The port of the plan's one hart, with room for all entries that the plan allows.
    ///
    /// # Errors
    ///
    /// `AllocError` if an allocation fails.
    ///
    /// # Memory
    ///
    /// It allocates a ledger and flags for each site. No other call allocates.
    pub fn new(alloc: Global, plan: &Plan) -> Result<PlainPort, AllocError>
        requires { plan.now.harts ≡ 1 }
        ensures { IfOk result (λ p. p ≡ record {
          view = first_view plan.now;
          state = first_state plan.now;
          closing = no_site plan.now;
          refused = 0;
        }) }
    {
        let flags = plan.sites() as usize + 1;
        Ok(PlainPort {
            ledger: Ledger::new(alloc, plan)?,
            closed: vec![in alloc; false; flags]?,
            empty: vec![in alloc; false; flags]?,
            gone: vec![in alloc; false; flags]?,
            refused: 0,
        })
    }

    /// The entries that the port made. They are legal. Does not allocate.
    pub fn finish(self) -> Entries
        ensures entries { result ≡ self.view.mine }
        ensures legal { IsReached self }
    {
        let PlainPort {
            ledger,
            closed: _,
            empty: _,
            gone: _,
            refused: _,
        } = self;
        ledger.into_entries()
    }

    fn is_gone(&self, site: u16) -> bool
        requires { IsSite self.now.view.plan site }
        ensures { IsTrue result ↔ ((row self.now.state site).stage ≡ Stage.Gone) }
    {
        matches!(self.ledger.stage(site), Stage::Gone)
    }
}

// Appends an entry that the table allows.
fn put_in(ledger: &mut Ledger, entry: Entry)
    requires ledger { IsLedger ledger.old }
    requires allowed { IsAllowed ledger.old.plan ledger.old.state entry }
    ensures does { ledger.new ≡ with_entry ledger.old entry }
    ensures kept { IsLedger ledger.new }
{
    match ledger.admit(entry) {
        Ok(()) => {}
        Err(_) => unreachable!(),
    }
}

impl Port for PlainPort {
    type Hold = ();

    ghost use Rattle.std.specs.Prelude.{◌≡◌, ◌↔◌, IsTrue, IfErr};
    ghost use Rattle.transfer_table.specs.Table.{row};
    ghost use Rattle.transfer_table.specs.declared.entry.Stage.TheVariants.{Gone};
    ghost use Rattle.hart_port.specs.Plain.{shown_word};
    ghost use Rattle.hart_port.specs.declared.port.Entered.TheVariants.{NotWanted};
    ghost use Rattle.hart_port.specs.declared.port.Seen.TheVariants.{Empty};

    ghost seen = { λ p. p.view };

    ghost refused = { λ p. p.refused };

    ghost register_gives = { λ p site answer _. IfErr answer (λ taken. taken.shown ≡ shown_word p site) };

    ghost skip_gives = { λ p site answer _. IfErr answer (λ taken. taken.shown ≡ shown_word p site) };

    ghost enter_gives = { λ p site answer _. answer ≡ NotWanted (shown_word p site) };

    ghost gone_gives = { λ p site is_gone _. IsTrue is_gone ↔ ((row p.state site).stage ≡ Gone) };

    ghost empty_gives = { λ _ answer _. answer ≡ Empty };

    fn hart(&self) -> u8 {
        // A read of a field gives the type's invariant: the hart is 0.
        let _ = &self.ledger;
        0
    }

    fn owner(&self) -> u16
        ensures same { result ≡ self.now.view.owner }
        ensures alone { self.now.view.alone ≡ true }
        ensures kept { IsPortView self.now.view }
        ensures reached { IsReached self.now }
    {
        self.ledger.owner(0)
    }

    /// Makes Register of the site, exactly if the site is new.
    fn register(&mut self, _hold: (), site: u16) -> Result<(), Taken>
        requires known { IsSite self.old.view.plan site }
        requires child { self.old.view.owner ≡ parent self.old.view.plan site }
        ensures does { Registers self.old.view site result self.new.view }
        ensures count { RoseIfErr result self.old.refused self.new.refused }
        ensures kept { IsPortView self.new.view }
        ensures taken { IsErr result ↔ ((row self.old.state site).stage ≢ Stage.New) }
        ensures shown { IfErr result (λ taken. taken.shown ≡ shown_word self.old site) }
        ensures closing { self.new.closing ≡ self.old.closing }
        ensures reached { IsReached self.new }
    {
        if !matches!(self.ledger.stage(site), Stage::New) {
            let shown = self.ledger.site_word(site);
            raise(&mut self.refused);
            return Err(Taken { shown });
        }
        put_in(&mut self.ledger, Entry::Register { hart: 0, site });
        self.closed[site as usize] = false;
        self.empty[site as usize] = false;
        Ok(())
    }

    /// Makes Skip of the site, exactly if the site is new.
    fn skip(&mut self, _hold: (), site: u16) -> Result<(), Taken>
        requires known { IsSite self.old.view.plan site }
        requires child { self.old.view.owner ≡ parent self.old.view.plan site }
        ensures does { Skips self.old.view site result self.new.view }
        ensures count { RoseIfErr result self.old.refused self.new.refused }
        ensures kept { IsPortView self.new.view }
        ensures taken { IsErr result ↔ ((row self.old.state site).stage ≢ Stage.New) }
        ensures shown { IfErr result (λ taken. taken.shown ≡ shown_word self.old site) }
        ensures closing { self.new.closing ≡ self.old.closing }
        ensures reached { IsReached self.new }
    {
        if !matches!(self.ledger.stage(site), Stage::New) {
            let shown = self.ledger.site_word(site);
            raise(&mut self.refused);
            return Err(Taken { shown });
        }
        put_in(&mut self.ledger, Entry::Skip { hart: 0, site });
        Ok(())
    }

    /// No call meets the precondition, since a single hart has no other hart to request.
    fn request(&mut self, _hold: (), site: u16, count: u8)
        requires known { IsSite self.old.view.plan site }
        requires may { MayRequest self.old.view site count }
        ensures does { self.new.view ≡ requested_by self.old.view site count }
        ensures count { self.new.refused ≡ self.old.refused }
        ensures kept { IsPortView self.new.view }
        ensures closing { self.new.closing ≡ self.old.closing }
        ensures reached { IsReached self.new }
    {
        let entry = Entry::Request {
            hart: 0,
            site,
            count,
        };
        put_in(&mut self.ledger, entry);
    }

    /// A single hart is never wanted elsewhere.
    fn try_enter(&mut self, _hold: (), site: u16) -> Entered
        requires known { IsSite self.old.view.plan site }
        requires child { self.old.view.owner ≡ parent self.old.view.plan site }
        ensures does { Enters self.old.view site result self.new.view }
        ensures count { RoseUnlessInside result self.old.refused self.new.refused }
        ensures kept { IsPortView self.new.view }
        ensures not_wanted { result ≡ Entered.NotWanted (shown_word self.old site) }
        ensures closing { self.new.closing ≡ self.old.closing }
        ensures state { self.new.state ≡ self.old.state }
    {
        let shown = self.ledger.site_word(site);
        raise(&mut self.refused);
        Entered::NotWanted { shown }
    }

    /// No call meets the precondition, since a single hart is the home of each site that it is in.
    fn yield_hart(&mut self, _hold: ())
        requires inside { 0 < self.old.view.owner }
        requires guest { is_in self.old.view.homes self.old.view.owner ≡ false }
        ensures does { self.new.view ≡ yielded self.old.view }
        ensures count { self.new.refused ≡ self.old.refused }
        ensures kept { IsPortView self.new.view }
        ensures closing { self.new.closing ≡ self.old.closing }
        ensures reached { IsReached self.new }
    {
        let site = self.ledger.owner(0);
        put_in(&mut self.ledger, Entry::Yield { hart: 0, site });
    }

    fn close_site(&mut self, _hold: ())
        requires home { is_in self.old.view.homes self.old.view.owner ≡ true }
        requires open_yet { is_in self.old.view.closed self.old.view.owner ≡ false }
        ensures does { self.new.view ≡ closes self.old.view }
        ensures count { self.new.refused ≡ self.old.refused }
        ensures kept { IsPortView self.new.view }
        ensures closing { self.new.closing ≡ with_site self.old.closing self.old.view.owner }
        ensures state { self.new.state ≡ self.old.state }
    {
        let site = self.ledger.owner(0);
        self.ledger.mark(site);
        self.closed[site as usize] = true;
    }

    /// Returns true exactly if the site is gone.
    fn see_gone(&mut self, _hold: (), site: u16) -> bool
        requires { IsSite self.old.view.plan site }
        ensures gone { result ≡ true → self.new.view ≡ sees_gone self.old.view site }
        ensures not_yet { result ≡ false → self.new.view ≡ self.old.view }
        ensures alone { self.old.view.alone ≡ true → HasEnded self.old.view site → result ≡ true }
        ensures count { self.new.refused ≡ self.old.refused }
        ensures kept { IsPortView self.new.view }
        ensures exact { IsTrue result ↔ ((row self.old.state site).stage ≡ Stage.Gone) }
        ensures closing { self.new.closing ≡ self.old.closing }
        ensures state { self.new.state ≡ self.old.state }
    {
        if !self.is_gone(site) {
            return false;
        }
        if !self.gone[site as usize] {
            self.gone[site as usize] = true;
            let parent = self.ledger.plan().parent(site);
            self.empty[parent as usize] = false;
        }
        true
    }

    /// Returns `Empty`: a single hart's site has no other hart.
    fn see_empty(&mut self, _hold: ()) -> Seen
        requires home { is_in self.old.view.homes self.old.view.owner ≡ true }
        requires closed { is_in self.old.view.closed self.old.view.owner ≡ true }
        ensures does { Sees self.old.view result self.new.view }
        ensures count { self.new.refused ≡ self.old.refused }
        ensures kept { IsPortView self.new.view }
        ensures exact { result ≡ Seen.Empty }
        ensures closing { self.new.closing ≡ self.old.closing }
        ensures state { self.new.state ≡ self.old.state }
    {
        let site = self.ledger.owner(0);
        self.empty[site as usize] = true;
        Seen::Empty
    }

    fn unregister(&mut self, _hold: ())
        requires { MayUnregister self.old.view }
        ensures does { self.new.view ≡ unregistered self.old.view }
        ensures count { self.new.refused ≡ self.old.refused }
        ensures kept { IsPortView self.new.view }
        ensures closing { self.new.closing ≡ self.old.closing }
        ensures reached { IsReached self.new }
    {
        let site = self.ledger.owner(0);
        put_in(&mut self.ledger, Entry::Unregister { hart: 0, site });
        self.closed[site as usize] = false;
        self.empty[site as usize] = false;
    }
}
