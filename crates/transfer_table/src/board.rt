//! The table of one thread.
ghost use Rattle.std.specs.Prelude.{◌≡◌, ◌≤◌, ◌<◌, ◌+◌, IfErr, IfOk, OnErr, Ok, Err, Some, None, true, false, length, slice_index, slice_index_or, not, ◌&&◌, ◌==◌, ℕ};
ghost use Rattle.transfer_table.specs.Plan.{IsHart, IsSite, IsPlan, parent, site_count};
ghost use Rattle.transfer_table.specs.Table.{admit_of, IsAnswer, common_refusals, first_state, IsPosition, hart_inside, child_left, owner, row, blank, is_gone, is_home, home_number, swept, swept_row, with_row};
ghost use Rattle.transfer_table.specs.Causes.{first_cause};
ghost use Rattle.transfer_table.specs.Journal.{unfinished};
ghost use Rattle.transfer_table.specs.Board.{IsCount, AreEnds, raised};

use crate::entry::{Entry, NotAdmitted, Row, Stage};
use crate::plan::Plan;
use std::alloc::{AllocError, Global};
use std::marker::Model;

/// A plan and a state of its table, which `admit` changes. Contracts see both.
#[derive(Drop)]
pub struct Board {
    plan: Plan,
    owners: Vec<u16>,
    rows: Vec<Row>,
    // For the base and each site, how many of its children aren't gone. So an `Unregister` that
    // is admitted needs no scan of the plan.
    children_left: Vec<u16>,
    // For the base and each site, the greatest site inside it. So a `Skip` visits no site after it.
    ends: Vec<u16>,
}

impl Model for Board {
    ghost use Rattle.transfer_table.specs.Table.{Position};
    ghost use Rattle.transfer_table.specs.Board.{IsBoard};

    ghost Value = { Position };

    ghost view = { λ b. record { plan = b.plan; state = record { owners = b.owners.items; rows = b.rows.items } } };

    ghost invariant = { λ b. IsBoard record {
      plan = b.plan;
      state = record { owners = b.owners.items; rows = b.rows.items };
    } b.children_left.items b.ends.items };
}

impl Board {
    /// The first state of the plan's table: every hart is in the base, and every site is new.
    ///
    /// # Errors
    ///
    /// `AllocError` if an allocation fails.
    ///
    /// # Memory
    ///
    /// It allocates a copy of the plan, the owners, the rows, the counts of children and the greatest sites inside.
    pub fn new(alloc: Global, plan: &Plan) -> Result<Board, AllocError>
        ensures first { IfOk result
            (λ b. b ≡ record { plan = plan.now; state = first_state plan.now }) }
        ensures kept { IfOk result IsPosition }
    {
        let blank = Row {
            stage: Stage::New,
            home: None,
            wishes: 0,
            asked: 0,
        };
        Ok(Board {
            plan: plan.copy(alloc)?,
            owners: vec![in alloc; 0u16; plan.harts() as usize]?,
            rows: vec![in alloc; blank; plan.sites() as usize]?,
            children_left: count_children(alloc, plan)?,
            ends: find_ends(alloc, plan)?,
        })
    }

    /// The plan whose table it is.
    pub fn plan(&self) -> &Plan
        ensures same { result.now ≡ self.now.plan }
        ensures kept { IsPlan self.now.plan }
    {
        &self.plan
    }

    /// The site that holds the hart; 0 is the base. The hart is one of the plan's.
    pub fn owner(&self, hart: u8) -> u16
        requires { IsHart self.now.plan hart }
        ensures same { result ≡ owner self.now.state hart }
        ensures kept { IsPosition self.now }
    {
        self.owners[hart as usize]
    }

    /// The hart that registered the site, if one did. The site is one of the plan's.
    pub fn home(&self, site: u16) -> Option<u8>
        requires { IsSite self.now.plan site }
        ensures same { result ≡ (row self.now.state site).home }
        ensures kept { IsPosition self.now }
    {
        self.rows[site as usize - 1].home
    }

    /// How far the site has come. The site is one of the plan's.
    pub fn stage(&self, site: u16) -> Stage
        requires { IsSite self.now.plan site }
        ensures same { result ≡ (row self.now.state site).stage }
        ensures kept { IsPosition self.now }
    {
        self.rows[site as usize - 1].stage
    }

    /// The number of requested harts that haven't entered the site. The site is one of the plan's.
    pub fn wishes(&self, site: u16) -> u8
        requires { IsSite self.now.plan site }
        ensures same { result ≡ (row self.now.state site).wishes }
        ensures kept { IsPosition self.now }
    {
        self.rows[site as usize - 1].wishes
    }

    /// The number of harts requested for the site in all. The site is one of the plan's.
    pub fn asked(&self, site: u16) -> u8
        requires { IsSite self.now.plan site }
        ensures same { result ≡ (row self.now.state site).asked }
        ensures kept { IsPosition self.now }
    {
        self.rows[site as usize - 1].asked
    }

    /// Applies the entry to the state. Does not allocate.
    ///
    /// # Errors
    ///
    /// The first refusal of the entry, in the order of `NotAdmitted`. The state is then unchanged.
    pub fn admit(&mut self, entry: Entry) -> Result<(), NotAdmitted>
        ensures plan { self.new.plan ≡ self.old.plan }
        ensures ok { IfOk result
            (λ _. admit_of self.old.plan self.old.state entry ≡ Ok self.new.state) }
        ensures err { IfErr result (λ why. admit_of self.old.plan self.old.state entry ≡ Err why) }
        ensures unchanged { OnErr result (self.new ≡ self.old) }
        ensures kept { IsPosition self.new }
    {
        match entry {
            Entry::Register { hart, site } => self.register(hart, site),
            Entry::Request { hart, site, count } => self.request(hart, site, count),
            Entry::Enter { hart, site } => self.enter(hart, site),
            Entry::Yield { hart, site } => self.yield_hart(hart, site),
            Entry::Unregister { hart, site } => self.unregister(hart, site),
            Entry::Skip { hart, site } => self.skip(hart, site),
        }
    }

    fn register(&mut self, hart: u8, site: u16) -> Result<(), NotAdmitted>
        ensures { IsAnswer self.old self.new (Entry.Register hart site) result }
    {
        self.check_owner(hart, site, self.plan.parent(site))?;
        let row = &mut self.rows[site as usize - 1];
        let Stage::New = row.stage else {
            return Err(NotAdmitted::NotNew);
        };
        *row = Row {
            stage: Stage::Live,
            home: Some(hart),
            wishes: 0,
            asked: 0,
        };
        self.owners[hart as usize] = site;
        Ok(())
    }

    fn request(&mut self, hart: u8, site: u16, count: u8) -> Result<(), NotAdmitted>
        ensures { IsAnswer self.old self.new (Entry.Request hart site count) result }
    {
        self.check_owner(hart, site, site)?;
        self.check_home(hart, site)?;
        let most = self.plan.harts() - 1;
        let row = &mut self.rows[site as usize - 1];
        let asked = row.asked as u16 + count as u16;
        if asked > most as u16 {
            return Err(NotAdmitted::TooManyWished { asked: row.asked });
        }
        if count == 0 {
            return Err(NotAdmitted::NoCount);
        }
        row.wishes += count;
        row.asked = asked as u8;
        Ok(())
    }

    fn enter(&mut self, hart: u8, site: u16) -> Result<(), NotAdmitted>
        ensures { IsAnswer self.old self.new (Entry.Enter hart site) result }
    {
        self.check_owner(hart, site, self.plan.parent(site))?;
        let row = &mut self.rows[site as usize - 1];
        let Stage::Live = row.stage else {
            return Err(NotAdmitted::NotLive);
        };
        if row.wishes == 0 {
            return Err(NotAdmitted::NoWish);
        }
        row.wishes -= 1;
        self.owners[hart as usize] = site;
        Ok(())
    }

    fn yield_hart(&mut self, hart: u8, site: u16) -> Result<(), NotAdmitted>
        ensures { IsAnswer self.old self.new (Entry.Yield hart site) result }
    {
        self.check_owner(hart, site, site)?;
        if self.check_home(hart, site).is_ok() {
            return Err(NotAdmitted::IsHome);
        }
        self.owners[hart as usize] = self.plan.parent(site);
        Ok(())
    }

    fn unregister(&mut self, hart: u8, site: u16) -> Result<(), NotAdmitted>
        ensures { IsAnswer self.old self.new (Entry.Unregister hart site) result }
    {
        self.check_owner(hart, site, site)?;
        self.check_home(hart, site)?;
        if let Some(hart) = self.hart_inside(hart, site) {
            return Err(NotAdmitted::HartInside { hart });
        }
        if let Some(site) = self.child_left(site) {
            return Err(NotAdmitted::ChildLeft { site });
        }
        let parent = self.plan.parent(site);
        let row = &mut self.rows[site as usize - 1];
        // The parent's count still counts the site.
        let counted = u16::from(!row.stage.is_gone());
        row.stage = Stage::Gone;
        self.children_left[parent as usize] -= counted;
        self.owners[hart as usize] = parent;
        Ok(())
    }

    fn skip(&mut self, hart: u8, site: u16) -> Result<(), NotAdmitted>
        ensures { IsAnswer self.old self.new (Entry.Skip hart site) result }
    {
        self.check_owner(hart, site, self.plan.parent(site))?;
        let Stage::New = self.rows[site as usize - 1].stage else {
            return Err(NotAdmitted::NotNew);
        };
        self.sweep(site);
        Ok(())
    }

    // Makes the site and all its descendants gone, without a home. Why: descendants needn't be adjacent, so it visits each site
    // from this one to its greatest descendant, and climbs from each to its ancestors.
    fn sweep(&mut self, site: u16)
        requires { IsSite self.old.plan site }
        ensures { self.new ≡ record {
          plan = self.old.plan;
          state = record {
            owners = self.old.state.owners;
            rows = swept self.old.plan site self.old.state.rows 1;
          };
        } }
    {
        for i in site as usize - 1..self.ends[site as usize] as usize {
            if self.plan.is_within(site, i as u16 + 1) {
                self.sweep_one(i as u16 + 1);
            }
        }
    }

    // Makes the site gone, without a home.
    fn sweep_one(&mut self, site: u16)
        requires { IsSite self.old.plan site }
        ensures { self.new ≡ record {
          plan = self.old.plan;
          state = record {
            owners = self.old.state.owners;
            rows = with_row self.old.state site (swept_row (row self.old.state site));
          };
        } }
    {
        let parent = self.plan.parent(site);
        let row = &mut self.rows[site as usize - 1];
        // The parent's count still counts the site.
        let counted = u16::from(!row.stage.is_gone());
        row.stage = Stage::Gone;
        row.home = None;
        self.children_left[parent as usize] -= counted;
    }

    // Checks what every entry needs: the hart and the site are the plan's, and the hart's owner is `wanted`.
    fn check_owner(&self, hart: u8, site: u16, wanted: u16) -> Result<(), NotAdmitted>
        ensures ok { IfOk result
            (λ _. first_cause (common_refusals self.now.plan self.now.state hart site wanted)
            ≡ None) }
        ensures found { IfOk result
            (λ _. (IsHart self.now.plan hart) × (IsSite self.now.plan site)
            × (owner self.now.state hart ≡ wanted)) }
        ensures err { IfErr result
            (λ why. first_cause (common_refusals self.now.plan self.now.state hart site wanted)
            ≡ Some why) }
    {
        if hart >= self.plan.harts() {
            return Err(NotAdmitted::NoSuchHart);
        }
        if site == 0 || site > self.plan.sites() {
            return Err(NotAdmitted::NoSuchSite);
        }
        let owner = self.owners[hart as usize];
        if owner != wanted {
            return Err(NotAdmitted::NotOwner { owner });
        }
        Ok(())
    }

    // The least site that isn't gone.
    pub(crate) fn unfinished(&self) -> Option<u16>
        ensures { result ≡ unfinished self.now.state.rows 1 }
    {
        for i in 0..self.rows.len() {
            if !self.rows[i].stage.is_gone() {
                return Some(i as u16 + 1);
            }
        }
        None
    }

    // Checks that the hart is the site's home.
    fn check_home(&self, hart: u8, site: u16) -> Result<(), NotAdmitted>
        requires { IsSite self.now.plan site }
        ensures ok { IfOk result (λ _. is_home (row self.now.state site).home hart ≡ true) }
        ensures err { IfErr result
            (λ why. (is_home (row self.now.state site).home hart ≡ false)
            × (why ≡ NotAdmitted.NotHome (home_number (row self.now.state site).home))) }
    {
        match self.rows[site as usize - 1].home {
            None => Err(NotAdmitted::NotHome { home: 0 }),
            Some(home) if home != hart => Err(NotAdmitted::NotHome { home }),
            Some(_) => Ok(()),
        }
    }

    // The least other hart whose owner is the site.
    fn hart_inside(&self, hart: u8, site: u16) -> Option<u8>
        ensures { result ≡ hart_inside self.now.state hart site }
    {
        for i in 0..self.owners.len() {
            if self.is_inside(i, hart, site) {
                return Some(i as u8);
            }
        }
        None
    }

    fn is_inside(&self, i: usize, hart: u8, site: u16) -> bool
        requires { i < length self.now.state.owners }
        ensures { result ≡ (not (i == hart) && (slice_index self.now.state.owners i == site)) }
    {
        i != hart as usize && self.owners[i] == site
    }

    // The least child of the site that isn't gone. It scans the plan only if there is one.
    fn child_left(&self, site: u16) -> Option<u16>
        requires { IsSite self.now.plan site }
        ensures { result ≡ child_left self.now.plan self.now.state site }
    {
        if self.children_left[site as usize] == 0 {
            return None;
        }
        for i in 0..self.rows.len() {
            if self.is_left(i, site) {
                return Some(i as u16 + 1);
            }
        }
        None
    }

    fn is_left(&self, i: usize, site: u16) -> bool
        requires { i < site_count self.now.plan }
        ensures { result ≡ ((slice_index self.now.plan.parents i == site)
            && not (is_gone (slice_index_or self.now.state.rows i blank).stage)) }
    {
        self.plan.parent(i as u16 + 1) == site && !self.rows[i].stage.is_gone()
    }
}

// For the base and each site, how many children it has.
fn count_children(alloc: Global, plan: &Plan) -> Result<Vec<u16>, AllocError>
    ensures { IfOk result (λ counts. IsCount plan.now (first_state plan.now).rows counts.items) }
{
    let mut counts = vec![in alloc; 0u16; plan.sites() as usize + 1]?;
    for i in 0..plan.sites() {
        counts[plan.parent(i + 1) as usize] += 1;
    }
    Ok(counts)
}

// For the base and each site, the greatest site inside it. Why it begins with the greatest site: the sites inside a site have
// then been visited before it.
fn find_ends(alloc: Global, plan: &Plan) -> Result<Vec<u16>, AllocError>
    ensures { IfOk result (λ ends. AreEnds plan.now ends.items) }
{
    let mut ends = vec![in alloc; 0u16; plan.sites() as usize + 1]?;
    for i in (0..plan.sites()).rev() {
        let site = i + 1;
        raise(&mut ends, site, site);
        let end = ends[site as usize];
        raise(&mut ends, plan.parent(site), end);
    }
    Ok(ends)
}

// Raises the greatest site inside a site to this one, unless it is greater.
fn raise(ends: &mut Vec<u16>, site: u16, end: u16)
    requires { site < length ends.old.items }
    ensures { ends.new.items ≡ raised ends.old.items site end }
{
    ends[site as usize] = ends[site as usize].max(end);
}
