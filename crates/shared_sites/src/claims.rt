//! The claim counters of a run, and the counters of each site.
ghost use Rattle.std.specs.Prelude.{◌≡◌, ◌≤◌, ℕ, IfOk, OnOk, None, ◌++◌, length, map, replicate, take, vec_len};
ghost use Rattle.std.specs.Option.{ForSome};
ghost use Rattle.claim_words.specs.Seats.{AreAll, identity};
ghost use Rattle.claim_words.specs.declared.table.TheConstants.{MOST_ROWS};
ghost use Rattle.loop_team.specs.Rows.{RowsFit};
ghost use Rattle.shared_sites.specs.ClaimRows.{claim_rows, shape_of, at_site, AreBehind, IsFirstRow};

use claim_words::MOST_ROWS;
use disjoint_check::Accepted;
use loop_team::{ClaimSeat, ClaimTable, rows_fit};
use std::alloc::{AllocError, Global};
use step_eval::Nested;

// The counters of a site.
#[derive(Clone, Copy)]
pub(crate) struct SiteRows {
    // The site's depth: 1 if no site is around it. Only levels up to 3 have deques.
    level: u8,
    // The claim counter of a `team`'s first phase.
    first: u16,
    // The members of a `team`, the branches of a `par`.
    members: u8,
    // The number of phases of a `team`; 0 for a `par`.
    phases: u8,
}

/// The claim counters of a run: one for each phase of each `team`, in the order of the sites and then of the phases.
#[derive(Drop)]
pub struct Claims {
    pub(crate) table: ClaimTable,
    pub(crate) sites: Vec<SiteRows>,
    pub ghost rows: { table.counts.items ≡ claim_rows (map shape_of sites.items) },
    pub ghost behind: { AreBehind sites.items },
}

impl Claims {
    /// The claim counters of a program, and a seat for each of `harts` harts. Sites for which the table has no further counter
    /// have none, and the home of such a site computes its construct.
    ///
    /// The sites' shapes are those that the check found.
    ///
    /// # Errors
    ///
    /// `AllocError` if an allocation fails.
    ///
    /// # Memory
    ///
    /// It allocates the table, the seats and an entry for each site.
    pub fn new(
        alloc: Global,
        accepted: &Accepted<'_>,
        harts: u8,
    ) -> Result<(Claims, Vec<ClaimSeat>), AllocError>
        requires { 1 ≤ harts }
        ensures count { IfOk result (λ t. vec_len t.1 ≡ harts) }
        ensures all { IfOk result (λ t. AreAll t.0.table (map identity t.1.items)) }
        ensures rows { IfOk result (λ t. t.0.table.counts.items ≡ claim_rows accepted.now.shapes) }
        ensures sites { IfOk result (λ t. map shape_of t.0.sites.items ≡ accepted.now.shapes) }
    {
        let (sites, counts) = site_rows(alloc, accepted)?;
        let (table, seats) = ClaimTable::new(alloc, counts.as_slice(), harts)?;
        Ok((Claims { table, sites }, seats))
    }

    /// The level of a site. A site that isn't one of the program's has level 0, which has no deques.
    pub(crate) fn level(&self, site: u16) -> u8 {
        level_in(&self.sites, site)
    }

    /// The claim counter of the first phase of a `team`. `None` exactly if its site hasn't counters for exactly the team's phases
    /// and members.
    pub(crate) fn row_of(&self, nested: &Nested<'_>) -> Option<u16>
        ensures fits { ForSome result (λ row. RowsFit self.now.table.counts.items row nested.now) }
        ensures first { ForSome result
            (λ row. IsFirstRow (map shape_of self.now.sites.items) nested.now row) }
        ensures none { result ≡ None → (row : ℕ)
            → IsFirstRow (map shape_of self.now.sites.items) nested.now row
            → RowsFit self.now.table.counts.items row nested.now → ⊥ }
    {
        let rows = rows_of(&self.sites, nested.site)?;
        if rows.phases != nested.phases() {
            return None;
        }
        if rows_fit(&self.table, rows.first, nested) {
            Some(rows.first)
        } else {
            None
        }
    }

    /// The table of the counters.
    pub fn into_table(self) -> ClaimTable
        ensures { result ≡ self.table }
    {
        let Claims { table, sites: _ } = self;
        table
    }
}

// The counters of a site, at the index before its number.
fn rows_of(sites: &[SiteRows], site: u16) -> Option<SiteRows>
    ensures { result ≡ at_site sites.now site }
{
    if site == 0 {
        return None;
    }
    sites.get(usize::from(site) - 1).copied()
}

// The level of a site, by the entries of all sites up to it.
fn level_in(sites: &[SiteRows], site: u16) -> u8 {
    match rows_of(sites, site) {
        Some(rows) => rows.level,
        None => 0,
    }
}

// The counters of each site, and the members of each counter.
fn site_rows(alloc: Global, accepted: &Accepted<'_>) -> Result<(Vec<SiteRows>, Vec<u8>), AllocError>
    ensures sites { IfOk result (λ t. map shape_of t.0.items ≡ accepted.now.shapes) }
    ensures rows { IfOk result (λ t. t.1.items ≡ claim_rows (map shape_of t.0.items)) }
    ensures behind { IfOk result (λ t. AreBehind t.0.items) }
    ensures few { IfOk result (λ t. vec_len t.1 ≤ MOST_ROWS) }
{
    let plan = accepted.plan();
    let mut sites: Vec<SiteRows> = Vec::with_capacity(alloc, usize::from(plan.sites()))?;
    let mut counts = Vec::new(alloc);
    for index in 0..plan.sites() {
        let level = level_in(&sites, plan.parent(index + 1)).saturating_add(1);
        let (members, phases) = accepted.shape(index + 1);
        let first = counts.len() as u16;
        add_rows(&mut counts, members, phases)?;
        sites.push(SiteRows {
            level,
            first,
            members,
            phases,
        })?;
    }
    Ok((sites, counts))
}

// Adds a claim counter for each phase, as long as there is room.
fn add_rows(counts: &mut Vec<u8>, members: u8, phases: u8) -> Result<(), AllocError>
    requires { length counts.old.items ≤ MOST_ROWS }
    ensures { OnOk result
        (counts.new.items ≡ take MOST_ROWS (counts.old.items ++ replicate phases members)) }
{
    for done in 0..phases {
        if counts.len() < MOST_ROWS {
            counts.push(members)?;
        }
    }
    Ok(())
}
