//! Plans with their children in order.
ghost use Rattle.std.specs.Prelude.{◌≡◌, ◌≤◌, ◌-◌, ◌↔◌, IsTrue, IfOk};
ghost use Rattle.transfer_table.specs.Plan.{Plan, IsPlan, IsSite, parent, site_count};
ghost use Rattle.site_steps.specs.Children.{NextChild, AreLinkedFrom, site_if};

use std::alloc::{AllocError, Global};
use std::marker::Model;
use transfer_table::Plan;

/// A plan, with the children of each site in rising order. Going through a site's children reads no other site.
///
/// Contracts see the tree as the plan.
#[derive(Drop)]
pub struct SiteTree {
    plan: Plan,
    // For the base and for each site, its least child, or 0.
    first: Vec<u16>,
    // For each site, the next child of its parent, or 0.
    next: Vec<u16>,
}

impl Model for SiteTree {
    ghost use Rattle.transfer_table.specs.Plan.{Plan};
    ghost use Rattle.site_steps.specs.Children.{AreLinked};

    ghost Value = { Plan };

    ghost view = { λ tree. tree.plan };

    ghost invariant = { λ tree. AreLinked tree.plan tree.first.items tree.next.items };
}

impl SiteTree {
    /// The tree of a plan's sites.
    ///
    /// # Errors
    ///
    /// `AllocError` if an allocation fails.
    ///
    /// # Memory
    ///
    /// It allocates two links and a copy of the parent for each site.
    pub fn new(alloc: Global, plan: &Plan) -> Result<SiteTree, AllocError>
        ensures { IfOk result (λ tree. tree ≡ plan.now) }
    {
        let sites = plan.sites();
        let mut first = vec![in alloc; 0; usize::from(sites) + 1]?;
        let mut next = vec![in alloc; 0; usize::from(sites) + 1]?;
        for linked in 0..sites {
            link(plan, sites - linked, &mut first, &mut next);
        }
        let plan = plan.copy(alloc)?;
        Ok(SiteTree { plan, first, next })
    }

    /// The plan.
    pub fn plan(&self) -> &Plan
        ensures same { result.now ≡ self.now }
        ensures kept { IsPlan self.now }
    {
        // Why: reading the number of sites makes the plan's invariant known.
        let _ = self.plan.sites();
        &self.plan
    }

    /// The least child of the base or of a site, if it has one.
    pub fn first_child(&self, site: u16) -> Option<u16>
        requires { site ≤ site_count self.now }
        ensures { NextChild self.now site 0 result }
    {
        some_site(self.first[usize::from(site)])
    }

    /// The next child of the site's parent, if it has one.
    pub fn next_sibling(&self, site: u16) -> Option<u16>
        requires { IsSite self.now site }
        ensures { NextChild self.now (parent self.now site) site result }
    {
        some_site(self.next[usize::from(site)])
    }

    /// Whether `site` is a site of the plan whose parent is `around`.
    pub fn is_child(&self, around: u16, site: u16) -> bool
        ensures { IsTrue result ↔ (IsSite self.now site × (parent self.now site ≡ around)) }
    {
        1 <= site && site <= self.plan.sites() && self.plan.parent(site) == around
    }
}

// The site with this number; 0 is no site.
fn some_site(number: u16) -> Option<u16>
    ensures { result ≡ site_if number }
{
    if number == 0 { None } else { Some(number) }
}

// Links a site before the children of its parent, all of which have greater numbers.
fn link(plan: &Plan, site: u16, first: &mut [u16], next: &mut [u16])
    requires plan { IsPlan plan.now }
    requires site { IsSite plan.now site }
    requires linked { AreLinkedFrom plan.now site first.old next.old }
    ensures { AreLinkedFrom plan.now (site - 1) first.new next.new }
{
    let around = usize::from(plan.parent(site));
    next[usize::from(site)] = first[around];
    first[around] = site;
}
