//! How many harts there are, and the tree of the sites.
ghost use Rattle.std.specs.Prelude.{◌≡◌, ◌≢◌, ◌≤◌, ◌<◌, ◌*◌, ◌-◌, ◌||◌, nat_lt, length, IfOk, Some, None};
ghost use Rattle.transfer_table.specs.Plan.{IsPlan, IsSite, bad_parent, is_within, most_entries, most_sites, parent, plan_fault_of, site_count};

use std::alloc::{AllocError, Global};
use std::marker::Model;

/// The greatest number of harts.
const MOST_HARTS: u8 = 16;

/// The greatest number of sites.
const MOST_SITES: u64 = 4095;

/// The greatest number of entries of a legal list, for which a plan may have room.
pub const MOST_ENTRIES: u32 = 65_535;

/// A number of harts from 1 to 16, and a parent for each of at most 4,095 sites, whose number times `3 * harts - 1`,
/// the length of the longest legal list, is at most 65,535. Sites are numbered from 1, a site's parent is smaller than
/// the site, and site 0 is the base.
#[derive(Drop)]
pub struct Plan {
    harts: u8,
    parents: Vec<u16>,
}

impl Model for Plan {
    ghost use Rattle.transfer_table.specs.Plan.{Plan, IsPlan};

    ghost Value = { Plan };

    ghost view = { λ p. record { harts = p.harts; parents = p.parents.items } };

    ghost invariant = { λ p. IsPlan record { harts = p.harts; parents = p.parents.items } };
}

/// Why `Plan::new` refuses: the first cause in this order.
#[derive(Clone, Copy, Debug, PartialEq, Eq)]
pub enum PlanFault {
    /// The number of harts isn't from 1 to 16.
    BadHarts { found: u8 },
    /// There are more than 4,095 parents, or their number times `3 * harts - 1` is above 65,535.
    TooManySites { found: u64 },
    /// The least site whose parent isn't smaller than it.
    BadParent { site: u16 },
    /// An allocation failed.
    Memory,
}

impl From<AllocError> for PlanFault {
    ghost use Rattle.transfer_table.specs.declared.plan.PlanFault.TheVariants.{Memory};

    ghost from_gives = { λ _ f. f ≡ Memory };

    fn from(_: AllocError) -> PlanFault {
        PlanFault::Memory
    }
}

impl Plan {
    /// The plan with so many harts, from 1 to 16, and these parents; the parent of site `s` is at index `s - 1`.
    ///
    /// # Errors
    ///
    /// The first fault in the order of `PlanFault`; `PlanFault::Memory` if the allocation fails.
    ///
    /// # Memory
    ///
    /// It allocates one list of parents.
    pub fn new(alloc: Global, harts: u8, parents: &[u16]) -> Result<Plan, PlanFault>
        ensures plan { IfOk result (λ p. p ≡ record { harts = harts; parents = parents.now }) }
        ensures kept { IfOk result IsPlan }
        ensures fault { (why : PlanFault) → plan_fault_of harts parents.now ≡ Some why
            → result ≡ Err why }
        ensures only { (why : PlanFault) → result ≡ Err why → why ≢ PlanFault.Memory
            → plan_fault_of harts parents.now ≡ Some why }
    {
        if let Some(fault) = fault_of(harts, parents) {
            return Err(fault);
        }
        let parents = Vec::from_slice(alloc, parents)?;
        Ok(Plan { harts, parents })
    }

    /// The number of harts, from 1 to 16.
    pub fn harts(&self) -> u8
        ensures same { result ≡ self.now.harts }
        ensures kept { IsPlan self.now }
    {
        self.harts
    }

    /// The number of sites, at most 4,095.
    pub fn sites(&self) -> u16
        ensures same { result ≡ length self.now.parents }
        ensures kept { IsPlan self.now }
    {
        self.parents.len() as u16
    }

    /// The parent of the site; 0 for a site that isn't in the plan.
    pub fn parent(&self, site: u16) -> u16
        ensures same { result ≡ parent self.now site }
        ensures below { IsSite self.now site → result < site }
        ensures outside { ¬ IsSite self.now site → result ≡ 0 }
        ensures kept { IsPlan self.now }
    {
        let parents = self.parents.as_slice();
        if site == 0 {
            return 0;
        }
        parents.get(site as usize - 1).copied().unwrap_or(0)
    }

    // Whether the site is this one or a descendant of it.
    pub(crate) fn is_within(&self, around: u16, site: u16) -> bool
        requires { site ≤ site_count self.now }
        ensures { result ≡ is_within self.now around site }
    {
        let mut at = site;
        while at > around {
            at = self.parent(at);
        }
        at == around
    }

    /// Returns an equal plan.
    ///
    /// Why: there is no `Clone`, since a copy may return an allocation failure.
    ///
    /// # Memory
    ///
    /// It allocates one list of parents.
    ///
    /// # Errors
    ///
    /// `AllocError` if that allocation fails.
    pub fn copy(&self, alloc: Global) -> Result<Plan, AllocError>
        ensures same { IfOk result (λ p. p ≡ self.now) }
        ensures kept { IsPlan self.now }
    {
        let parents = Vec::from_slice(alloc, self.parents.as_slice())?;
        Ok(Plan {
            harts: self.harts,
            parents,
        })
    }
}

// The first fault other than an allocation failure.
fn fault_of(harts: u8, parents: &[u16]) -> Option<PlanFault>
    ensures { result ≡ plan_fault_of harts parents.now }
{
    if harts == 0 || harts > MOST_HARTS {
        return Some(PlanFault::BadHarts { found: harts });
    }
    if has_too_many_sites(harts, parents.len() as u64) {
        return Some(PlanFault::TooManySites {
            found: parents.len() as u64,
        });
    }
    bad_parent(parents).map(|site| PlanFault::BadParent { site })
}

/// Whether no plan has so many sites, by their number or by the room for entries on so many harts.
pub fn has_too_many_sites(harts: u8, sites: u64) -> bool
    requires { (1 ≤ harts) × (harts ≤ 16) }
    ensures { result ≡ (nat_lt most_sites sites || nat_lt most_entries (sites * (3 * harts - 1))) }
{
    sites > MOST_SITES || sites * (3 * u64::from(harts) - 1) > u64::from(MOST_ENTRIES)
}

// The least site whose parent isn't smaller.
fn bad_parent(parents: &[u16]) -> Option<u16>
    requires { length parents.now ≤ most_sites }
    ensures { result ≡ bad_parent parents.now 1 }
{
    for i in 0..parents.len() {
        if parents[i] as usize > i {
            return Some(i as u16 + 1);
        }
    }
    None
}
