//! Where each hart is at each place.
ghost use Rattle.std.specs.Prelude.{◌≡◌, ◌++◌, ◌≤◌, IfOk, OnOk, length, replicate};
ghost use Rattle.transfer_table.specs.Plan.{most_entries};
ghost use Rattle.journal_picture.specs.TextPicture.{lanes_of, last_or, places_of, sites_of};

use crate::stay::{Stay, stays_of};
use std::alloc::{AllocError, Global};
use std::marker::Model;
use transfer_table::{Entry, Plan};

/// The site of each place, for one hart. Contracts see it as a list.
#[derive(Drop)]
pub(crate) struct Lane {
    sites: Vec<u16>,
}

impl Model for Lane {
    ghost use Rattle.std.specs.Prelude.{ℕ, List};

    ghost Value = { List ℕ };

    ghost view = { λ lane. lane.sites.items };
}

impl Lane {
    /// The sites as a slice.
    pub(crate) fn sites(&self) -> &[u16]
        ensures { result.now ≡ self.now }
    {
        self.sites.as_slice()
    }
}

/// The lane of each hart of the plan.
pub(crate) fn lanes_of(alloc: Global, plan: &Plan, list: &[Entry]) -> Result<Vec<Lane>, AllocError>
    requires { length list.now ≤ most_entries }
    ensures { IfOk result (λ lanes. lanes.items ≡ lanes_of plan.now list.now 0 plan.now.harts) }
{
    let mut lanes = Vec::new(alloc);
    for hart in 0..plan.harts() {
        let stays = stays_of(alloc, plan, hart, list)?;
        lanes.push(lane_of(alloc, &stays, list.len())?)?;
    }
    Ok(lanes)
}

// The lane of these stays, in a list whose last place is this.
fn lane_of(alloc: Global, stays: &[Stay], end: usize) -> Result<Lane, AllocError>
    requires { end ≤ most_entries }
    ensures { IfOk result (λ lane. lane ≡ sites_of end stays.now) }
{
    let mut sites = Vec::new(alloc);
    for stay in stays {
        add_sites(&mut sites, stay.site, places_of(*stay, end))?;
    }
    Ok(Lane { sites })
}

// How many places the stay has, in a list whose last place is this.
fn places_of(stay: Stay, end: usize) -> usize
    requires { end ≤ most_entries }
    ensures same { result ≡ places_of end stay }
    ensures few { result ≤ 4294967296 }
{
    (last_or(end, stay.last) + 1).saturating_sub(stay.first as usize)
}

/// The last place of a stay, in a list whose last place is this.
pub(crate) fn last_or(end: usize, last: Option<u32>) -> usize
    requires { end ≤ most_entries }
    ensures same { result ≡ last_or end last }
    ensures few { result ≤ 4294967295 }
{
    match last {
        None => end,
        Some(last) => last as usize,
    }
}

// Adds a site so many times.
fn add_sites(sites: &mut Vec<u16>, site: u16, count: usize) -> Result<(), AllocError>
    ensures { OnOk result (sites.new.items ≡ sites.old.items ++ replicate count site) }
{
    for _i in 0..count {
        sites.push(site)?;
    }
    Ok(())
}
