//! Where a hart was, and from when to when.
ghost use Rattle.std.specs.Prelude.{◌≡◌, ◌≤◌, ◌+◌, IfOk, length, vec_len};
ghost use Rattle.transfer_table.specs.Plan.{Plan, most_entries};
ghost use Rattle.journal_picture.specs.Stays.{goes_to, stays_of};

use std::alloc::{AllocError, Global};
use transfer_table::{Entry, Plan};

/// A stay of a hart at a site; site 0 is the base.
///
/// The places of a list are numbered from 0: place `k` is before the entry `k`, and the last place is behind all entries.
#[derive(Clone, Copy, Debug, PartialEq, Eq)]
pub struct Stay {
    pub hart: u8,
    pub site: u16,
    /// The first place at which the hart is there: 0, or the place behind the entry that brings it.
    pub first: u32,
    /// The place of the entry that takes the hart away, which is the last place of the stay. A hart that stays has none.
    pub last: Option<u32>,
}

/// The stays of the hart, one after another, by a list of at most 65,535 entries.
///
/// # Errors
///
/// `AllocError` if an allocation fails.
pub fn stays_of(
    alloc: Global,
    plan: &Plan,
    hart: u8,
    list: &[Entry],
) -> Result<Vec<Stay>, AllocError>
    requires { length list.now ≤ most_entries }
    ensures stays { IfOk result (λ stays. stays.items ≡ stays_of plan.now hart list.now) }
    ensures few { IfOk result (λ stays. vec_len stays ≤ length list.now + 1) }
{
    let mut stays = Vec::new(alloc);
    let (mut site, mut first) = (0u16, 0u32);
    for (place, entry) in list.iter().enumerate() {
        if let Some(next) = goes_to(plan, hart, *entry) {
            stays.push(Stay {
                hart,
                site,
                first,
                last: Some(place as u32),
            })?;
            site = next;
            first = place as u32 + 1;
        }
    }
    stays.push(Stay {
        hart,
        site,
        first,
        last: None,
    })?;
    Ok(stays)
}

// The site to which the entry takes the hart, if it moves it.
fn goes_to(plan: &Plan, hart: u8, entry: Entry) -> Option<u16>
    ensures { result ≡ goes_to plan.now hart entry }
{
    match entry {
        Entry::Register { hart: mover, site } | Entry::Enter { hart: mover, site } => {
            if mover == hart { Some(site) } else { None }
        }
        Entry::Yield { hart: mover, site } | Entry::Unregister { hart: mover, site } => {
            if mover == hart {
                Some(plan.parent(site))
            } else {
                None
            }
        }
        Entry::Request { .. } | Entry::Skip { .. } => None,
    }
}
