//! How many entries a hart made, how many stays it had, and how many sites it visited.
ghost use Rattle.std.specs.Prelude.{◌≡◌, ◌||◌, ◌==◌, ◌≤◌, ◌-◌, ℕ, IfOk, false, length, slice_index_or};
ghost use Rattle.transfer_table.specs.Entry.{hart_of, made_by};
ghost use Rattle.transfer_table.specs.Plan.{most_entries};
ghost use Rattle.journal_picture.specs.Travels.{is_visited, seen_up_to, travels_in, travels_of, visited_up_to};

use crate::stay::{Stay, stays_of};
use crate::text::hart_of;
use std::alloc::{AllocError, Global};
use transfer_table::{Entry, Plan};

/// What a list shows of a hart.
#[derive(Clone, Copy, Debug, PartialEq, Eq)]
pub struct Travels {
    /// How many entries the hart made.
    pub entries: u32,
    /// How many stays the hart had, those in the base included.
    pub stays: u32,
    /// At how many sites the hart was, the base not included. A site counts once.
    pub sites: u16,
}

/// The numbers of each hart, by a list of at most 65,535 entries.
///
/// # Errors
///
/// `AllocError` if an allocation fails.
pub fn travels_of(alloc: Global, plan: &Plan, list: &[Entry]) -> Result<Vec<Travels>, AllocError>
    requires { length list.now ≤ most_entries }
    ensures same { IfOk result (λ travels. travels.items ≡ travels_of plan.now list.now) }
    ensures each { IfOk result (λ travels. length travels.items ≡ plan.now.harts) }
{
    let mut travels = Vec::new(alloc);
    for hart in 0..plan.harts() {
        travels.push(travels_in(alloc, plan, list, hart)?)?;
    }
    Ok(travels)
}

// The numbers of a hart.
fn travels_in(alloc: Global, plan: &Plan, list: &[Entry], hart: u8) -> Result<Travels, AllocError>
    requires { length list.now ≤ most_entries }
    ensures { IfOk result (λ travels. travels ≡ travels_in plan.now list.now hart) }
{
    let stays = stays_of(alloc, plan, hart, list)?;
    Ok(Travels {
        entries: made_by(list, hart),
        stays: stays.len() as u32,
        sites: sites_in(alloc, &stays, plan.sites())?,
    })
}

// How many of the entries the hart made.
fn made_by(list: &[Entry], hart: u8) -> u32
    requires { length list.now ≤ most_entries }
    ensures { result ≡ length (made_by hart list.now) }
{
    let mut made = 0u32;
    for entry in list {
        if hart_of(*entry) == hart {
            made += 1;
        }
    }
    made
}

// At how many of the plan's sites a stay is.
fn sites_in(alloc: Global, stays: &[Stay], sites: u16) -> Result<u16, AllocError>
    ensures { IfOk result (λ visited. visited ≡ visited_up_to stays.now sites) }
{
    let seen = sites_seen(alloc, stays, sites)?;
    Ok(seen_count(&seen))
}

// Whether a stay is at each of so many sites, that of site `s` at index `s - 1`.
fn sites_seen(alloc: Global, stays: &[Stay], sites: u16) -> Result<Vec<bool>, AllocError>
    ensures size { IfOk result (λ seen. length seen.items ≡ sites) }
    ensures each { IfOk result (λ seen. (s : ℕ) → 1 ≤ s → s ≤ sites
        → slice_index_or seen.items (s - 1) false ≡ is_visited stays.now s) }
{
    let mut seen = vec![in alloc; false; sites as usize]?;
    for stay in stays {
        see(&mut seen, stay.site);
    }
    Ok(seen)
}

// A stay is at this site.
fn see(seen: &mut Vec<bool>, site: u16)
    ensures size { length seen.new.items ≡ length seen.old.items }
    ensures each { (s : ℕ) → 1 ≤ s → s ≤ length seen.old.items
        → slice_index_or seen.new.items (s - 1) false
        ≡ ((site == s) || slice_index_or seen.old.items (s - 1) false) }
{
    if site == 0 || site as usize > seen.len() {
        return;
    }
    seen[site as usize - 1] = true;
}

// How many of the sites are marked.
fn seen_count(seen: &[bool]) -> u16
    requires { length seen.now ≤ 65535 }
    ensures { result ≡ seen_up_to seen.now (length seen.now) }
{
    let mut count = 0u16;
    for i in 0..seen.len() {
        if seen[i] {
            count += 1;
        }
    }
    count
}
