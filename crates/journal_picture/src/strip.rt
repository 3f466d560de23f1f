//! What stands in the strip under the lanes.
ghost use Rattle.std.specs.Prelude.{◌≡◌, ◌==◌, ◌&&◌, nat_le, IfOk};
ghost use Rattle.transfer_table.specs.Plan.{IsSite, parent, site_count};
ghost use Rattle.transfer_table.specs.Table.{admit_of, row};
ghost use Rattle.journal_picture.specs.Drawn.{or_same};
ghost use Rattle.journal_picture.specs.Strip.{HasWishesWithin, figures_of, idle_in, strip_of, unmet_in, unmet_of, wishing_up_to};

use crate::drawn::admit;
use crate::text::site_of;
use std::alloc::{AllocError, Global};
use transfer_table::{Board, Entry, Plan, Stage};

/// What the strip has for a place: by the state of the table there.
#[derive(Clone, Copy, Debug, PartialEq, Eq)]
pub struct Figures {
    /// The unmet wishes of all live sites.
    pub unmet: u32,
    /// How many harts are in the base, but for hart 0, which runs the program's body there.
    pub idle: u8,
    /// Whether a hart is idle while a live child of the base has an unmet wish: what a lender missed.
    pub missed: bool,
}

/// A range of sites: of all sites, only those numbered from `low + 1` to `high` may have unmet wishes.
///
/// Why: a journal has up to 4,095 sites, of which few have a wish at any one place, so the strip needn't look at all of them there.
#[derive(Clone, Copy)]
pub(crate) struct Wishing {
    low: u16,
    high: u16,
}

impl Wishing {
    /// The range before the first entry, when no site has a wish.
    pub(crate) fn none() -> Wishing
        ensures { (result.low ≡ 0) × (result.high ≡ 0) }
    {
        Wishing { low: 0, high: 0 }
    }
}

/// The figures of each place of a list. The figures of place `k` are those of the state after `k` entries; a refused entry changes
/// nothing.
///
/// # Errors
///
/// `AllocError` if an allocation fails.
pub fn strip_of(alloc: Global, plan: &Plan, list: &[Entry]) -> Result<Vec<Figures>, AllocError>
    ensures { IfOk result (λ strip. strip.items ≡ strip_of plan.now list.now) }
{
    let mut board = Board::new(alloc, plan)?;
    let mut wishing = Wishing::none();
    let mut strip = Vec::new(alloc);
    for entry in list {
        strip.push(figures_of(&board, wishing))?;
        wishing = admit_and_follow(&mut board, wishing, *entry);
    }
    strip.push(figures_of(&board, wishing))?;
    Ok(strip)
}

/// Admits the entry, or leaves the table as it is. It returns the range of the sites that may have wishes then.
pub(crate) fn admit_and_follow(board: &mut Board, wishing: Wishing, entry: Entry) -> Wishing
    requires { HasWishesWithin board.old.plan board.old.state wishing.low wishing.high }
    ensures board { board.new ≡ record {
      plan = board.old.plan;
      state = or_same board.old.state (admit_of board.old.plan board.old.state entry);
    } }
    ensures within { HasWishesWithin board.new.plan board.new.state result.low result.high }
{
    admit(board, entry);
    let place = site_of(entry).saturating_sub(1);
    if place >= board.plan().sites() {
        return wishing;
    }
    let low = if place < wishing.low {
        place
    } else {
        wishing.low
    };
    let high = if wishing.high <= place {
        place + 1
    } else {
        wishing.high
    };
    Wishing {
        low: first_wish(board, low, high),
        high,
    }
}

// The greatest lower end of the range.
fn first_wish(board: &Board, low: u16, high: u16) -> u16
    requires { HasWishesWithin board.now.plan board.now.state low high }
    ensures { HasWishesWithin board.now.plan board.now.state result high }
{
    for i in low..high {
        if unmet_of(board, i + 1) > 0 {
            return i;
        }
    }
    high
}

/// The figures of a state.
pub(crate) fn figures_of(board: &Board, wishing: Wishing) -> Figures
    requires { HasWishesWithin board.now.plan board.now.state wishing.low wishing.high }
    ensures { result ≡ figures_of board.now.plan board.now.state }
{
    let idle = idle_in(board);
    let (unmet, some) = wishes_in(board, wishing);
    Figures {
        unmet,
        idle,
        missed: idle >= 1 && some,
    }
}

// The unmet wishes of all live sites, and whether a child of the base has one.
fn wishes_in(board: &Board, wishing: Wishing) -> (u32, bool)
    requires { HasWishesWithin board.now.plan board.now.state wishing.low wishing.high }
    ensures unmet { result.0 ≡ unmet_in board.now.plan board.now.state }
    ensures wishing { result.1
        ≡ wishing_up_to board.now.plan board.now.state (site_count board.now.plan) }
{
    let (mut total, mut some) = (0u32, false);
    for i in wishing.low..wishing.high {
        let unmet = unmet_of(board, i + 1);
        some = some || is_wishing(board.plan(), i + 1, unmet);
        total += u32::from(unmet);
    }
    (total, some)
}

// The unmet wishes of a site; one that isn't live has none.
fn unmet_of(board: &Board, site: u16) -> u8
    requires { IsSite board.now.plan site }
    ensures { result ≡ unmet_of (row board.now.state site) }
{
    match board.stage(site) {
        Stage::Live => board.wishes(site),
        Stage::New | Stage::Gone => 0,
    }
}

// How many harts are in the base, but for hart 0.
fn idle_in(board: &Board) -> u8
    ensures { result ≡ idle_in board.now.plan board.now.state }
{
    let mut idle = 0u8;
    for i in 0..board.plan().harts() - 1 {
        if board.owner(i + 1) == 0 {
            idle += 1;
        }
    }
    idle
}

// Whether a site with so many unmet wishes is a child of the base and has one.
fn is_wishing(plan: &Plan, site: u16, unmet: u8) -> bool
    ensures { result ≡ ((parent plan.now site == 0) && nat_le 1 unmet) }
{
    plan.parent(site) == 0 && unmet >= 1
}
