//! How many guests a site had at once, and how many entries harts made in it.
ghost use Rattle.std.specs.Prelude.{◌≡◌, ℕ, ◌==◌, ◌≤◌, ◌&&◌, not, IfOk, length, slice_index};
ghost use Rattle.transfer_table.specs.Plan.{IsHart, IsSite, most_entries, site_count};
ghost use Rattle.transfer_table.specs.Table.{admit_of, is_home};
ghost use Rattle.journal_picture.specs.Drawn.{or_same};
ghost use Rattle.journal_picture.specs.Visits.{followed, guests_below, guests_in, site_at, visits_at, visits_of, with_entry, with_guests};

use crate::drawn::admit;
use crate::text::hart_of;
use std::alloc::{AllocError, Global};
use transfer_table::{Board, Entry, Plan, Stage};

/// What the states of a list show of a site.
#[derive(Clone, Copy, Debug, PartialEq, Eq)]
pub struct Visits {
    /// The greatest number of guests at once: harts in the site, other than its home.
    pub guests: u8,
    /// How many entries harts made while they were in the site.
    pub entries: u32,
}

/// The numbers of each site, that of site `s` at index `s - 1`, by a list of at most 65,535 entries. A refused entry changes nothing.
///
/// # Errors
///
/// `AllocError` if an allocation fails.
pub fn visits_of(alloc: Global, plan: &Plan, list: &[Entry]) -> Result<Vec<Visits>, AllocError>
    requires { length list.now ≤ most_entries }
    ensures same { IfOk result (λ visits. visits.items ≡ visits_of plan.now list.now) }
    ensures each { IfOk result (λ visits. length visits.items ≡ site_count plan.now) }
{
    let none = Visits {
        guests: 0,
        entries: 0,
    };
    let mut board = Board::new(alloc, plan)?;
    let mut visits = vec![in alloc; none; plan.sites() as usize]?;
    for entry in list {
        follow(&mut board, &mut visits, *entry);
    }
    Ok(visits)
}

// Admits the entry, or leaves the table as it is, and follows its hart.
fn follow(board: &mut Board, visits: &mut Vec<Visits>, entry: Entry)
    requires size { length visits.old.items ≡ site_count board.old.plan }
    requires few { (s : ℕ) → 1 ≤ s → s ≤ length visits.old.items
        → (visits_at visits.old.items s).entries ≤ most_entries }
    ensures board { board.new ≡ record {
      plan = board.old.plan;
      state = or_same board.old.state (admit_of board.old.plan board.old.state entry);
    } }
    ensures visits { visits.new.items
        ≡ followed board.old.plan board.old.state visits.old.items entry }
{
    count_entry(visits, site_at(board, entry));
    admit(board, entry);
    count_guests(visits, board, site_at(board, entry));
}

// The site in which the hart of an entry is; 0 if the plan has no such hart.
fn site_at(board: &Board, entry: Entry) -> u16
    ensures { result ≡ site_at board.now.plan board.now.state entry }
{
    let hart = hart_of(entry);
    if hart < board.plan().harts() {
        board.owner(hart)
    } else {
        0
    }
}

// A hart in the site makes one more entry.
fn count_entry(visits: &mut Vec<Visits>, site: u16)
    requires { (s : ℕ) → 1 ≤ s → s ≤ length visits.old.items
        → (visits_at visits.old.items s).entries ≤ most_entries }
    ensures { visits.new.items ≡ with_entry visits.old.items site }
{
    if site == 0 || site as usize > visits.len() {
        return;
    }
    let found = visits[site as usize - 1];
    visits[site as usize - 1] = Visits {
        guests: found.guests,
        entries: found.entries + 1,
    };
}

// The site has the guests that it has in this state.
fn count_guests(visits: &mut Vec<Visits>, board: &Board, site: u16)
    requires { length visits.old.items ≡ site_count board.now.plan }
    ensures { visits.new.items ≡ with_guests visits.old.items site
        (guests_in board.now.plan board.now.state site) }
{
    if site == 0 || site as usize > visits.len() {
        return;
    }
    let found = visits[site as usize - 1];
    visits[site as usize - 1] = Visits {
        guests: found.guests.max(guests_in(board, site)),
        entries: found.entries,
    };
}

// The guests of a site in this state.
fn guests_in(board: &Board, site: u16) -> u8
    requires { IsSite board.now.plan site }
    ensures { result ≡ guests_in board.now.plan board.now.state site }
{
    match board.stage(site) {
        Stage::Live => guests_below(board, site, board.home(site)),
        Stage::New | Stage::Gone => 0,
    }
}

// How many harts are in the site and aren't this home.
fn guests_below(board: &Board, site: u16, home: Option<u8>) -> u8
    ensures { result ≡ guests_below board.now.state.owners site home board.now.plan.harts }
{
    let mut guests = 0u8;
    for hart in 0..board.plan().harts() {
        if is_guest(board, site, home, hart) {
            guests += 1;
        }
    }
    guests
}

// Whether the hart is in the site and isn't this home.
fn is_guest(board: &Board, site: u16, home: Option<u8>, hart: u8) -> bool
    requires { IsHart board.now.plan hart }
    ensures { result ≡ ((slice_index board.now.state.owners hart == site)
        && not (is_home home hart)) }
{
    board.owner(hart) == site && !is_home(home, hart)
}

// Whether the hart is this home.
fn is_home(home: Option<u8>, hart: u8) -> bool
    ensures { result ≡ is_home home hart }
{
    match home {
        None => false,
        Some(home) => home == hart,
    }
}
