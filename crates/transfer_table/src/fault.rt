//! The first fault of a journal.
ghost use Rattle.std.specs.Prelude.{◌≡◌, ◌<◌, ◌^◌, ◌↔◌, IfOk, IfNone, None, Ok, length};
ghost use Rattle.transfer_table.specs.Plan.{IsPlan, site_count};
ghost use Rattle.transfer_table.specs.Table.{first_state, row};
ghost use Rattle.transfer_table.specs.Journal.{refused_from, replay_from, first_fault_of, lacks, unmeant, IsComplete};
ghost use Rattle.std.specs.Option.{is_some};

use crate::board::Board;
use crate::entry::{Entry, NotAdmitted};
use crate::plan::Plan;
use std::alloc::{AllocError, Global};

/// Why a list of entries isn't complete.
#[derive(Clone, Copy, Debug, PartialEq, Eq)]
pub enum Why {
    /// The table refuses the entry at the index.
    Refused(NotAdmitted),
    /// The table refuses no entry, and the site, the least such, isn't gone at the end.
    Unfinished { site: u16 },
    /// The table refuses no entry, and every site is gone at the end. The site is the least that was registered and isn't
    /// meant, or is meant and wasn't registered; the flag is true if it is meant.
    Unmeant { site: u16, registered: bool },
}

/// Where a list of entries isn't complete, and why.
#[derive(Clone, Copy, Debug, PartialEq, Eq)]
pub struct Fault {
    /// The index of the refused entry, counted from 0, or the list's length.
    pub place: u32,
    pub why: Why,
}

/// The first fault of the list for the plan and the meant sites; `None` exactly if the list is complete.
///
/// `meant` has a flag for each site, that of site `s` at index `s - 1`. The list has fewer than 2^32 entries.
///
/// # Errors
///
/// `AllocError` if an allocation fails.
///
/// # Memory
///
/// It allocates one `Board`.
pub fn first_fault(
    alloc: Global,
    plan: &Plan,
    meant: &[bool],
    list: &[Entry],
) -> Result<Option<Fault>, AllocError>
    requires few { length list.now < 2 ^ 32 }
    requires meant { length meant.now ≡ site_count plan.now }
    ensures fault { IfOk result (λ fault. fault ≡ first_fault_of plan.now meant.now list.now) }
    ensures complete { IfOk result (λ fault. fault ≡ None ↔ IsComplete plan.now meant.now list.now) }
{
    let mut board = Board::new(alloc, plan)?;
    Ok(fault_on(&mut board, meant, list))
}

// The first fault of the list, by a board that has admitted no entry yet. Why: it looks for unfinished sites only if the board
// refuses no entry, so `first_refused` carries no state for them.
fn fault_on(board: &mut Board, meant: &[bool], list: &[Entry]) -> Option<Fault>
    requires few { length list.now < 2 ^ 32 }
    requires meant { length meant.now ≡ site_count board.old.plan }
    requires plan { IsPlan board.old.plan }
    requires first { board.old.state ≡ first_state board.old.plan }
    ensures { result ≡ first_fault_of board.old.plan meant.now list.now }
{
    if let Some(fault) = first_refused(board, list) {
        return Some(fault);
    }
    lacking(board, meant).map(|why| Fault {
        place: list.len() as u32,
        why,
    })
}

// The first entry that the board refuses. The board admits all before it.
fn first_refused(board: &mut Board, list: &[Entry]) -> Option<Fault>
    requires { length list.now < 2 ^ 32 }
    ensures first { result ≡ refused_from board.old.plan board.old.state list.now 0 }
    ensures none { IfNone result
        (replay_from board.old.plan board.old.state list.now ≡ Ok board.new.state) }
    ensures plan { board.new.plan ≡ board.old.plan }
{
    for place in 0..list.len() {
        if let Err(refusal) = board.admit(list[place]) {
            return Some(Fault {
                place: place as u32,
                why: Why::Refused(refusal),
            });
        }
    }
    None
}

// What the list lacks whose entries the board has admitted: those that registered a site gave it a home.
fn lacking(board: &Board, meant: &[bool]) -> Option<Why>
    requires { length meant.now ≡ site_count board.now.plan }
    ensures { result ≡ lacks meant.now (λ s. is_some (row board.now.state s).home)
        board.now.state }
{
    if let Some(site) = board.unfinished() {
        return Some(Why::Unfinished { site });
    }
    first_unmeant(board, meant)
}

// The least site that has a home and isn't meant, or is meant and has none.
fn first_unmeant(board: &Board, meant: &[bool]) -> Option<Why>
    requires { length meant.now ≡ site_count board.now.plan }
    ensures { result ≡ unmeant (λ s. is_some (row board.now.state s).home) meant.now 1 }
{
    for i in 0..board.plan().sites() {
        let site = i + 1;
        let registered = board.home(site).is_some();
        if registered != meant[usize::from(i)] {
            return Some(Why::Unmeant { site, registered });
        }
    }
    None
}
