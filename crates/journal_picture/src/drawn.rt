//! What is drawn of a list of entries.
ghost use Rattle.std.specs.Prelude.{◌≡◌, ◌≤◌, IfOk, length};
ghost use Rattle.transfer_table.specs.Table.{admit_of};
ghost use Rattle.journal_picture.specs.Drawn.{before, or_same, state_after};

use std::alloc::{AllocError, Global};
use transfer_table::{Board, Entry, Fault, Plan};

/// The entries before the fault, if there is one.
pub(crate) fn before(fault: Option<Fault>, list: &[Entry]) -> &[Entry]
    ensures same { result.now ≡ before fault list.now }
    ensures short { length result.now ≤ length list.now }
{
    match fault {
        None => list,
        Some(fault) => {
            let place = fault.place as usize;
            if place < list.len() {
                &list[..place]
            } else {
                list
            }
        }
    }
}

/// The table after the entries. One that is refused changes nothing.
pub(crate) fn board_after(alloc: Global, plan: &Plan, list: &[Entry]) -> Result<Board, AllocError>
    ensures { IfOk result (λ board.
        board ≡ record { plan = plan.now; state = state_after plan.now list.now }) }
{
    let mut board = Board::new(alloc, plan)?;
    for entry in list {
        admit(&mut board, *entry);
    }
    Ok(board)
}

/// Admits the entry, or leaves the table as it is.
pub(crate) fn admit(board: &mut Board, entry: Entry)
    ensures { board.new ≡ record {
      plan = board.old.plan;
      state = or_same board.old.state (admit_of board.old.plan board.old.state entry);
    } }
{
    let _ = board.admit(entry);
}
