//! The blocks of a new board's harts.
ghost use Rattle.std.specs.Prelude.{◌≡◌, IfOk, vec_len};
ghost use Rattle.std.specs.List.{All};
ghost use Rattle.std.specs.Arc.{arc_value};
ghost use Rattle.open_board.specs.Of.{IsOf};

use crate::lent::Lent;
use open_board::{OpenBoard, OpenSeat};
use std::alloc::{AllocError, Global};
use std::sync::Arc;

/// Each seat with its share of the board, in a block of its own.
pub(crate) fn all(
    alloc: Global,
    board: &Arc<OpenBoard, Global>,
    seats: Vec<OpenSeat>,
) -> Result<Vec<Box<Lent, Global>>, AllocError>
    requires of { All (IsOf (arc_value board.now)) seats.items }
    ensures { IfOk result (λ boxes. vec_len boxes ≡ vec_len seats) }
{
    let mut boxes = Vec::with_capacity(alloc, seats.len())?;
    for seat in seats {
        let share = Arc::try_clone(board)?;
        boxes.push(for_any_thread(Box::new(alloc, Lent::new(share, seat))?))?;
    }
    Ok(boxes)
}

// Shows that C may hand a hart from thread to thread: the bound holds only if what a hart owns is `Send`.
fn for_any_thread<T: Send>(value: T) -> T
    ensures { result ≡ value }
{
    value
}
