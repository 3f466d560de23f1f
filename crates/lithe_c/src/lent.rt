//! A hart's seat with its share of the board.
ghost use Rattle.std.specs.Arc.{arc_value};
ghost use Rattle.open_board.specs.Of.{IsOf};

use open_board::{OpenBoard, OpenSeat, Seated};
use std::alloc::Global;
use std::sync::Arc;

/// A hart's seat, with its share of the board. It takes 128 bytes.
#[derive(Drop)]
pub struct Lent {
    pub(crate) seated: Seated<Arc<OpenBoard, Global>>,
    /// Fills 128 bytes. Why: a hart's calls write only to the first 72 bytes. Those of two blocks are then 56 bytes apart, and
    /// glibc's 16 bytes between blocks make it 72, so no two harts write to one cache line.
    unused: [u64; 7],
}

const _: () = prove!(size_of::<Lent>() == 128);

impl Lent {
    pub(crate) fn new(board: Arc<OpenBoard, Global>, seat: OpenSeat) -> Lent
        requires { IsOf (arc_value board) seat }
    {
        Lent {
            seated: Seated::new(board, seat),
            unused: [0; 7],
        }
    }
}
