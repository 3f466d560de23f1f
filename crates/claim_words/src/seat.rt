//! One hart's right to claim.
ghost use Rattle.std.specs.Prelude.{◌≡◌, ◌<◌, []};

use crate::seat_view::SeatView;
use atomic_table::Seat;

/// One hart's right to claim members. Contracts see what the seat knows.
#[derive(Drop)]
pub struct ClaimSeat {
    pub(crate) seat: Seat<u8, SeatView>,
    pub ghost idle: { seat.me.0.trying ≡ 0 },
    pub ghost has_part: { 0 < seat.me.0.parts },
    pub ghost no_slots: { seat.me.1 ≡ [] },
}
