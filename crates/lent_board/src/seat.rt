//! One hart's right to make transfers on a board.
ghost use Rattle.std.specs.Prelude.{◌≡◌, None, []};
ghost use Rattle.board_rule.specs.declared.view.Doing.TheVariants.{Idle};
ghost use Rattle.board_rule.specs.Rule.{IsSeat, FitsPlan};

use atomic_table::Seat;
use board_rule::View;

/// One hart's right to make transfers on a board. Contracts see what the seat knows. Between two calls no step of a call is
/// pending.
#[derive(Drop)]
pub struct HartSeat {
    pub(crate) seat: Seat<(), View>,
    pub(crate) hart: u8,
    pub(crate) owner: u16,
    pub ghost is_hart: { seat.me.0.hart ≡ hart },
    pub ghost is_owner: { seat.me.0.owner ≡ owner },
    pub ghost is_seat: { IsSeat seat.me.0 },
    pub ghost idle: { seat.me.0.doing ≡ Idle },
    pub ghost none_drawn: { seat.me.0.drawn ≡ None },
    pub ghost no_slots: { seat.me.1 ≡ [] },
    pub ghost fits: { FitsPlan seat.me.0 },
}

impl HartSeat {
    /// The hart's number.
    pub fn hart(&self) -> u8
        ensures { result ≡ self.now.seat.me.0.hart }
    {
        self.hart
    }

    /// The site that holds the hart; 0 is the base.
    pub fn owner(&self) -> u16
        ensures { result ≡ self.now.seat.me.0.owner }
    {
        self.owner
    }
}
