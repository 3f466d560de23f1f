//! A number of harts for which the layout has room.
ghost use Rattle.board_rule.specs.Layouts.{HasRoom};
ghost use Rattle.lent_board.specs.Amounts.{has_room-prop};

use board_rule::Laid;
use std::marker::PhantomData;

/// A number of harts for which the first word has room. Why beside the board's words: a ghost field of a struct that owns
/// memory can't name the layout.
#[derive(Drop)]
pub struct Room<L: Laid> {
    pub(crate) harts: u8,
    pub(crate) of: PhantomData<L>,
    pub ghost enough: { HasRoom L.layout harts } by { has_room-prop L.layout harts },
}
