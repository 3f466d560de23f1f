//! The invariant of the board's words.
use crate::layout::Laid;
use crate::view::View;
use atomic_table::TableRule;
use std::marker::PhantomData;
use transfer_table::Plan;

/// The invariant: between any two steps the words and the views represent a legal run of the plan's table.
pub struct BoardRule<L: Laid> {
    of: PhantomData<L>,
}

impl<L: Laid> TableRule<(), View, Plan> for BoardRule<L> {
    ghost use Rattle.board_rule.specs.Rule.{Stands};
    ghost use Rattle.board_rule.specs.Views.{first_view};

    ghost holds = { Stands L.layout };

    ghost first = { first_view };
}
