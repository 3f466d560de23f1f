//! Static analysis of a program's text: bounds of the values of expressions, and of the cells that statements touch.
//!
//! The checkers use it before they walk: if the text shows that the pieces of a round are apart, they don't walk the round.
//! Begin with `branches_are_apart` in `round.rt` and its law in `laws.rt`; the tests of `language_tests` show which texts are
//! settled and which aren't.
#![tactic(auto)]

mod apart;
mod expression;
mod interval;
mod laws;
mod note;
mod ranges;
mod reach;
mod round;
mod sites;
mod touch;
mod weight;
mod work;

pub use expression::interval_of;
pub use interval::Interval;
pub use laws::clear_pieces_are_apart;
pub use ranges::Ranges;
pub use round::{branches_are_apart, indices_are_inside, members_are_apart};
pub use sites::loop_is_settled;
pub use touch::{Stretch, Touch, UNTOUCHED};
pub use weight::{MOST_MEMBERS, branches_pay, loop_pays, phase_pays, statement_pays};
pub use work::note_block;
