//! The checker's walk: whether each static index is inside its array, and whether the pieces of each site are apart.
//!
//! `disjoint_check` calls `walk_program` for a program inside the limits. A walk follows the program step by step, except for
//! texts that `touch_bounds` settles. Begin with `walk_program` in `walk.rt`; the tests of `language_tests` check programs that
//! it refuses.
#![tactic(auto)]

mod fault;
mod inside;
mod laws;
mod layer;
mod mark;
mod overlap;
mod places;
mod round;
mod sites;
mod table;
mod touched;
mod turns;
mod visits;
mod walk;

pub use fault::WalkFault;
pub use laws::{outsides_are_found, overlaps_are_found};
pub use sites::{SiteSearch, seek_block};
pub use turns::Turns;
pub use visits::{Access, Visits, visit_block, visit_loop, visit_statement};
pub use walk::{walk_indices, walk_program};
