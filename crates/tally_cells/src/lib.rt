//! Accumulating arrays: turns a program whose branches add into one cell into one in which each branch or member has cells of
//! its own, which are added up after the construct.
//!
//! `lithe tally` runs a program that `spread` has changed. Begin with `spread` in `program.rt`; the laws are in `spread_laws`,
//! and the tests of `language_tests` spread programs and run them.
#![tactic(auto)]

mod adds;
mod build;
mod copies;
mod cut;
mod fault;
mod inside;
mod loops;
mod names;
mod outside;
mod program;
mod rows;
mod taken;
mod unshaped;

pub use cut::first_cells;
pub use fault::TallyFault;
pub use program::spread;
