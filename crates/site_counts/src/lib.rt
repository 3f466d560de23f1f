//! The number of a block's sites, and of their pieces, without a store.
//!
//! The checker counts a program's sites and pieces with it, and a job the sites inside it. Begin with `sites_in_block` in
//! `counts.rt`; `array_jobs/src/work.rt` is a small user of it.
#![tactic(auto)]

mod counts;

pub use counts::{count_of, pieces_in_block, sites_in_block, sites_in_statement, sites_in_turns};
