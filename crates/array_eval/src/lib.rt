//! The one-thread evaluator of the array language: stores, the store that a program leaves, and overlays of written cells.
//!
//! `run_one` runs a whole program, and jobs run their works on the same stores. Begin with `run_one` in `run.rt`, then `Store`
//! and `MarkedStore`; the tests of `language_tests` run programs with it.
#![tactic(auto)]

mod acts;
mod array_text;
mod cells;
mod copies;
mod fixed;
mod laws;
mod layout;
mod marked_store;
mod members;
mod overlay;
mod page;
mod paged;
mod resolved;
mod run;
mod scope;
mod store;
mod value;
mod vars;

pub use array_text::write_arrays;
pub use cells::{Cells, NoCells, count_cells};
pub use laws::rising_lists_are_short;
pub use layout::{Layout, Place};
pub use marked_store::MarkedStore;
pub use members::{span, start_of_member};
pub use overlay::Overlay;
pub use run::{run_assign, run_block, run_loop, run_one};
pub use scope::{LoopVar, Scope};
pub use store::Store;
pub use value::{evaluate, is_dynamic};
pub use vars::Vars;
