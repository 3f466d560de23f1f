//! The text of a journal: `transfers N`, and a line for each entry.
//!
//! A run prints its journal in this form, and an audit reads it. Begin with `write_entries` in `write.rt` and `read_entries` in
//! `read.rt`. `command_tests` has examples.
#![tactic(auto)]

mod fault;
mod number;
mod read;
mod row;
mod write;

pub use fault::TextFault;
pub use read::{cut_line, read_entries};
pub use write::write_entries;
