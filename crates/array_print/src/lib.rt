//! The printer of the array language: programs to texts, such that the parser returns the program again, up to line numbers
//! (equality after each line is set to 0). `language_tests` has examples.
#![tactic(auto)]

mod expressions;
mod laws;
mod printer;
mod program;
mod statements;

pub use laws::{printed_text_spells, writable_programs_are_spelled};
pub use program::print;
