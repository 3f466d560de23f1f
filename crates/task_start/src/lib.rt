//! A first task, to copy: the spaces of a text are counted by halves of the text.
#![tactic(auto)]

mod spaces;
#[cfg(test)]
mod tests;

pub use spaces::{Spaces, count_spaces};
