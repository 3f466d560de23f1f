//! The syntax tree of the array language: a program without the layout of its text.
//!
//! `array_lang` parses a text to it, and `array_print` prints it. Begin with `Program` in `tree.rt`, and with
//! `specs/Trees.antt` for the plain data that contracts see. The tests in `trees.rt` of `language_tests` have examples.
#![tactic(auto)]

mod equal;
mod name;
mod tree;

pub use name::Name;
pub use tree::{ArrayDecl, Arrays, Block, Blocks, Expr, Op, Program, Stmt};
