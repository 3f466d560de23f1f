//! The parser of the array language: texts to programs, or to the first error of a text. `language_tests` has examples.
//!
//! `specs/Spelled.antt` defines which program a text spells: tokens by `array_tokens`, the tree by `specs/Grammar.antt`, the
//! limits on nesting by `specs/Nesting.antt`. The parser descends recursively through the tokens, once. `specs/Parsing` has the
//! invariants of its proof: each function states which path it takes through a machine that reads token after token, and so
//! finds the first token with which no program continues.
#![tactic(auto)]

mod expressions;
mod fault;
mod laws;
mod nesting;
mod operator;
mod program;
mod ranges;
mod spelling;
mod statements;
mod stop;

pub use array_tree::{ArrayDecl, Arrays, Block, Blocks, Expr, Name, Op, Program, Stmt};
pub use fault::SyntaxFault;
pub use laws::{one_fault, one_program};
pub use operator::{Strength, binding};
pub use spelling::parse;
