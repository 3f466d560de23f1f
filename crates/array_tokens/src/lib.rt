//! The tokens of the array language: bytes to names, numbers, words and signs.
//!
//! The parser in `array_lang` reads the tokens. Begin with `tokens` in `lexer.rt`; the tests in `cutting.rt` of
//! `language_tests` have examples.
#![tactic(auto)]

mod fault;
mod lexer;
mod token;

pub use fault::TokenFault;
pub use lexer::tokens;
pub use token::{Kind, Literal, Sign, Token, Word};
