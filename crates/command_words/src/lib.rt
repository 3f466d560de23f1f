//! The words of the command line, parsed by `clap`.
//!
//! `command_of` in `words.rt` returns the command of a list of words. `specs/Form.antt` defines which lists of words are forms
//! of a command. The tests of `command_tests` have examples.
#![tactic(auto)]

mod app;
mod command;
mod number;
mod words;

pub use command::Command;
pub use words::command_of;
