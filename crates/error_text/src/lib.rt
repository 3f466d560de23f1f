//! The error lines of `lithe`: for a text that spells no program, a program that isn't accepted, a program that can't be
//! spread, and a program whose pieces cross.
//!
//! Each function returns the one line that the command prints. Begin with `refusal_line` in `refusal.rt`; `command_tests` has an
//! example of each line.
#![tactic(auto)]

mod crossing;
mod refusal;
mod syntax;
mod tally;

pub use crossing::crossing_line;
pub use refusal::refusal_line;
pub use syntax::syntax_line;
pub use tally::tally_line;
