//! The call of the program `lithe_picture`: it reads a program and an output of it, and writes a picture of the output's
//! journal.
//!
//! [`serve_picture`] takes the words of a command line, a source and two sinks, so tests call it with ends in memory. It reads
//! what an audit reads, and checks the program as the command does whose output it draws. `specs/Shown.antt` defines what a
//! call reads and writes. `picture_of` in `picture.rt` draws any output, also one that no run printed.
//!
//! # Example
//!
//! From `lithe_tests/src/serving.rt`, for words such as `["text", "--harts", "2"]`.
//!
//! ```text
//! let mut own = Vec::new(alloc);
//! for word in words {
//!     own.push(String::from_str(alloc, word)?)?;
//! }
//! Ok(serve_picture(alloc, &own, source, out, err))
//! ```
#![tactic(auto)]

mod call;
mod drawing;
mod laws;
mod options;
mod parsing;
mod picture;
mod runner;
mod shapes;
mod text;

pub use call::{no_memory_for_picture, no_picture_for_words, serve_picture};
pub use laws::{outputs_are_legal, runs_end_as_audits};
pub use picture::{Form, Picture, picture_of};
