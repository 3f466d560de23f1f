//! The top call of `lithe`: from words and a program to its arrays and its journal.
//!
//! `lithe` is the call, and its contract states the correctness of the whole. `specs/Output.antt` defines the output of a
//! command, `specs/Served.antt` what a call has read and written, and `src/laws.rt` what follows if the source shows its bytes
//! beforehand. `write_summary` in `summing.rt` writes the four lines of `make`.
//!
//! Begin with `lithe` in `call.rt` and the clause `done` of `AreServed` in `specs/Served.antt`. The program `lithe_run` calls
//! it, and the tests of `lithe_tests` serve commands from memory.
#![tactic(auto)]

mod answer;
mod audit;
mod call;
mod command;
mod fault;
mod laws;
mod pipe;
mod program;
mod reading;
mod run;
mod status;
mod summing;
mod tally;
mod writing;

pub use audit::text_fault;
pub use call::{lithe, no_form_for_words, no_memory_for_words};
pub use command::{MOST_AUDITED, MOST_BYTES, harts, parsed_command};
pub use fault::Fault;
pub use laws::printed_bytes_are_served;
pub use pipe::crossing_fault;
pub use program::{checked, parsed};
pub use reading::{ReadError, read_all};
pub use status::{Status, constant_text};
pub use tally::with_rows;
pub use writing::write_all;
