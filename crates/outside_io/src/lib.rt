//! Sources and sinks of bytes, over streams and in memory, the words of the command line, and the trait `Gate`, a hook before
//! each piece of work.
//!
//! The top call of `lithe_call` reads its input from a `Source` and writes its output to a `Sink`, so that its contract covers
//! programs and tests alike. The programs read their words by `words_of`. Begin with `Source` in `source.rt` and `Sink` in
//! `sink.rt`; `command_tests` has examples.
#![tactic(auto)]

mod failing;
mod gate;
mod sink;
mod source;
mod standard;
mod sure;
mod words;

pub use failing::{MemSink, MemSource};
pub use gate::{Gate, OpenGate};
pub use sink::{Put, Sink};
pub use source::{Fill, Source};
pub use standard::{StdSink, StdSource};
pub use sure::{SureSink, SureSource};
pub use words::{NoWords, words_of};
